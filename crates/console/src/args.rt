ghost use Rattle.std.specs.Prelude.{◌≡◌, [], vec_items, MatchResult, ◌≢◌, ◌≤◌, IfOk, is_some};
ghost use Rattle.std.specs.Iterator.{YieldsFirstRef, item_count};
ghost use Rattle.std.specs.Option.{option_map};
ghost use Rattle.std.specs.Result.{result_ok};
ghost use Rattle.script.specs.Words.{words as words_of};
ghost use Rattle.script.specs.Number.{numeral};
ghost use Rattle.console.specs.Room.{room};
ghost use Rattle.console.specs.Args.{left, rest, next_word, next_text, next_number, Reads};

use crate::stop::{Stop, Wrong};
use refusals::NameNumber;
use script::decode::decode;
use script::number::read_number;
use script::words::Words;
use std::alloc::Global;

// The words of a line that are still to be read.
#[derive(Drop)]
pub struct Args<'a> {
    heap: Global,
    words: Words<'a>,
}

impl<'a> Iterator for Args<'a> {
    type Item = &'a [u8];

    ghost next_gives = { YieldsFirstRef left };

    ghost remaining = { item_count left };

    // The next word; none after the last.
    fn next(&mut self) -> Option<&'a [u8]> {
        self.words.next()
    }
}

impl<'a> Args<'a> {
    // All words of a line.
    pub fn new(heap: Global, line: &'a [u8]) -> Args<'a>
        ensures { left result ≡ words_of line.now }
    {
        Args {
            heap,
            words: Words::new(line),
        }
    }

    // The next word, which has to be there.
    pub fn word(&mut self) -> Result<&'a [u8], Wrong>
        ensures word { option_map (λ word. word.now) (result_ok result) ≡ next_word (left self.old) }
        ensures rest { left self.new ≡ rest (left self.old) }
    {
        self.next().ok_or(Wrong::MissingWord)
    }

    // A text of any bytes.
    pub fn text(&mut self) -> Result<Vec<u8>, Stop>
        ensures text { Reads vec_items result (next_text (left self.old)) }
        ensures rest { left self.new ≡ rest (left self.old) }
    {
        let word = self.word()?;
        Ok(decode(self.heap, word)?.ok_or(Wrong::BadPercent)?)
    }

    // The number of a name.
    pub fn name_number(&mut self) -> Result<NameNumber, Wrong>
        ensures number { result_ok result ≡ next_number (left self.old) }
        ensures rest { left self.new ≡ rest (left self.old) }
    {
        let word = self.word()?;
        let number = read_number(word, NameNumber::MAX as u32).ok_or(Wrong::BadNumber)?;
        Ok(number as NameNumber)
    }

    // No word may be left.
    pub fn end(&mut self) -> Result<(), Wrong>
        ensures { MatchResult result (λ _. left self.old ≡ []) (λ _. left self.old ≢ []) }
    {
        match self.next() {
            Some(_) => Err(Wrong::ExtraWord),
            None => Ok(()),
        }
    }

    // How many places the caller's buffer has, to the end of the line: without a word, or with a larger number, as many as
    // can be needed.
    pub fn room(&mut self, most: u32) -> Result<usize, Wrong>
        ensures room { result_ok result ≡ room most (left self.old) }
        ensures most { IfOk result (λ room. room ≤ most) }
    {
        let Some(word) = self.next() else {
            return Ok(most as usize);
        };
        self.end()?;
        match read_number(word, most) {
            Some(room) => Ok(room as usize),
            None if is_numeral(word) => Ok(most as usize),
            None => Err(Wrong::BadRoom),
        }
    }
}

// Whether a word is a number, however large.
fn is_numeral(word: &[u8]) -> bool
    ensures { result ≡ is_some (numeral word.now) }
{
    !word.is_empty() && word.iter().all(|byte| byte.is_ascii_digit())
}
