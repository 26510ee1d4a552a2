ghost use Rattle.std.specs.Prelude.{◌≡◌, ◌<◌, [], ◌∷◌, length};
ghost use Rattle.std.specs.Iterator.{YieldsFirstRef, item_count};
ghost use Rattle.std.specs.Str.{bytes_eq};
ghost use Rattle.script.specs.Words.{separates, words};
ghost use Rattle.script.specs.Front.{front};
ghost use Rattle.script.specs.Cursor.{to_come};

// Space, tab and carriage return separate words.
fn is_separator(byte: u8) -> bool
    ensures { result ≡ separates byte }
{
    matches!(byte, b' ' | b'\t' | b'\r')
}

// How many bytes at the front are separators, or are none.
fn run_length(line: &[u8], separators: bool) -> usize
    ensures { result ≡ front separators line.now }
{
    line.iter()
        .position(|byte| is_separator(*byte) != separators)
        .unwrap_or(line.len())
}

// The first word of a line, empty where the line has none, and what follows it.
fn first_word(line: &[u8]) -> (&[u8], &[u8])
    ensures some { 0 < length result.0.now → words line.now ≡ result.0.now ∷ words result.1.now }
    ensures none { length result.0.now ≡ 0 → (words line.now ≡ []) × (words result.1.now ≡ []) }
{
    let (_, line) = line.split_at(run_length(line, true));
    line.split_at(run_length(line, false))
}

// The words of a line that are still to come.
#[derive(Drop)]
pub struct Words<'a> {
    rest: &'a [u8],
}

impl<'a> Words<'a> {
    // All words of a line.
    pub fn new(line: &'a [u8]) -> Words<'a>
        ensures { to_come result ≡ words line.now }
    {
        Words { rest: line }
    }
}

impl<'a> Iterator for Words<'a> {
    type Item = &'a [u8];

    ghost next_gives = { YieldsFirstRef to_come };

    ghost remaining = { item_count to_come };

    // The next word, which is never empty; none after the last.
    fn next(&mut self) -> Option<&'a [u8]> {
        let (word, rest) = first_word(self.rest);
        self.rest = rest;
        if word.is_empty() { None } else { Some(word) }
    }
}

// Whether a word is spelled so, byte by byte.
pub fn same_word(word: &[u8], spelling: &[u8]) -> bool
    ensures { result ≡ bytes_eq word.now spelling.now }
{
    word == spelling
}
