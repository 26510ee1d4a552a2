ghost use Rattle.std.specs.Prelude.{◌≡◌, IfOk};
ghost use Rattle.names.specs.Book.{texts as texts_of, limits as limits_of};
ghost use Rattle.script.specs.Words.{words as words_of};
ghost use Rattle.console.specs.Args.{left};
ghost use Rattle.console.specs.Asked.{name_word};
ghost use Rattle.console.specs.Lines.{is_comment as is_comment_meant, clause_word, Begins, OnNames, OnClauses, CallOf, LineOf, LinePrinted};
ghost use Rattle.console.specs.Printed.{Printed};
ghost use Rattle.console.specs.SetWords.{set_word};

use crate::args::Args;
use crate::clause_calls::{ClauseWord, Clauses};
use crate::name_calls::NameWord;
use crate::reader::Reader;
use crate::set_calls::SetWord;
use crate::stop::{Stop, Wrong};
use calls::sets::Sets;
use names::book::{PLACES, ROOM};
use names::kept::NameBook;
use printing::refused::refused;
use std::alloc::{AllocError, Global};

// What a script keeps from line to line.
#[derive(Drop)]
pub struct Session {
    reader: Reader,
    clauses: Clauses,
    sets: Sets,
}

// What is printed: an answer, a refusal or an error; nothing of a blank line or a comment.
fn printed(
    heap: Global,
    book: &NameBook,
    answer: Result<Option<String>, Stop>,
) -> Result<Option<String>, AllocError>
    ensures { Printed (texts_of book.now) answer result }
{
    match answer {
        Ok(line) => Ok(line),
        Err(Stop::Wrong(wrong)) => {
            let text = wrong.text();
            Ok(Some(format!(in heap; "error {text}")?))
        }
        Err(Stop::Refused(refusal)) => Ok(Some(refused(heap, book, refusal)?)),
        Err(Stop::NoMemory) => Err(AllocError),
    }
}

// Whether a line's first word begins a comment.
fn is_comment(head: &[u8]) -> bool
    ensures { result ≡ is_comment_meant head.now }
{
    matches!(head, [b'#', ..])
}

impl Session {
    // A session on empty books and sets.
    pub(crate) fn new(heap: Global) -> Result<Session, AllocError>
        ensures { IfOk result (λ session. Begins session) }
    {
        let book = NameBook::new(heap, PLACES, ROOM)?;
        let clauses = Clauses::new(heap)?;
        Ok(Session {
            reader: Reader { heap, book },
            clauses,
            sets: Sets::new(),
        })
    }

    // Answers a line on names.
    fn name_line(&mut self, first: NameWord, args: &mut Args) -> Result<String, Stop>
        ensures line { OnNames self.old first (left args.old) result self.new }
        ensures limits { limits_of self.new.reader.book ≡ limits_of self.old.reader.book }
    {
        let call = first.read(args)?;
        call.make(self.reader.heap, &mut self.reader.book)
    }

    // Answers a line on clauses or on a template.
    fn clause_line(&mut self, word: ClauseWord, args: &mut Args) -> Result<String, Stop>
        ensures line { OnClauses self.old word (left args.old) result self.new }
        ensures limits { limits_of self.new.reader.book ≡ limits_of self.old.reader.book }
    {
        let reader = &mut self.reader;
        match word {
            ClauseWord::Clause => self.clauses.clause(reader.heap, args),
            ClauseWord::Tree => self.clauses.tree(reader, args),
            ClauseWord::Condition => self.clauses.condition(reader, args),
            ClauseWord::Binding => self.clauses.binding(reader, args),
        }
    }

    // Answers a line by its first word.
    fn call_line(&mut self, head: &[u8], args: &mut Args) -> Result<String, Stop>
        ensures line { CallOf self.old (name_word head.now) (clause_word head.now) (set_word head.now) (left args.old) result self.new }
        ensures limits { limits_of self.new.reader.book ≡ limits_of self.old.reader.book }
    {
        if let Some(first) = NameWord::of(head) {
            return self.name_line(first, args);
        }
        if let Some(word) = ClauseWord::of(head) {
            return self.clause_line(word, args);
        }
        let first = SetWord::of(head).ok_or(Wrong::UnknownCall)?;
        self.clauses
            .set_line(first, &mut self.reader, args, &mut self.sets)
    }

    // Makes the call of a line; no answer to a blank line or a comment.
    fn call(&mut self, line: &[u8]) -> Result<Option<String>, Stop>
        ensures line { LineOf self.old (words_of line.now) result self.new }
        ensures limits { limits_of self.new.reader.book ≡ limits_of self.old.reader.book }
    {
        let mut args = Args::new(self.reader.heap, line);
        let Some(head) = args.next() else {
            return Ok(None);
        };
        if is_comment(head) {
            return Ok(None);
        }
        Ok(Some(self.call_line(head, &mut args)?))
    }

    // The answer to a line, without its line feed.
    pub(crate) fn answer(&mut self, line: &[u8]) -> Result<Option<String>, AllocError>
        ensures line { LinePrinted self.old (words_of line.now) result self.new }
        ensures limits { limits_of self.new.reader.book ≡ limits_of self.old.reader.book }
    {
        let answer = self.call(line);
        printed(self.reader.heap, &self.reader.book, answer)
    }
}
