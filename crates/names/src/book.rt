ghost use Rattle.std.specs.Prelude.{◌≡◌, min, true, [], ◌∷◌, ◌++◌, length, IfOk, None as Absent};
ghost use Rattle.names.specs.Book.{texts as texts_of, limits as limits_of};
ghost use Rattle.names.specs.Names.{number_of, name_answer, name_after, text_answer, room_for, OneToOne, Naming, AnswersWhether};
ghost use Rattle.names.specs.Lent.{lent};
ghost use Rattle.names.specs.TypeName.{TypeName, IsAction};

use crate::index::{Index, hash};
use crate::keeper::Pieces;
use crate::kept::NameBook;
use crate::text::is_action_type;
use crate::type_name::is_type_name;
use refusals::NameNumber;
use refusals::refusal::{Refusal, UnknownName};
use std::alloc::{AllocError, Global};

// At most so many names.
pub const PLACES: usize = 1024;

// At most so many bytes in all names together.
pub const ROOM: usize = 65535;

// At most so many bytes in one name.
pub const LONGEST: usize = 64;

impl NameBook {
    // An empty book for so many names and bytes, cut to the limits.
    pub fn new(heap: Global, places: usize, room: usize) -> Result<NameBook, AllocError>
        ensures { IfOk result (λ book. (texts_of book ≡ []) × (limits_of book ≡ record { places = min places 1024; room = min room 65535 })) }
    {
        let places = places.min(PLACES);
        let texts = Pieces::new(heap, places, room.min(ROOM))?;
        let index = Index::new(heap, places)?;
        Ok(NameBook { texts, index })
    }

    // How many names there are.
    pub fn count(&self) -> usize
        ensures count { result ≡ length (texts_of self.now) }
        ensures one_to_one { OneToOne (texts_of self.now) }
    {
        self.texts.count()
    }

    // The number of a text that is there.
    pub fn find(&self, text: &[u8]) -> Option<usize>
        ensures { result ≡ number_of text.now (texts_of self.now) }
    {
        let mut next = self.index.last[hash(text)];
        while let Some(n) = next {
            let n = n as usize;
            if self.texts.piece(n) == text {
                return Some(n);
            }
            next = self.index.before[n];
        }
        None
    }

    // Whether so many names more, of so many bytes together, keep within the limits.
    pub fn has_room_for(&self, names: usize, bytes: usize) -> bool
        ensures { result ≡ room_for (limits_of self.now) (texts_of self.now) names bytes }
    {
        self.texts.has_room_for(names, bytes)
    }

    // Puts a text that is not there, and for which there is room, behind the last.
    fn enter(&mut self, text: &[u8])
        requires room { room_for (limits_of self.old) (texts_of self.old) 1 (length text.now) ≡ true }
        requires absent { number_of text.now (texts_of self.old) ≡ Absent }
        ensures texts { texts_of self.new ≡ texts_of self.old ++ (text.now ∷ []) }
        ensures limits { limits_of self.new ≡ limits_of self.old }
    {
        let number = self.texts.count();
        self.texts.push(text);
        self.index.push(hash(text), number as NameNumber);
    }

    // The number of a text, which enters under the next number where it is not there.
    pub fn name(&mut self, text: &[u8]) -> Result<NameNumber, Refusal>
        ensures answer { result ≡ name_answer (limits_of self.old) (texts_of self.old) text.now }
        ensures after { texts_of self.new ≡ name_after (limits_of self.old) (texts_of self.old) text.now }
        ensures limits { limits_of self.new ≡ limits_of self.old }
        ensures laws { Naming (texts_of self.old) (texts_of self.new) text.now result }
    {
        if text.len() > LONGEST {
            return Err(Refusal::TooLong(text.len()));
        }
        if let Some(n) = self.find(text) {
            return Ok(n as NameNumber);
        }
        if !self.texts.has_room_for(1, text.len()) {
            return Err(Refusal::BookFull);
        }
        let number = self.texts.count();
        self.enter(text);
        Ok(number as NameNumber)
    }

    // The text of a number, lent from the book's own memory.
    pub fn text(&self, number: NameNumber) -> Result<&[u8], UnknownName>
        ensures { lent result ≡ text_answer (texts_of self.now) number }
    {
        self.texts
            .get(number as usize)
            .ok_or(UnknownName { number })
    }

    // Whether the text of a number is a type name.
    pub fn is_type_name(&self, number: NameNumber) -> Result<bool, Refusal>
        ensures { AnswersWhether (texts_of self.now) number TypeName result }
    {
        let text = self.text(number)?;
        Ok(is_type_name(text))
    }

    // Whether the text of a number names a type of actions: its last part is `Action`.
    pub fn is_action(&self, number: NameNumber) -> Result<bool, Refusal>
        ensures { AnswersWhether (texts_of self.now) number IsAction result }
    {
        let text = self.text(number)?;
        Ok(is_action_type(text))
    }
}
