ghost use Rattle.std.specs.Prelude.{◌≡◌, ◌≤◌, List, [], length, IfOk};
ghost use Rattle.std.specs.Option.{option_map};
ghost use Rattle.clauses.specs.Book.{at, listing};
ghost use Rattle.clauses.specs.Contents.{held};
ghost use Rattle.clauses.specs.Entering.{next_number};
ghost use Rattle.names.specs.Names.{with_entered};
ghost use Rattle.clauses.specs.Listing.{lawful_by};

use crate::book::ClauseBook;
use crate::content::Content;
use crate::contents::ContentBook;
use names::keeper::Pieces;
use refusals::refusal::Refusal;
use refusals::slots::SlotSet;
use std::alloc::{AllocError, Global};

// At most so many contents in a book.
const PLACES: usize = 256;

impl<T: Copy, const LONGEST: u16> ContentBook<T, LONGEST> {
    // An empty book.
    pub fn new(heap: Global) -> Result<ContentBook<T, LONGEST>, AllocError>
        ensures { IfOk result (λ book. held book ≡ []) }
    {
        let contents = Pieces::new(heap, PLACES, PLACES * LONGEST as usize)?;
        Ok(ContentBook { contents })
    }

    // Puts a content under the next number; refusal 4 where all are taken.
    pub(crate) fn put(&mut self, content: &[T]) -> Result<u16, Refusal>
        requires { length content.now ≤ LONGEST }
        ensures answer { result ≡ next_number (held self.old) }
        ensures after { held self.new ≡ with_entered result (held self.old) content.now }
    {
        let number = self.contents.enter(content)?;
        Ok(number as u16)
    }
}

impl<T: Content, const LONGEST: u16> ContentBook<T, LONGEST> {
    // The content of a number, which its clause is made from.
    fn content(&self, n: u16) -> Option<&[T]>
        ensures { at (listing T.clause (held self.now)) n ≡ option_map (λ content. T.clause content.now) result }
    {
        self.contents.get(n as usize)
    }
}

impl<T: Content, const LONGEST: u16> ClauseBook for ContentBook<T, LONGEST> {
    ghost content = { List T };

    ghost equal = { T.equal };

    ghost listed = { λ book. listing T.clause (held book) };

    ghost decides = { T.decides };

    ghost lawful = { λ book. lawful_by T.clause T.keeps T.two_bits T.slotless (held book) };

    fn count(&self) -> u32 {
        self.contents.count() as u32
    }

    fn slots(&self, n: u16) -> SlotSet {
        self.content(n)
            .map_or(SlotSet::empty(), |content| T::slots_of(content))
    }

    fn constant(&self, n: u16) -> Option<bool> {
        T::constant_of(self.content(n)?)
    }

    fn same(&self, a: u16, b: u16) -> bool {
        self.content(a)
            .zip(self.content(b))
            .is_some_and(|(left, right)| left == right)
    }
}
