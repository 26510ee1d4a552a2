ghost use Rattle.std.specs.Prelude.{◌≡◌, refl};
ghost use Rattle.std.specs.Str.{bytes_eq};
ghost use Rattle.clauses.specs.Entering.{sealed_answer};
ghost use Rattle.names.specs.Names.{with_entered};
ghost use Rattle.clauses.specs.Sealed.{text_clause};
ghost use Rattle.clauses.specs.SealedBooks.{texts as texts_of, sealed_clauses};
ghost use Rattle.clauses.specs.SealedLaw.{texts_decide, texts_small, texts_slotless};

use crate::content::Content;
use crate::contents::ContentBook;
use crate::sealed::text::{constant_of_text, slots_of_text};
use refusals::refusal::Refusal;
use refusals::slots::SlotSet;

// A book of sealed texts, whose contents are the bytes.
pub type SealedBook = ContentBook<u8, 512>;

impl Content for u8 {
    ghost clause = { text_clause };

    ghost equal = { bytes_eq };

    ghost compared = { λ s t. refl };

    ghost decides = { texts_decide };

    ghost keeps = { λ t. refl };

    ghost two_bits = { texts_small };

    ghost slotless = { texts_slotless };

    fn slots_of(text: &[u8]) -> SlotSet {
        slots_of_text(text)
    }

    fn constant_of(text: &[u8]) -> Option<bool> {
        constant_of_text(text)
    }
}

impl ContentBook<u8, 512> {
    // Enters a text under the next number.
    pub fn enter(&mut self, text: &[u8]) -> Result<u16, Refusal>
        ensures answer { result ≡ sealed_answer (texts_of self.old) text.now }
        ensures texts { texts_of self.new ≡ with_entered result (texts_of self.old) text.now }
        ensures clauses { sealed_clauses self.new ≡ with_entered result (sealed_clauses self.old) (text_clause text.now) }
    {
        if text.len() > 512 {
            return Err(Refusal::TooLong(text.len()));
        }
        self.put(text)
    }
}
