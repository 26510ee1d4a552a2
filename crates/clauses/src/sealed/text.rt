ghost use Rattle.std.specs.Prelude.{◌≡◌, Decides};
ghost use Rattle.refusals.specs.declared.slots.SlotId.{SlotId as Slot};
ghost use Rattle.refusals.specs.Slots.{has};
ghost use Rattle.clauses.specs.Sealed.{no_word, stepped, slot_at_start, slots_seen, text_slots, text_constant, Spells};

use crate::sealed::scanner::Scanner;
use names::type_name::is_word;
use refusals::slots::{SlotId, SlotSet};

// Whether a word is over where this text follows.
fn ends_word(rest: &[u8]) -> bool
    ensures { result ≡ no_word rest.now }
{
    match rest {
        [after, ..] => !is_word(*after),
        [] => true,
    }
}

// The slot that stands at the start of a text.
fn slot_at_start(text: &[u8]) -> Option<SlotId>
    ensures { result ≡ slot_at_start text.now }
{
    match text {
        [
            b'?',
            b'p',
            b'r',
            b'i',
            b'n',
            b'c',
            b'i',
            b'p',
            b'a',
            b'l',
            rest @ ..,
        ] => { ends_word(rest).then_some(SlotId::Principal) }
        [
            b'?',
            b'r',
            b'e',
            b's',
            b'o',
            b'u',
            b'r',
            b'c',
            b'e',
            rest @ ..,
        ] => { ends_word(rest).then_some(SlotId::Resource) }
        _ => None,
    }
}

impl Scanner {
    // Takes one byte.
    fn step(&mut self, byte: u8)
        ensures { self.new ≡ stepped self.old byte }
    {
        match (*self, byte) {
            (Scanner::Plain, b'"') => *self = Scanner::String,
            (Scanner::String, b'"') => *self = Scanner::Plain,
            (Scanner::String, b'\\') => *self = Scanner::Escaped,
            (Scanner::Escaped, _) => *self = Scanner::String,
            _ => {}
        }
    }

    // The slots at the start of a text, of which there are none in a string.
    fn slots_seen(self, text: &[u8]) -> SlotSet
        ensures { result.bits ≡ slots_seen self text.now }
    {
        match (self, slot_at_start(text)) {
            (Scanner::Plain, Some(slot)) => SlotSet::single(slot),
            _ => SlotSet::empty(),
        }
    }
}

// The slots of a sealed text.
pub fn slots_of_text(text: &[u8]) -> SlotSet
    ensures slots { result.bits ≡ text_slots text.now }
    ensures told { (slot : Slot) → Decides (has slot result) (Spells slot text.now) }
{
    let mut scanner = Scanner::Plain;
    let mut slots = SlotSet::empty();
    let mut rest = text;
    // A slot is told by the rest of the text at its place, so the rest is carried and no iterator over the bytes serves.
    while let [byte, tail @ ..] = rest {
        slots = slots.union(scanner.slots_seen(rest));
        scanner.step(*byte);
        rest = tail;
    }
    slots
}

// The constant that a sealed text is, if any.
pub fn constant_of_text(text: &[u8]) -> Option<bool>
    ensures { result ≡ text_constant text.now }
{
    match text {
        b"true" => Some(true),
        b"false" => Some(false),
        _ => None,
    }
}
