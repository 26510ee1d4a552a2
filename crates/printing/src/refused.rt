ghost use Rattle.std.specs.Prelude.{◌≡◌, [], ◌∷◌, IfOk, string_bytes, decimal, OnOk};
ghost use Rattle.names.specs.Book.{texts as texts_of};
ghost use Rattle.printing.specs.Print.{spaced};
ghost use Rattle.printing.specs.Refused.{table_word as table_name, value_words, refused_line};

// Refusals as lines.
use crate::print::{push_id, push_number, push_word};
use names::kept::NameBook;
use refusals::refusal::{Refusal, Table};
use refusals::slots::SlotSet;
use std::alloc::{AllocError, Global};

// The name of a table: the words are the console's format and not the library's, so they are no `Display` of `Table`.
fn table_word(table: Table) -> &'static str
    ensures { result.now ≡ table_name table }
{
    match table {
        Table::Templates => "templates",
        Table::Policies => "policies",
    }
}

// Puts the bits of two slot sets behind a line.
fn push_slots(line: &mut String, unbound: SlotSet, extra: SlotSet) -> Result<(), AllocError>
    ensures { OnOk result (string_bytes line.new ≡ spaced (string_bytes line.old) (decimal unbound.bits ∷ decimal extra.bits ∷ [])) }
{
    push_number(line, unbound.bits as usize)?;
    push_number(line, extra.bits as usize)
}

// Puts the values of a refusal behind a line, ids as their texts.
fn push_values(line: &mut String, book: &NameBook, refusal: Refusal) -> Result<(), AllocError>
    ensures { OnOk result (string_bytes line.new ≡ spaced (string_bytes line.old) (value_words (texts_of book.now) refusal)) }
{
    match refusal {
        Refusal::BookFull => Ok(()),
        Refusal::UnknownName(number) => push_number(line, number as usize),
        Refusal::UnknownClause(number) => push_number(line, number as usize),
        Refusal::TooLong(number)
        | Refusal::TooManyActions(number)
        | Refusal::BadClause(number)
        | Refusal::ShortBuffer(number) => push_number(line, number),
        Refusal::UnexpectedSlot(slot) => push_number(line, slot.bit() as usize),
        Refusal::ArityError(unbound, extra) => push_slots(line, unbound, extra),
        Refusal::InvalidTemplate(invalid) => {
            push_id(line, book, invalid.id)?;
            push_number(line, invalid.fault.value() as usize)
        }
        Refusal::Full(table) => push_word(line, table_word(table)),
        Refusal::BadTypeName(id)
        | Refusal::SlotCacheMismatch(id)
        | Refusal::Occupied(id)
        | Refusal::NoSuchTemplate(id)
        | Refusal::PolicyIdConflict(id)
        | Refusal::NotLinkError(id)
        | Refusal::UnlinkingError(id)
        | Refusal::RemovePolicyNoLinkError(id)
        | Refusal::RemovePolicyNoTemplateError(id)
        | Refusal::NotTemplateError(id)
        | Refusal::RemoveTemplateNoTemplateError(id)
        | Refusal::RemoveTemplateWithLinksError(id)
        | Refusal::MissingTemplate(id)
        | Refusal::Slotless(id)
        | Refusal::Crossed(id) => push_id(line, book, id),
    }
}

// The line of a refusal.
pub fn refused(heap: Global, book: &NameBook, refusal: Refusal) -> Result<String, AllocError>
    ensures { IfOk result (λ line. string_bytes line ≡ refused_line (texts_of book.now) refusal) }
{
    let number = refusal.number();
    let mut line = format!(in heap; "refused {number}")?;
    push_values(&mut line, book, refusal)?;
    Ok(line)
}
