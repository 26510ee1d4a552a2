ghost use Rattle.std.specs.Prelude.{◌≡◌, ◌∷◌, ◌++◌, string_bytes, OnOk};
ghost use Rattle.names.specs.Book.{texts as texts_of};
ghost use Rattle.script.specs.declared.encode.Colon.TheVariants.{Plain as Uncoded};
ghost use Rattle.printing.specs.Print.{name_text};
ghost use Rattle.printing.specs.Scopes.{entity_word, reference_word, scope_word, more_entities, entities_word, action_word};

// Types, entities and scopes as words. Not `Display`, which could not read the name book.
use crate::print::{name_text, push_word};
use names::entity::EntityUID;
use names::kept::NameBook;
use policy::action::ActionConstraint;
use policy::constraint::{EntityReference, PrincipalOrResourceConstraint};
use refusals::NameNumber;
use script::encode::Colon;
use std::alloc::AllocError;
use std::fmt::Write;

// Puts TYPE behind a line, its colons as they are.
pub fn push_type(line: &mut String, book: &NameBook, ty: NameNumber) -> Result<(), AllocError>
    ensures { OnOk result (string_bytes line.new ≡ string_bytes line.old ++ name_text (texts_of book.now) Uncoded ty) }
{
    let ty = name_text(*line.allocator(), book, ty, Colon::Plain)?;
    write!(line, "{ty}")
}

// Puts TYPE/EID behind a line.
pub fn push_entity(line: &mut String, book: &NameBook, e: EntityUID) -> Result<(), AllocError>
    ensures { OnOk result (string_bytes line.new ≡ string_bytes line.old ++ entity_word (texts_of book.now) e) }
{
    push_type(line, book, e.ty)?;
    let eid = name_text(*line.allocator(), book, e.eid, Colon::Coded)?;
    write!(line, "/{eid}")
}

// Puts `?` or an entity behind a line.
fn push_reference(
    line: &mut String,
    book: &NameBook,
    reference: EntityReference,
) -> Result<(), AllocError>
    ensures { OnOk result (string_bytes line.new ≡ string_bytes line.old ++ reference_word (texts_of book.now) reference) }
{
    match reference {
        EntityReference::Slot => write!(line, "?"),
        EntityReference::EUID(e) => push_entity(line, book, e),
    }
}

// Puts a space and a principal's or a resource's scope behind a line.
pub fn push_scope(
    line: &mut String,
    book: &NameBook,
    scope: PrincipalOrResourceConstraint,
) -> Result<(), AllocError>
    ensures { OnOk result (string_bytes line.new ≡ string_bytes line.old ++ (32 ∷ scope_word (texts_of book.now) scope)) }
{
    match scope {
        PrincipalOrResourceConstraint::Any => push_word(line, "any"),
        PrincipalOrResourceConstraint::Eq(reference) => {
            write!(line, " eq:")?;
            push_reference(line, book, reference)
        }
        PrincipalOrResourceConstraint::In(reference) => {
            write!(line, " in:")?;
            push_reference(line, book, reference)
        }
        PrincipalOrResourceConstraint::Is(ty) => {
            write!(line, " is:")?;
            push_type(line, book, ty)
        }
        PrincipalOrResourceConstraint::IsIn(ty, reference) => {
            write!(line, " isin:")?;
            push_type(line, book, ty)?;
            write!(line, ":")?;
            push_reference(line, book, reference)
        }
    }
}

// Puts entities behind a line, a comma before each.
fn push_more_entities(
    line: &mut String,
    book: &NameBook,
    list: &[EntityUID],
) -> Result<(), AllocError>
    ensures { OnOk result (string_bytes line.new ≡ string_bytes line.old ++ more_entities (texts_of book.now) list.now) }
{
    for e in list {
        write!(line, ",")?;
        push_entity(line, book, *e)?;
    }
    Ok(())
}

// Puts entities behind a line, commas between them.
fn push_entities(line: &mut String, book: &NameBook, list: &[EntityUID]) -> Result<(), AllocError>
    ensures { OnOk result (string_bytes line.new ≡ string_bytes line.old ++ entities_word (texts_of book.now) list.now) }
{
    let Some((first, rest)) = list.split_first() else {
        return Ok(());
    };
    push_entity(line, book, *first)?;
    push_more_entities(line, book, rest)
}

// Puts a space and an action's scope behind a line.
pub fn push_action(
    line: &mut String,
    book: &NameBook,
    action: &ActionConstraint,
) -> Result<(), AllocError>
    ensures { OnOk result (string_bytes line.new ≡ string_bytes line.old ++ (32 ∷ action_word (texts_of book.now) action.now)) }
{
    match action {
        ActionConstraint::Any => push_word(line, "any"),
        ActionConstraint::Eq(e) => {
            write!(line, " eq:")?;
            push_entity(line, book, *e)
        }
        ActionConstraint::In(list) => {
            write!(line, " in:[")?;
            push_entities(line, book, list.as_slice())?;
            write!(line, "]")
        }
    }
}
