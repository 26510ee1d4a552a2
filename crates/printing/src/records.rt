ghost use Rattle.std.specs.Prelude.{◌≡◌, ◌∷◌, ◌++◌, string_bytes, OnOk};
ghost use Rattle.names.specs.Book.{texts as texts_of};
ghost use Rattle.policy.specs.Arity.{parts};
ghost use Rattle.printing.specs.Print.{spaced};
ghost use Rattle.printing.specs.Records.{fields_words, template_words, pair_word, value_word, values_words, clause_word, effect_word, policy_words};

// Templates, policies and their parts as words.
use crate::print::{name_text, push_id, push_number, push_word};
use crate::scopes::{push_action, push_entity, push_scope};
use names::entity::EntityUID;
use names::kept::NameBook;
use policy::bound::Policy;
use policy::constraint::Effect;
use policy::template::Template;
use policy::values::SlotEnv;
use refusals::NameNumber;
use script::encode::Colon;
use std::alloc::AllocError;
use std::fmt::Write;

// Puts a space and a slot's value behind a line, `-` for none.
fn push_value(
    line: &mut String,
    book: &NameBook,
    value: Option<EntityUID>,
) -> Result<(), AllocError>
    ensures { OnOk result (string_bytes line.new ≡ string_bytes line.old ++ (32 ∷ value_word (texts_of book.now) value)) }
{
    match value {
        None => push_word(line, "-"),
        Some(e) => {
            write!(line, " ")?;
            push_entity(line, book, e)
        }
    }
}

// Puts the values of both slots behind a line.
pub fn push_values(line: &mut String, book: &NameBook, values: SlotEnv) -> Result<(), AllocError>
    ensures { OnOk result (string_bytes line.new ≡ spaced (string_bytes line.old) (values_words (texts_of book.now) values)) }
{
    push_value(line, book, values.principal)?;
    push_value(line, book, values.resource)
}

// Puts a space and a clause's number behind a line, `-` for none.
fn push_clause(line: &mut String, clause: Option<u16>) -> Result<(), AllocError>
    ensures { OnOk result (string_bytes line.new ≡ string_bytes line.old ++ (32 ∷ clause_word clause)) }
{
    match clause {
        None => push_word(line, "-"),
        Some(number) => push_number(line, number as usize),
    }
}

// The word of an effect: the console's format and not the library's, so it is no `Display` of `Effect`.
fn effect_word(effect: Effect) -> &'static str
    ensures { result.now ≡ effect_word effect }
{
    match effect {
        Effect::Permit => "permit",
        Effect::Forbid => "forbid",
    }
}

// Puts EFFECT P A R CLAUSE SLOTS of a template behind a line.
pub fn push_fields(line: &mut String, book: &NameBook, t: &Template) -> Result<(), AllocError>
    ensures { OnOk result (string_bytes line.new ≡ spaced (string_bytes line.old) (fields_words (texts_of book.now) t.now)) }
{
    push_word(line, effect_word(t.effect))?;
    push_scope(line, book, t.principal)?;
    push_action(line, book, &t.action)?;
    push_scope(line, book, t.resource)?;
    push_clause(line, t.clause)?;
    push_number(line, t.slots.bits as usize)
}

// Puts ID and FIELDS of a template behind a line.
pub fn push_template(line: &mut String, book: &NameBook, t: &Template) -> Result<(), AllocError>
    ensures { OnOk result (string_bytes line.new ≡ spaced (string_bytes line.old) (template_words (texts_of book.now) t.now)) }
{
    push_id(line, book, t.id)?;
    push_fields(line, book, t)
}

// Puts ID TEMPLATEID KIND PV RV of a policy behind a line; a static policy has its template's id.
pub fn push_policy(line: &mut String, book: &NameBook, p: &Policy) -> Result<(), AllocError>
    ensures { OnOk result (string_bytes line.new ≡ spaced (string_bytes line.old) (policy_words (texts_of book.now) (parts p.now))) }
{
    push_id(line, book, p.link.unwrap_or(p.template.id))?;
    push_id(line, book, p.template.id)?;
    push_word(line, if p.link.is_some() { "link" } else { "static" })?;
    push_values(line, book, p.values)
}

// Puts a space and two ids behind a line, with a sign between them.
pub fn push_pair(
    line: &mut String,
    book: &NameBook,
    first: NameNumber,
    between: &str,
    second: NameNumber,
) -> Result<(), AllocError>
    ensures { OnOk result (string_bytes line.new ≡ string_bytes line.old ++ (32 ∷ pair_word (texts_of book.now) first between.now second)) }
{
    push_id(line, book, first)?;
    let second = name_text(*line.allocator(), book, second, Colon::Coded)?;
    write!(line, "{between}{second}")
}
