ghost use Rattle.std.specs.Prelude.{◌≡◌, length, map, OnOk, string_bytes};
ghost use Rattle.names.specs.Book.{texts as texts_of};
ghost use Rattle.policy.specs.Known.{in_turn, names_known};
ghost use Rattle.policy_set.specs.Listing.{first_id};
ghost use Rattle.policy_set.specs.Meaning.{maps_of};
ghost use Rattle.console.specs.Answered.{AnswersAs};
ghost use Rattle.console.specs.Dump.{with_reverse, with_reverses, with_templates, with_policies, dump_answer};
ghost use Rattle.console.specs.Listings.{is_template};

// What a set holds, line by line.
use crate::set_reads::{ids_under, places};
use crate::stop::Stop;
use calls::call::Side;
use names::kept::NameBook;
use policy_set::set::PolicySet;
use printing::answers::side_word;
use printing::print::{push_id, push_number};
use printing::records::{push_policy, push_template};
use refusals::NameNumber;
use std::alloc::{AllocError, Global};
use std::fmt::Write;

// Puts a `template` line for each of some templates behind a text.
fn push_templates(
    text: &mut String,
    book: &NameBook,
    set: &PolicySet,
    ids: &[NameNumber],
) -> Result<(), Stop>
    ensures known { AnswersAs (λ u. u) result (names_known (length (texts_of book.now)) ids.now) }
    ensures lines { OnOk result (string_bytes text.new ≡ with_templates (texts_of book.now) (maps_of set.now) (string_bytes text.old) ids.now) }
{
    for id in ids {
        if let Some(t) = set.get_template(*id, book)? {
            write!(text, "\ntemplate")?;
            push_template(text, book, &t)?;
        }
    }
    Ok(())
}

// Puts a `policy` line for each of some policies behind a text; of the ids, the first is the policy's.
fn push_policies(
    text: &mut String,
    book: &NameBook,
    set: &PolicySet,
    ids: &[(NameNumber, NameNumber)],
) -> Result<(), Stop>
    ensures known { AnswersAs (λ u. u) result (names_known (length (texts_of book.now)) (map first_id ids.now)) }
    ensures lines { OnOk result (string_bytes text.new ≡ with_policies (texts_of book.now) (maps_of set.now) (string_bytes text.old) ids.now) }
{
    for (id, _) in ids {
        if let Some(policy) = set.get(*id, book)? {
            write!(text, "\npolicy")?;
            push_policy(text, book, &policy)?;
        }
    }
    Ok(())
}

// Puts the `reverse` line of a template behind a text.
fn push_members(
    text: &mut String,
    book: &NameBook,
    id: NameNumber,
    members: &[NameNumber],
) -> Result<(), AllocError>
    ensures { OnOk result (string_bytes text.new ≡ with_reverse (texts_of book.now) (string_bytes text.old) id members.now) }
{
    write!(text, "\nreverse")?;
    push_id(text, book, id)?;
    push_number(text, members.len())?;
    for member in members {
        push_id(text, book, *member)?;
    }
    Ok(())
}

// Puts a `reverse` line for each of some templates behind a text.
fn push_reverse(
    text: &mut String,
    book: &NameBook,
    set: &PolicySet,
    ids: &[NameNumber],
) -> Result<(), Stop>
    ensures known { AnswersAs (λ u. u) result (in_turn (is_template (length (texts_of book.now)) (maps_of set.now)) ids.now) }
    ensures lines { OnOk result (string_bytes text.new ≡ with_reverses (texts_of book.now) (maps_of set.now) (string_bytes text.old) ids.now) }
{
    for id in ids {
        let members = ids_under(*text.allocator(), book, set, *id)?;
        push_members(text, book, *id, members.as_slice())?;
    }
    Ok(())
}

// The lines of a set, without the last line feed.
pub(crate) fn dump(
    heap: Global,
    book: &NameBook,
    side: Side,
    set: &PolicySet,
) -> Result<String, Stop>
    ensures { AnswersAs string_bytes result (dump_answer (texts_of book.now) side (maps_of set.now)) }
{
    let templates = places(heap, |place| set.all_templates(place))?;
    let policies = places(heap, |place| set.policies(place))?;
    let word = side_word(side);
    let mut text = format!(in heap; "dump {word}")?;
    push_number(&mut text, templates.len())?;
    push_number(&mut text, policies.len())?;
    push_templates(&mut text, book, set, templates.as_slice())?;
    push_policies(&mut text, book, set, policies.as_slice())?;
    push_reverse(&mut text, book, set, templates.as_slice())?;
    Ok(text)
}
