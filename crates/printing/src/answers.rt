ghost use Rattle.std.specs.Prelude.{◌≡◌, IfOk, string_bytes, map};
ghost use Rattle.names.specs.Book.{texts as texts_of};
ghost use Rattle.printing.specs.Print.{id_word};
ghost use Rattle.printing.specs.Answers.{side_word, counted_line, policies_line, pairs_line, policy_line, handed_line};

// The lines of accepted calls on sets.
use crate::print::push_id;
use crate::records::{push_fields, push_pair, push_policy, push_template, push_values};
use calls::answer::Handed;
use calls::call::{Call, Side};
use names::kept::NameBook;
use policy::bound::Policy;
use policy_set::rows::Renaming;
use refusals::NameNumber;
use std::alloc::{AllocError, Global};
use std::fmt::Write;

// The word of a set: the console's format and not the library's, so it is no `Display` of `Side`.
pub fn side_word(side: Side) -> &'static str
    ensures { result.now ≡ side_word side }
{
    match side {
        Side::A => "A",
        Side::B => "B",
    }
}

// `ok N ID ...`
pub fn ids_line(heap: Global, book: &NameBook, ids: &[NameNumber]) -> Result<String, AllocError>
    ensures { IfOk result (λ line. string_bytes line ≡ counted_line (map (id_word (texts_of book.now)) ids.now)) }
{
    let count = ids.len();
    let mut line = format!(in heap; "ok {count}")?;
    for id in ids {
        push_id(&mut line, book, *id)?;
    }
    Ok(line)
}

// `ok N ID,TEMPLATEID ...`
pub fn policies_line(
    heap: Global,
    book: &NameBook,
    ids: &[(NameNumber, NameNumber)],
) -> Result<String, AllocError>
    ensures { IfOk result (λ line. string_bytes line ≡ policies_line (texts_of book.now) ids.now) }
{
    let count = ids.len();
    let mut line = format!(in heap; "ok {count}")?;
    for (id, template) in ids {
        push_pair(&mut line, book, *id, ",", *template)?;
    }
    Ok(line)
}

// `ok link ID TEMPLATEID PV RV` of a new link, or `ok policy POLICY FIELDS` of a policy that was taken.
fn policy_line(
    heap: Global,
    book: &NameBook,
    call: Call<'_>,
    p: &Policy,
) -> Result<String, AllocError>
    ensures { IfOk result (λ line. string_bytes line ≡ policy_line (texts_of book.now) call.entry p.now) }
{
    if let Call::Link(_, template, id, _) = call {
        let mut line = String::from_str(heap, "ok link")?;
        push_id(&mut line, book, id)?;
        push_id(&mut line, book, template)?;
        push_values(&mut line, book, p.values)?;
        return Ok(line);
    }
    let mut line = String::from_str(heap, "ok policy")?;
    push_policy(&mut line, book, p)?;
    push_fields(&mut line, book, &p.template)?;
    Ok(line)
}

// `ok N OLD>NEW ...`
fn pairs_line(heap: Global, book: &NameBook, pairs: &[Renaming]) -> Result<String, AllocError>
    ensures { IfOk result (λ line. string_bytes line ≡ pairs_line (texts_of book.now) pairs.now) }
{
    let count = pairs.len();
    let mut line = format!(in heap; "ok {count}")?;
    for pair in pairs {
        push_pair(&mut line, book, pair.old, ">", pair.new)?;
    }
    Ok(line)
}

// The line of an accepted call.
pub fn handed_line(
    heap: Global,
    book: &NameBook,
    call: Call<'_>,
    handed: &Handed,
) -> Result<String, AllocError>
    ensures { IfOk result (λ line. string_bytes line ≡ handed_line (texts_of book.now) call.entry handed.now) }
{
    match handed {
        Handed::Nothing => String::from_str(heap, "ok"),
        Handed::Name(number) => format!(in heap; "name {number}"),
        Handed::Policy(p) => policy_line(heap, book, call, p),
        Handed::Template(t) => {
            let mut line = String::from_str(heap, "ok template")?;
            push_template(&mut line, book, t)?;
            Ok(line)
        }
        Handed::Pairs(pairs) => pairs_line(heap, book, pairs.as_slice()),
    }
}
