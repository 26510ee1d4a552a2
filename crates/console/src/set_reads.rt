ghost use Rattle.std.specs.Prelude.{◌≡◌, ℕ, length, IfOk, Option, string_bytes, vec_items};
ghost use Rattle.policy.specs.Arity.{parts};
ghost use Rattle.policy_set.specs.Maps.{changed};
ghost use Rattle.policy_set.specs.Meaning.{maps_of};
ghost use Rattle.policy_set.specs.Listing.{get_linked_policies_answer};
ghost use Rattle.names.specs.Book.{texts as texts_of, limits as limits_of};
ghost use Rattle.console.specs.Answered.{AnswersAs};
ghost use Rattle.console.specs.Dump.{or_none};
ghost use Rattle.console.specs.Listings.{ids_under_answer};
ghost use Rattle.console.specs.Places.{all_places};
ghost use Rattle.console.specs.Reader.{ReadsAs};
ghost use Rattle.console.specs.Args.{left};
ghost use Rattle.console.specs.SetReads.{policies as policies_meant, templates as templates_meant, links as links_meant, filled_line as filled_line_meant, filled as filled_meant, validate as validate_meant, dump as dump_meant, set_read};
ghost use Rattle.console.specs.SetWords.{read_word};

// Lines that read a set.
use crate::args::Args;
use crate::dump::dump;
use crate::reader::Reader;
use crate::stop::Stop;
use calls::call::Side;
use clauses::book::ClauseBook;
use names::kept::NameBook;
use policy::bound::Policy;
use policy_set::set::PolicySet;
use printing::answers::{ids_line, policies_line};
use printing::scopes::push_scope;
use refusals::NameNumber;
use std::alloc::{AllocError, Global};

// No table of a set has more rows.
const MOST_ROWS: usize = 256;

// The first word of a line that reads a set.
#[derive(Clone, Copy)]
pub enum Read {
    Policies,
    StaticPolicies,
    Templates,
    Links,
    Filled,
    Validate,
    Dump,
}

impl Read {
    // What a line's first word reads; none where it reads no set.
    pub(crate) fn of(head: &[u8]) -> Option<Read>
        ensures { result ≡ read_word head.now }
    {
        match head {
            b"policies" => Some(Read::Policies),
            b"static_policies" => Some(Read::StaticPolicies),
            b"templates" => Some(Read::Templates),
            b"links" => Some(Read::Links),
            b"filled" => Some(Read::Filled),
            b"validate" => Some(Read::Validate),
            b"dump" => Some(Read::Dump),
            _ => None,
        }
    }
}

// All that a listing gives, place by place.
pub(crate) fn places<T: Drop, F: Fn(usize) -> Option<T>>(
    heap: Global,
    at: F,
) -> Result<Vec<T>, AllocError>
    requires { F.IsAlwaysCallable at }
    ensures { (f : ℕ → Option _) → ((place : ℕ) (r : _) → F.post at place r → r ≡ f place) → IfOk result (λ list. vec_items list ≡ all_places f) }
{
    let mut list = Vec::new(heap);
    for place in 0..MOST_ROWS {
        let Some(item) = at(place) else {
            break;
        };
        list.push(item)?;
    }
    Ok(list)
}

// The policies under a template.
pub(crate) fn ids_under(
    heap: Global,
    book: &NameBook,
    set: &PolicySet,
    id: NameNumber,
) -> Result<Vec<NameNumber>, Stop>
    ensures { AnswersAs vec_items result (ids_under_answer (length (texts_of book.now)) (maps_of set.now) id) }
{
    // Whether there is such a template is asked once: at the other places the call can't be refused.
    let _ = set.get_linked_policies(id, 0, book)?;
    let at = |place: usize|
        ensures { result ≡ or_none (get_linked_policies_answer (length (texts_of book.entry.now)) (maps_of set.entry.now) id place) }
    { set.get_linked_policies(id, place, book).unwrap_or(None) };
    Ok(places(heap, at)?)
}

// The scopes of a policy with its slots' values: `ok P R`; `none` of no policy.
fn filled_line<B: ClauseBook>(
    heap: Global,
    book: &NameBook,
    clauses: &B,
    found: Option<Policy>,
) -> Result<String, Stop>
    ensures { AnswersAs string_bytes result (filled_line_meant (texts_of book.now) (B.ClauseBook.listed clauses.now) (changed parts found)) }
{
    let Some(policy) = found else {
        return Ok(String::from_str(heap, "none")?);
    };
    let filled = policy.with_filled_slots(book, clauses)?;
    let mut line = String::from_str(heap, "ok")?;
    push_scope(&mut line, book, filled.principal)?;
    push_scope(&mut line, book, filled.resource)?;
    Ok(line)
}

impl Reader {
    // A listing of two ids at each place, to the end of the line: `ok N ID,TEMPLATEID ...`
    fn policies<F: Fn(usize) -> Option<(NameNumber, NameNumber)>>(
        &self,
        args: &mut Args,
        at: F,
    ) -> Result<String, Stop>
        requires { F.IsAlwaysCallable at }
        ensures { (f : ℕ → Option (ℕ × ℕ)) → ((place : ℕ) (r : _) → F.post at place r → r ≡ f place) → ReadsAs string_bytes result (texts_of self.now.book) (policies_meant (texts_of self.now.book) f (left args.old)) }
    {
        args.end()?;
        let ids = places(self.heap, at)?;
        Ok(policies_line(self.heap, &self.book, ids.as_slice())?)
    }

    // `templates SET`: `ok N ID ...`
    fn templates(&self, args: &mut Args, set: &PolicySet) -> Result<String, Stop>
        ensures { ReadsAs string_bytes result (texts_of self.now.book) (templates_meant (texts_of self.now.book) (maps_of set.now) (left args.old)) }
    {
        args.end()?;
        let ids = places(self.heap, |place| set.templates(place))?;
        Ok(ids_line(self.heap, &self.book, ids.as_slice())?)
    }

    // `links SET ID`: `ok N ID ...`
    fn links(&mut self, args: &mut Args, set: &PolicySet) -> Result<String, Stop>
        ensures line { ReadsAs string_bytes result (texts_of self.new.book) (links_meant (limits_of self.old.book) (texts_of self.old.book) (maps_of set.now) (left args.old)) }
        ensures limits { limits_of self.new.book ≡ limits_of self.old.book }
    {
        let id = self.last_id(args)?;
        let ids = ids_under(self.heap, &self.book, set, id)?;
        Ok(ids_line(self.heap, &self.book, ids.as_slice())?)
    }

    // `filled SET ID`: `ok P R`, or `none`
    fn filled<B: ClauseBook>(
        &mut self,
        args: &mut Args,
        set: &PolicySet,
        clauses: &B,
    ) -> Result<String, Stop>
        ensures line { ReadsAs string_bytes result (texts_of self.new.book) (filled_meant (limits_of self.old.book) (texts_of self.old.book) (B.ClauseBook.listed clauses.now) (maps_of set.now) (left args.old)) }
        ensures limits { limits_of self.new.book ≡ limits_of self.old.book }
    {
        let id = self.last_id(args)?;
        let found = set.get(id, &self.book)?;
        filled_line(self.heap, &self.book, clauses, found)
    }

    // `validate SET`: `ok`
    fn validate<B: ClauseBook>(
        &self,
        args: &mut Args,
        set: &PolicySet,
        clauses: &B,
    ) -> Result<String, Stop>
        ensures { ReadsAs string_bytes result (texts_of self.now.book) (validate_meant (texts_of self.now.book) (B.ClauseBook.listed clauses.now) (maps_of set.now) (left args.old)) }
    {
        args.end()?;
        set.try_validate(&self.book, clauses)?;
        Ok(String::from_str(self.heap, "ok")?)
    }

    // `dump SET`: all lines of a set
    fn dump(&self, side: Side, args: &mut Args, set: &PolicySet) -> Result<String, Stop>
        ensures { ReadsAs string_bytes result (texts_of self.now.book) (dump_meant (texts_of self.now.book) side (maps_of set.now) (left args.old)) }
    {
        args.end()?;
        dump(self.heap, &self.book, side, set)
    }

    // Reads one of the sets.
    pub(crate) fn read_set<B: ClauseBook>(
        &mut self,
        read: Read,
        side: Side,
        args: &mut Args,
        set: &PolicySet,
        clauses: &B,
    ) -> Result<String, Stop>
        ensures line { ReadsAs string_bytes result (texts_of self.new.book) (set_read (limits_of self.old.book) (texts_of self.old.book) (B.ClauseBook.listed clauses.now) side (maps_of set.now) read (left args.old)) }
        ensures limits { limits_of self.new.book ≡ limits_of self.old.book }
    {
        match read {
            Read::Policies => self.policies(args, |place| set.policies(place)),
            Read::StaticPolicies => self.policies(args, |place| set.static_policies(place)),
            Read::Templates => self.templates(args, set),
            Read::Links => self.links(args, set),
            Read::Filled => self.filled(args, set, clauses),
            Read::Validate => self.validate(args, set, clauses),
            Read::Dump => self.dump(side, args, set),
        }
    }
}
