ghost use Rattle.std.specs.Prelude.{◌≡◌, ◌<◌, length, OnOk, IfSome};
ghost use Rattle.std.specs.Result.{result_ok};
ghost use Rattle.names.specs.Book.{texts as texts_of, limits as limits_of};
ghost use Rattle.script.specs.PartsLent.{lent_parts};
ghost use Rattle.console.specs.Reader.{ReadsInto, name as name_meant, id as id_meant, last_id as last_id_meant, entity as entity_meant, reference as reference_meant, type_in as type_in_meant, scope_read as scope_meant, value as value_meant, values as values_meant, effect_of, clause_of, around_lone_colon as around_meant, lone, lone_from, scope_kind};
ghost use Rattle.console.specs.Args.{side_of, left, rest};

// The words of a line that stand for entities, scopes and values.
use crate::args::Args;
use crate::stop::{Stop, Wrong};
use calls::call::Side;
use names::entity::EntityUID;
use names::kept::NameBook;
use policy::constraint::{Effect, EntityReference, PrincipalOrResourceConstraint};
use policy::values::SlotEnv;
use refusals::NameNumber;
use script::decode::decode;
use script::number::read_number;
use script::parts::split_once;
use std::alloc::Global;

// What stands before the first colon of a scope.
#[derive(Clone, Copy)]
pub enum ScopeKind {
    Eq,
    In,
    Is,
    IsIn,
}

impl ScopeKind {
    // The kind that a word names.
    fn of(word: &[u8]) -> Option<ScopeKind>
        ensures { result ≡ scope_kind word.now }
    {
        match word {
            b"eq" => Some(ScopeKind::Eq),
            b"in" => Some(ScopeKind::In),
            b"is" => Some(ScopeKind::Is),
            b"isin" => Some(ScopeKind::IsIn),
            _ => None,
        }
    }
}

// Reads words; their texts enter the name book as they are read.
// The line's other words stand apart, in `Args`: `nodes` goes through them while the reader enters texts.
#[derive(Drop)]
pub struct Reader {
    pub heap: Global,
    pub book: NameBook,
}

impl Reader {
    // The number of a text, which enters the book.
    pub(crate) fn name(&mut self, word: &[u8]) -> Result<NameNumber, Stop>
        ensures name { ReadsInto result (texts_of self.new.book) (name_meant (limits_of self.old.book) (texts_of self.old.book) word.now) }
        ensures limits { limits_of self.new.book ≡ limits_of self.old.book }
    {
        let text = decode(self.heap, word)?.ok_or(Wrong::BadPercent)?;
        Ok(self.book.name(text.as_slice())?)
    }

    // The id that is the next word.
    pub(crate) fn id(&mut self, args: &mut Args) -> Result<NameNumber, Stop>
        ensures id { ReadsInto result (texts_of self.new.book) (id_meant (limits_of self.old.book) (texts_of self.old.book) (left args.old)) }
        ensures limits { limits_of self.new.book ≡ limits_of self.old.book }
        ensures rest { left args.new ≡ rest (left args.old) }
    {
        self.name(args.word()?)
    }

    // The id that is the last word.
    pub(crate) fn last_id(&mut self, args: &mut Args) -> Result<NameNumber, Stop>
        ensures id { ReadsInto result (texts_of self.new.book) (last_id_meant (limits_of self.old.book) (texts_of self.old.book) (left args.old)) }
        ensures limits { limits_of self.new.book ≡ limits_of self.old.book }
    {
        let id = self.id(args)?;
        args.end()?;
        Ok(id)
    }

    // TYPE/EID
    pub(crate) fn entity(&mut self, word: &[u8]) -> Result<EntityUID, Stop>
        ensures entity { ReadsInto result (texts_of self.new.book) (entity_meant (limits_of self.old.book) (texts_of self.old.book) word.now) }
        ensures limits { limits_of self.new.book ≡ limits_of self.old.book }
    {
        let (ty, eid) = split_once(word, b'/').ok_or(Wrong::BadEntity)?;
        let ty = self.name(ty)?;
        let eid = self.name(eid)?;
        Ok(EntityUID { ty, eid })
    }

    // `?`, or an entity
    fn reference(&mut self, word: &[u8]) -> Result<EntityReference, Stop>
        ensures reference { ReadsInto result (texts_of self.new.book) (reference_meant (limits_of self.old.book) (texts_of self.old.book) word.now) }
        ensures limits { limits_of self.new.book ≡ limits_of self.old.book }
    {
        Ok(match word {
            b"?" => EntityReference::Slot,
            _ => EntityReference::EUID(self.entity(word)?),
        })
    }

    // TYPE:REF, divided at a colon that stands alone
    fn type_in(&mut self, word: &[u8]) -> Result<PrincipalOrResourceConstraint, Stop>
        ensures scope { ReadsInto result (texts_of self.new.book) (type_in_meant (limits_of self.old.book) (texts_of self.old.book) word.now) }
        ensures limits { limits_of self.new.book ≡ limits_of self.old.book }
    {
        let (ty, target) = around_lone_colon(word).ok_or(Wrong::BadScope)?;
        let ty = self.name(ty)?;
        let target = self.reference(target)?;
        Ok(PrincipalOrResourceConstraint::IsIn(ty, target))
    }

    // A principal or resource scope: any, eq:REF, in:REF, is:TYPE, isin:TYPE:REF
    pub(crate) fn scope(&mut self, word: &[u8]) -> Result<PrincipalOrResourceConstraint, Stop>
        ensures scope { ReadsInto result (texts_of self.new.book) (scope_meant (limits_of self.old.book) (texts_of self.old.book) word.now) }
        ensures limits { limits_of self.new.book ≡ limits_of self.old.book }
    {
        if word == b"any".as_slice() {
            return Ok(PrincipalOrResourceConstraint::Any);
        }
        let (kind, rest) = split_once(word, b':').ok_or(Wrong::BadScope)?;
        Ok(match ScopeKind::of(kind).ok_or(Wrong::BadScope)? {
            ScopeKind::Eq => PrincipalOrResourceConstraint::Eq(self.reference(rest)?),
            ScopeKind::In => PrincipalOrResourceConstraint::In(self.reference(rest)?),
            ScopeKind::Is => PrincipalOrResourceConstraint::Is(self.name(rest)?),
            ScopeKind::IsIn => self.type_in(rest)?,
        })
    }

    // `-`, or the entity that a slot is given
    fn value(&mut self, word: &[u8]) -> Result<Option<EntityUID>, Stop>
        ensures value { ReadsInto result (texts_of self.new.book) (value_meant (limits_of self.old.book) (texts_of self.old.book) word.now) }
        ensures limits { limits_of self.new.book ≡ limits_of self.old.book }
    {
        Ok(match word {
            b"-" => None,
            _ => Some(self.entity(word)?),
        })
    }

    // PV RV
    pub(crate) fn values(&mut self, args: &mut Args) -> Result<SlotEnv, Stop>
        ensures values { ReadsInto result (texts_of self.new.book) (values_meant (limits_of self.old.book) (texts_of self.old.book) (left args.old)) }
        ensures limits { limits_of self.new.book ≡ limits_of self.old.book }
        ensures rest { OnOk result (left args.new ≡ rest (rest (left args.old))) }
    {
        let principal = self.value(args.word()?)?;
        let resource = self.value(args.word()?)?;
        Ok(SlotEnv {
            principal,
            resource,
        })
    }
}

// permit or forbid: the words are the console's format and not the library's, so they are no `TryFrom` of `Effect`
pub(crate) fn effect(word: &[u8]) -> Result<Effect, Wrong>
    ensures { result_ok result ≡ effect_of word.now }
{
    match word {
        b"permit" => Ok(Effect::Permit),
        b"forbid" => Ok(Effect::Forbid),
        _ => Err(Wrong::BadEffect),
    }
}

// A or B: the console's format and not the library's, so it is no `TryFrom` of `Side`
pub fn side(word: &[u8]) -> Result<Side, Wrong>
    ensures { result_ok result ≡ side_of word.now }
{
    match word {
        b"A" => Ok(Side::A),
        b"B" => Ok(Side::B),
        _ => Err(Wrong::BadSet),
    }
}

// `-`, or the number of a clause: the console's format and not the library's, so it is no `TryFrom`
pub(crate) fn clause(word: &[u8]) -> Result<Option<u16>, Wrong>
    ensures { result_ok result ≡ clause_of word.now }
{
    if word == b"-".as_slice() {
        return Ok(None);
    }
    let number = read_number(word, u16::MAX as u32).ok_or(Wrong::BadNumber)?;
    Ok(Some(number as u16))
}

// Whether the byte at a place is a colon that has none beside it.
fn is_lone_colon(word: &[u8], i: usize) -> bool
    ensures { result ≡ lone word.now i }
{
    let is_colon = |place: usize| word.get(place) == Some(&b':');
    is_colon(i) && !(i > 0 && is_colon(i - 1)) && !is_colon(i + 1)
}

// The place of the first colon that has none beside it.
fn lone_colon(word: &[u8]) -> Option<usize>
    ensures place { result ≡ lone_from word.now 0 (length word.now) }
    ensures within { IfSome result (λ i. i < length word.now) }
{
    for i in 0..word.len() {
        if is_lone_colon(word, i) {
            return Some(i);
        }
    }
    None
}

// What stands before and after the first colon that has none beside it.
fn around_lone_colon(word: &[u8]) -> Option<(&[u8], &[u8])>
    ensures { lent_parts result ≡ around_meant word.now }
{
    let i = lone_colon(word)?;
    Some((&word[..i], &word[i + 1..]))
}
