ghost use Rattle.std.specs.Prelude.{◌≡◌, Bool, ◌&&◌};
ghost use Rattle.clauses.specs.Book.{at, slots_of};
ghost use Rattle.policy.specs.Filling.{slotted};
ghost use Rattle.policy.specs.Slots.{slots_where, slot_equal};
ghost use Rattle.policy.specs.Mentions.{clause_has, part_has, condition_slots as slots_in_condition};

use crate::constraint::{EntityReference, PrincipalOrResourceConstraint};
use crate::template::Template;
use clauses::book::ClauseBook;
use refusals::slots::{SlotId, SlotSet};

// Whether the scope refers to its slot.
fn has_slot(s: PrincipalOrResourceConstraint) -> bool
    ensures { result ≡ slotted s }
{
    matches!(s.reference(), Some(EntityReference::Slot))
}

// The slot of a scope, if it refers to it.
fn scope_slots(s: PrincipalOrResourceConstraint, slot: SlotId) -> SlotSet
    ensures { result ≡ slots_where (λ other. slotted s && slot_equal other slot) }
{
    if has_slot(s) {
        SlotSet::single(slot)
    } else {
        SlotSet::empty()
    }
}

// The slots of a clause; none where there is no clause.
pub fn clause_slots<B: ClauseBook>(clauses: &B, clause: Option<u16>) -> SlotSet
    ensures { result ≡ slots_where (λ slot. clause_has (B.ClauseBook.listed clauses.now) clause slot) }
{
    match clause {
        None => SlotSet::empty(),
        Some(n) => clauses.slots(n),
    }
}

// The slots of a condition with these scopes and this clause.
pub fn slots_of<B: ClauseBook>(
    principal: PrincipalOrResourceConstraint,
    resource: PrincipalOrResourceConstraint,
    clause: Option<u16>,
    clauses: &B,
) -> SlotSet
    ensures { result ≡ slots_where (part_has (B.ClauseBook.listed clauses.now) principal resource clause) }
{
    scope_slots(principal, SlotId::Principal)
        .union(scope_slots(resource, SlotId::Resource))
        .union(clause_slots(clauses, clause))
}

// The slots of a template's condition.
pub fn condition_slots<B: ClauseBook>(t: &Template, clauses: &B) -> SlotSet
    ensures { result ≡ slots_in_condition (B.ClauseBook.listed clauses.now) t.now }
{
    slots_of(t.principal, t.resource, t.clause, clauses)
}
