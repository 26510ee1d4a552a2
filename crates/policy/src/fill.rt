ghost use Rattle.std.specs.Prelude.{◌≡◌, length};
ghost use Rattle.names.specs.Book.{texts};
ghost use Rattle.policy.specs.Known.{and_then, names_known, scope_names, entity_names, optional};
ghost use Rattle.policy.specs.Filling.{fill_reference, fill as fill_scope, Fills};
ghost use Rattle.policy.specs.Filled.{filled, FillsPolicy};
ghost use Rattle.policy.specs.Calls.{fill_answer, filled_answer};

use crate::bound::Policy;
use crate::condition_slots::slots_of;
use crate::constraint::{EntityReference, PrincipalOrResourceConstraint};
use crate::known::{known_policy, known_scope, known_value};
use crate::template::Template;
use clauses::book::ClauseBook;
use names::entity::EntityUID;
use names::kept::NameBook;
use refusals::refusal::Refusal;

// The slot's value in place of the slot, if it has one; an entity stays.
fn filled_reference(r: EntityReference, value: Option<EntityUID>) -> EntityReference
    ensures { result ≡ fill_reference value r }
{
    match (r, value) {
        (EntityReference::Slot, Some(e)) => EntityReference::EUID(e),
        _ => r,
    }
}

// The scope with its slot's value in place of the slot.
fn filled_scope(
    s: PrincipalOrResourceConstraint,
    value: Option<EntityUID>,
) -> PrincipalOrResourceConstraint
    ensures { result ≡ fill_scope value s }
{
    match s {
        PrincipalOrResourceConstraint::In(r) => PrincipalOrResourceConstraint::In(filled_reference(
            r, value,
        )),
        PrincipalOrResourceConstraint::Eq(r) => PrincipalOrResourceConstraint::Eq(filled_reference(
            r, value,
        )),
        PrincipalOrResourceConstraint::IsIn(t, r) => PrincipalOrResourceConstraint::IsIn(
            t,
            filled_reference(r, value),
        ),
        _ => s,
    }
}

// Refusal 1 of a scope, then of a value.
fn known_filling(
    count: usize,
    s: PrincipalOrResourceConstraint,
    value: Option<EntityUID>,
) -> Result<(), Refusal>
    ensures { result ≡ and_then (names_known count (scope_names s)) (names_known count (optional entity_names value)) }
{
    known_scope(count, s)?;
    known_value(count, value)
}

impl PrincipalOrResourceConstraint {
    // The scope with its slot's value in place of the slot, where it refers to the slot and the slot has a value.
    pub fn with_filled_slot(
        self,
        value: Option<EntityUID>,
        names: &NameBook,
    ) -> Result<PrincipalOrResourceConstraint, Refusal>
        ensures answer { result ≡ fill_answer (length (texts names.now)) self value }
        ensures laws { Fills value self }
    {
        known_filling(names.count(), self, value)?;
        Ok(filled_scope(self, value))
    }
}

// The template of a policy with its values in its scopes.
fn filled_template<B: ClauseBook>(p: &Policy, clauses: &B) -> Template
    ensures { result ≡ filled (B.ClauseBook.listed clauses.now) p.now }
{
    let principal = filled_scope(p.template.principal, p.values.principal);
    let resource = filled_scope(p.template.resource, p.values.resource);
    let slots = slots_of(principal, resource, p.template.clause, clauses);
    Template {
        principal,
        resource,
        slots,
        ..p.template
    }
}

impl Policy {
    // The policy's template with its values in its scopes.
    pub fn with_filled_slots<B: ClauseBook>(
        &self,
        names: &NameBook,
        clauses: &B,
    ) -> Result<Template, Refusal>
        ensures answer { result ≡ filled_answer (length (texts names.now)) (B.ClauseBook.listed clauses.now) self.now }
        ensures laws { FillsPolicy (B.ClauseBook.listed clauses.now) self.now }
    {
        known_policy(self, names.count(), clauses)?;
        Ok(filled_template(self, clauses))
    }
}
