ghost use Rattle.std.specs.Prelude.{◌≡◌, ℕ, [], ◌∷◌, ◌++◌};
ghost use Rattle.policy.specs.Known.{optional, entity_names, entities_names, reference_names, scope_names, template_names, values_names, parts_names, policy_names, names_known, clause_known, template_known, policy_known};

use crate::bound::Policy;
use crate::constraint::{EntityReference, PrincipalOrResourceConstraint};
use crate::template::Template;
use crate::values::SlotEnv;
use clauses::book::ClauseBook;
pub use clauses::naming::known_name;
use names::entity::EntityUID;
use refusals::NameNumber;
use refusals::refusal::Refusal;

// Refusal 1 of the type, then of the id.
fn known_entity(count: usize, e: EntityUID) -> Result<(), Refusal>
    ensures { result ≡ names_known count (entity_names e) }
{
    known_name(count, e.ty)?;
    known_name(count, e.eid)
}

// Refusal 1 of the entity that a scope refers to.
fn known_reference(count: usize, r: EntityReference) -> Result<(), Refusal>
    ensures { result ≡ names_known count (reference_names r) }
{
    match r {
        EntityReference::EUID(e) => known_entity(count, e),
        EntityReference::Slot => Ok(()),
    }
}

// Refusal 1 of the type of `is`, then of the entity that the scope refers to.
pub fn known_scope(count: usize, s: PrincipalOrResourceConstraint) -> Result<(), Refusal>
    ensures { result ≡ names_known count (scope_names s) }
{
    if let Some(t) = s.ty() {
        known_name(count, t)?;
    }
    s.reference().map_or(Ok(()), |r| known_reference(count, r))
}

// Refusal 1 of entities, in order.
fn known_entities(count: usize, list: &[EntityUID]) -> Result<(), Refusal>
    ensures { result ≡ names_known count (entities_names list.now) }
{
    for e in list {
        known_entity(count, *e)?;
    }
    Ok(())
}

// Refusal 1 of the names of a template, in record order.
pub fn known_names(count: usize, t: &Template) -> Result<(), Refusal>
    ensures { result ≡ names_known count (template_names t.now) }
{
    known_name(count, t.id)?;
    known_scope(count, t.principal)?;
    known_entities(count, t.action.as_slice())?;
    known_scope(count, t.resource)
}

// Refusal 1 of a value, if there is one.
pub fn known_value(count: usize, value: Option<EntityUID>) -> Result<(), Refusal>
    ensures { result ≡ names_known count (optional entity_names value) }
{
    value.map_or(Ok(()), |e| known_entity(count, e))
}

// Refusal 1 of the principal's value, then of the resource's.
pub fn known_values(count: usize, values: SlotEnv) -> Result<(), Refusal>
    ensures { result ≡ names_known count (values_names values) }
{
    known_value(count, values.principal)?;
    known_value(count, values.resource)
}

// Refusal 1 of a link id, if there is one.
fn known_link(count: usize, link: Option<NameNumber>) -> Result<(), Refusal>
    ensures { result ≡ names_known count (optional (λ n. n ∷ []) link) }
{
    link.map_or(Ok(()), |id| known_name(count, id))
}

// Refusal 1 of the names of a template, of a link id if there is one, and of values.
pub fn known_parts(
    count: usize,
    template: &Template,
    link: Option<NameNumber>,
    values: SlotEnv,
) -> Result<(), Refusal>
    ensures { result ≡ names_known count (parts_names template.now link values) }
{
    known_names(count, template)?;
    known_link(count, link)?;
    known_values(count, values)
}

// Refusal 1 of the names of a policy, in record order.
pub fn known_policy_names(count: usize, p: &Policy) -> Result<(), Refusal>
    ensures { result ≡ names_known count (policy_names p.now) }
{
    known_parts(count, &p.template, p.link, p.values)
}

// Refusal 2 of a clause, if there is one.
pub fn known_clause<B: ClauseBook>(clauses: &B, clause: Option<u16>) -> Result<(), Refusal>
    ensures { result ≡ clause_known (B.ClauseBook.listed clauses.now) clause }
{
    match clause {
        None => Ok(()),
        Some(n) if (n as u32) < clauses.count() => Ok(()),
        Some(n) => Err(Refusal::UnknownClause(n)),
    }
}

// Refusals 1 and 2 of a template, by the count of the name book.
pub fn known_template<B: ClauseBook>(t: &Template, count: usize, clauses: &B) -> Result<(), Refusal>
    ensures { result ≡ template_known count (B.ClauseBook.listed clauses.now) t.now }
{
    known_names(count, t)?;
    known_clause(clauses, t.clause)
}

// Refusals 1 and 2 of a policy, by the count of the name book.
pub fn known_policy<B: ClauseBook>(p: &Policy, count: usize, clauses: &B) -> Result<(), Refusal>
    ensures { result ≡ policy_known count (B.ClauseBook.listed clauses.now) p.now }
{
    known_policy_names(count, p)?;
    known_clause(clauses, p.template.clause)
}
