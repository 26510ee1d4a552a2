ghost use Rattle.std.specs.Prelude.{◌≡◌, true, length, IfOk};
ghost use Rattle.names.specs.Book.{texts};
ghost use Rattle.policy.specs.Filled.{scopes_within};
ghost use Rattle.policy.specs.Making.{MakesAction, types_kept, reference_types, scope_types, entities_types, template_types, template_kept, Makes, TypeNamesDecided};
ghost use Rattle.policy.specs.Listing.{Lists};

use crate::action::{ActionConstraint, ActionList};
use crate::condition_slots::slots_of;
use crate::constraint::{Effect, EntityReference, PrincipalOrResourceConstraint};
use crate::known::known_template;
use crate::scope::ActionScope;
use crate::template::Template;
use clauses::book::ClauseBook;
use clauses::naming::check_type;
use names::entity::EntityUID;
use names::kept::NameBook;
use refusals::NameNumber;
use refusals::refusal::Refusal;

const MOST: usize = 8;

const NO_ENTITY: EntityUID = EntityUID { ty: 0, eid: 0 };

// The list of some entities, at most eight.
impl TryFrom<&[EntityUID]> for ActionList {
    type Error = Refusal;

    ghost try_from_gives = { Lists };

    fn try_from(entities: &[EntityUID]) -> Result<ActionList, Refusal> {
        let count = entities.len();
        if count > MOST {
            return Err(Refusal::TooManyActions(count));
        }
        let mut items = [NO_ENTITY; 8];
        items[0..count].copy_from_slice(entities);
        Ok(ActionList {
            items,
            count: count as u8,
        })
    }
}

// The scope with a list of its own. A function and no `TryFrom`: making a template is the one that asks for it.
fn action_of(action: ActionScope<'_>) -> Result<ActionConstraint, Refusal>
    ensures { MakesAction action.entry result }
{
    match action {
        ActionScope::Any => Ok(ActionConstraint::Any),
        ActionScope::In(entities) => Ok(ActionConstraint::In(ActionList::try_from(entities)?)),
        ActionScope::Eq(e) => Ok(ActionConstraint::Eq(e)),
    }
}

// Refusal 5 of the type of the entity that a scope refers to.
// One walk with these and the `known_..` functions is no plainer: each visits other names, by its own list of them.
fn kept_reference(names: &NameBook, r: EntityReference) -> Result<(), Refusal>
    ensures { result ≡ types_kept (texts names.now) (reference_types r) }
{
    match r {
        EntityReference::EUID(e) => check_type(names, e.ty),
        EntityReference::Slot => Ok(()),
    }
}

// Refusal 5 of the type of `is`, then of the type of the entity that the scope refers to.
fn kept_scope(names: &NameBook, s: PrincipalOrResourceConstraint) -> Result<(), Refusal>
    ensures { result ≡ types_kept (texts names.now) (scope_types s) }
{
    if let Some(t) = s.ty() {
        check_type(names, t)?;
    }
    s.reference().map_or(Ok(()), |r| kept_reference(names, r))
}

// Refusal 5 of the types of entities, in order.
fn kept_entities(names: &NameBook, list: &[EntityUID]) -> Result<(), Refusal>
    ensures { result ≡ types_kept (texts names.now) (entities_types list.now) }
{
    for e in list {
        check_type(names, e.ty)?;
    }
    Ok(())
}

// Refusal 5 of the types of a template, in record order.
fn kept_types(names: &NameBook, t: &Template) -> Result<(), Refusal>
    ensures { result ≡ types_kept (texts names.now) (template_types t.now) }
{
    kept_scope(names, t.principal)?;
    kept_entities(names, t.action.as_slice())?;
    kept_scope(names, t.resource)
}

// Refusals 1, 2 and 5 of a template; else the template.
fn kept<B: ClauseBook>(t: Template, names: &NameBook, clauses: &B) -> Result<Template, Refusal>
    ensures { result ≡ template_kept (texts names.now) (B.ClauseBook.listed clauses.now) t }
{
    known_template(&t, names.count(), clauses)?;
    kept_types(names, &t)?;
    Ok(t)
}

impl Template {
    // The template of these parts, with the slots of its condition.
    pub fn new<B: ClauseBook>(
        id: NameNumber,
        effect: Effect,
        principal: PrincipalOrResourceConstraint,
        action: ActionScope<'_>,
        resource: PrincipalOrResourceConstraint,
        clause: Option<u16>,
        names: &NameBook,
        clauses: &B,
    ) -> Result<Template, Refusal>
        ensures answer { Makes (texts names.now) (B.ClauseBook.listed clauses.now) id effect principal action.entry resource clause result }
        ensures within { IfOk result (λ t. scopes_within t ≡ true) }
        ensures types { TypeNamesDecided }
    {
        let action = action_of(action)?;
        let slots = slots_of(principal, resource, clause, clauses);
        let template = Template {
            id,
            effect,
            principal,
            action,
            resource,
            clause,
            slots,
        };
        kept(template, names, clauses)
    }
}
