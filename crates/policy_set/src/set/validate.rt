// Validating the templates of a set.
ghost use Rattle.std.specs.Prelude.{◌≡◌, ◌≤◌, length};
ghost use Rattle.names.specs.Book.{texts};
ghost use Rattle.policy_set.specs.Meaning.{maps_of};
ghost use Rattle.policy_set.specs.Validation.{action_typed, mask_from, template_fault, check_answer, try_validate_answer, AcceptsValid};

use crate::set::PolicySet;
use clauses::book::ClauseBook;
use names::entity::EntityUID;
use names::kept::NameBook;
use policy::condition_slots::clause_slots;
use policy::template::Template;
use refusals::refusal::{InvalidTemplate, Refusal, TemplateValidationError};

// Whether the type of an entity is an action type.
fn is_action_typed(e: EntityUID, names: &NameBook) -> bool
    ensures { result ≡ action_typed (texts names.now) e }
{
    names.is_action(e.ty).unwrap_or(false)
}

// Bit k is set where the entity at place k is not of an action type.
fn action_mask(actions: &[EntityUID], names: &NameBook) -> u8
    requires { length actions.now ≤ 8 }
    ensures { result ≡ mask_from (texts names.now) 0 actions.now }
{
    let mut mask = 0;
    for (k, e) in actions.iter().enumerate() {
        if !is_action_typed(*e, names) {
            mask |= 1 << k;
        }
    }
    mask
}

// What a template is refused for: a slot in its clause, then actions that are of no action type.
fn check_template<B: ClauseBook>(
    t: &Template,
    names: &NameBook,
    clauses: &B,
) -> Result<(), InvalidTemplate>
    ensures { result ≡ check_answer t.now.id (template_fault (texts names.now) (B.ClauseBook.listed clauses.now) t.now) }
{
    let id = t.id;
    if let Some(slot) = clause_slots(clauses, t.clause).first() {
        let fault = TemplateValidationError::SlotsInConditionClause(slot);
        return Err(InvalidTemplate { id, fault });
    }
    let mask = action_mask(t.action.as_slice(), names);
    if mask != 0 {
        let fault = TemplateValidationError::InvalidActionType(mask);
        return Err(InvalidTemplate { id, fault });
    }
    Ok(())
}

// The first fault among the templates, in order.
fn check_all<B: ClauseBook>(rows: &[Template], names: &NameBook, clauses: &B) -> Result<(), Refusal>
    ensures { result ≡ try_validate_answer (texts names.now) (B.ClauseBook.listed clauses.now) rows.now }
{
    for t in rows {
        check_template(t, names, clauses)?;
    }
    Ok(())
}

impl PolicySet {
    // Whether every template, static bodies too, has no slot in its clause and actions of action types alone.
    pub fn try_validate<B: ClauseBook>(&self, names: &NameBook, clauses: &B) -> Result<(), Refusal>
        ensures answer { result ≡ try_validate_answer (texts names.now) (B.ClauseBook.listed clauses.now) (maps_of self.now).templates }
        ensures law { AcceptsValid (texts names.now) (B.ClauseBook.listed clauses.now) (maps_of self.now).templates result }
    {
        check_all(self.templates.rows(), names, clauses)
    }
}
