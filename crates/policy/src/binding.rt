ghost use Rattle.std.specs.Prelude.{◌≡◌, length, Some as Given, None, Ok as Accepted};
ghost use Rattle.names.specs.Book.{texts};
ghost use Rattle.policy.specs.Arity.{bindable as bindable_of, AcceptsExact, parts_of};
ghost use Rattle.policy.specs.Calls.{binding_answer, template_link_answer};
ghost use Rattle.policy.specs.Known.{and_then};

use crate::bound::Policy;
use crate::known::{known_clause, known_parts};
use crate::template::Template;
use crate::values::SlotEnv;
use clauses::book::ClauseBook;
use names::kept::NameBook;
use refusals::NameNumber;
use refusals::refusal::Refusal;
use refusals::slots::SlotSet;

// Refusal 12 unless each slot has a value and each value a slot.
fn bindable(slots: SlotSet, values: SlotEnv) -> Result<(), Refusal>
    ensures { result ≡ bindable_of slots values }
{
    let bound = values.slots();
    let unbound = slots.minus(bound);
    let extra = bound.minus(slots);
    if unbound.is_empty() && extra.is_empty() {
        Ok(())
    } else {
        Err(Refusal::ArityError(unbound, extra))
    }
}

// The link of a template with values for exactly its slots; its names are not tested.
pub fn linked(template: &Template, link: NameNumber, values: SlotEnv) -> Result<Policy, Refusal>
    ensures { parts_of result ≡ and_then (bindable_of template.entry.now.slots values) (Accepted (record { template = template.entry.now; link = Given link; values = values })) }
{
    bindable(template.slots, values)?;
    Ok(Policy {
        template: *template,
        link: Some(link),
        values,
    })
}

impl Template {
    // Refusals 1, of the template, of a link id if there is one and of the values; 2; then 12.
    fn tested_binding<B: ClauseBook>(
        &self,
        link: Option<NameNumber>,
        values: SlotEnv,
        count: usize,
        clauses: &B,
    ) -> Result<(), Refusal>
        ensures { result ≡ binding_answer count (B.ClauseBook.listed clauses.now) self.now link values }
    {
        known_parts(count, self, link, values)?;
        known_clause(clauses, self.clause)?;
        bindable(self.slots, values)
    }

    // Whether the values are for exactly the template's slots.
    pub fn check_binding<B: ClauseBook>(
        &self,
        values: SlotEnv,
        names: &NameBook,
        clauses: &B,
    ) -> Result<(), Refusal>
        ensures answer { result ≡ binding_answer (length (texts names.now)) (B.ClauseBook.listed clauses.now) self.now None values }
        ensures exact { AcceptsExact self.now.slots values }
    {
        self.tested_binding(None, values, names.count(), clauses)
    }

    // The link of the template under a new id, with values for exactly its slots.
    pub fn link<B: ClauseBook>(
        &self,
        new_id: NameNumber,
        values: SlotEnv,
        names: &NameBook,
        clauses: &B,
    ) -> Result<Policy, Refusal>
        ensures { parts_of result ≡ template_link_answer (length (texts names.now)) (B.ClauseBook.listed clauses.now) self.now new_id values }
    {
        self.tested_binding(Some(new_id), values, names.count(), clauses)?;
        linked(self, new_id, values)
    }
}
