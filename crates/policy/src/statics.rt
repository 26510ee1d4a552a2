ghost use Rattle.std.specs.Prelude.{◌≡◌, length};
ghost use Rattle.names.specs.Book.{texts};
ghost use Rattle.policy.specs.Static.{slotless as slotless_of, body_of, static_answer, linked_parts, link_static_answer};

use crate::bound::Policy;
use crate::fixed::StaticPolicy;
use crate::known::known_template;
use crate::template::Template;
use crate::values::SlotEnv;
use clauses::book::ClauseBook;
use names::kept::NameBook;
use refusals::refusal::Refusal;
use refusals::slots::SlotSet;

// Refusal 8 of a slot, the principal's first.
fn slotless(slots: SlotSet) -> Result<(), Refusal>
    ensures { result ≡ slotless_of slots }
{
    match slots.first() {
        Some(slot) => Err(Refusal::UnexpectedSlot(slot)),
        None => Ok(()),
    }
}

impl StaticPolicy {
    // The static policy of a template without slots.
    pub fn new<B: ClauseBook>(
        template: Template,
        names: &NameBook,
        clauses: &B,
    ) -> Result<StaticPolicy, Refusal>
        ensures { body_of result ≡ static_answer (length (texts names.now)) (B.ClauseBook.listed clauses.now) template }
    {
        known_template(&template, names.count(), clauses)?;
        slotless(template.slots)?;
        Ok(StaticPolicy { body: template })
    }
}

impl Template {
    // A static policy as its template and the policy without link id or values.
    pub fn link_static_policy<B: ClauseBook>(
        p: StaticPolicy,
        names: &NameBook,
        clauses: &B,
    ) -> Result<(Template, Policy), Refusal>
        ensures { linked_parts result ≡ link_static_answer (length (texts names.now)) (B.ClauseBook.listed clauses.now) p.body }
    {
        known_template(&p.body, names.count(), clauses)?;
        let policy = Policy {
            template: p.body,
            link: None,
            values: SlotEnv::default(),
        };
        Ok((p.body, policy))
    }
}
