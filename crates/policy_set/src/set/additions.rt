// Adding templates and policies.
ghost use Rattle.std.specs.Prelude.{◌≡◌, length};
ghost use Rattle.names.specs.Book.{texts};
ghost use Rattle.policy_set.specs.Answers.{slots_cached, can_enter_answer, add_template_answer, add_template_after, add_static_answer, add_static_after};
ghost use Rattle.policy_set.specs.Laws.{TemplateAddition, StaticAddition};
ghost use Rattle.policy_set.specs.Meaning.{maps_of};

use crate::rows::{Member, PolicyRow};
use crate::set::PolicySet;
use clauses::book::ClauseBook;
use names::kept::NameBook;
use policy::condition_slots::condition_slots;
use policy::fixed::StaticPolicy;
use policy::known::known_template;
use policy::template::Template;
use policy::values::SlotEnv;
use refusals::refusal::{Refusal, Table};

// Refusal 9 of a template whose slots are not its condition's.
pub(crate) fn cached_slots<B: ClauseBook>(t: &Template, clauses: &B) -> Result<(), Refusal>
    ensures { result ≡ slots_cached (B.ClauseBook.listed clauses.now) t.now }
{
    if t.slots.bits != condition_slots(t, clauses).bits {
        return Err(Refusal::SlotCacheMismatch(t.id));
    }
    Ok(())
}

impl PolicySet {
    // What a template and a static body are refused for alike: refusals 1 and 2, 9 and 10.
    fn can_enter<B: ClauseBook>(
        &self,
        t: &Template,
        names: &NameBook,
        clauses: &B,
    ) -> Result<(), Refusal>
        ensures { result ≡ can_enter_answer (length (texts names.now)) (B.ClauseBook.listed clauses.now) (maps_of self.now) t.now }
    {
        known_template(t, names.count(), clauses)?;
        cached_slots(t, clauses)?;
        if self.is_bound(t.id) {
            return Err(Refusal::Occupied(t.id));
        }
        Ok(())
    }

    // Whether `add_template` accepts, or why it does not.
    fn can_add_template<B: ClauseBook>(
        &self,
        t: &Template,
        names: &NameBook,
        clauses: &B,
    ) -> Result<(), Refusal>
        ensures { result ≡ add_template_answer (length (texts names.now)) (B.ClauseBook.listed clauses.now) (maps_of self.now) t.now }
    {
        self.can_enter(t, names, clauses)?;
        if t.slots.is_empty() {
            return Err(Refusal::Slotless(t.id));
        }
        if !self.templates.has_room() {
            return Err(Refusal::Full(Table::Templates));
        }
        Ok(())
    }

    // Adds a template, which has slots.
    pub fn add_template<B: ClauseBook>(
        &mut self,
        t: Template,
        names: &NameBook,
        clauses: &B,
    ) -> Result<(), Refusal>
        ensures answer { result ≡ add_template_answer (length (texts names.now)) (B.ClauseBook.listed clauses.now) (maps_of self.old) t }
        ensures after { maps_of self.new ≡ add_template_after (length (texts names.now)) (B.ClauseBook.listed clauses.now) (maps_of self.old) t }
        ensures law { TemplateAddition (maps_of self.old) (maps_of self.new) t result }
    {
        self.can_add_template(&t, names, clauses)?;
        self.templates.push(t);
        Ok(())
    }

    // Whether `add_static` accepts, or why it does not.
    fn can_add_static<B: ClauseBook>(
        &self,
        t: &Template,
        names: &NameBook,
        clauses: &B,
    ) -> Result<(), Refusal>
        ensures { result ≡ add_static_answer (length (texts names.now)) (B.ClauseBook.listed clauses.now) (maps_of self.now) t.now }
    {
        self.can_enter(t, names, clauses)?;
        if !self.templates.has_room() {
            return Err(Refusal::Full(Table::Templates));
        }
        if !self.policies.has_room() {
            return Err(Refusal::Full(Table::Policies));
        }
        Ok(())
    }

    // Adds a static policy.
    pub fn add_static<B: ClauseBook>(
        &mut self,
        policy: StaticPolicy,
        names: &NameBook,
        clauses: &B,
    ) -> Result<(), Refusal>
        ensures answer { result ≡ add_static_answer (length (texts names.now)) (B.ClauseBook.listed clauses.now) (maps_of self.old) policy.body }
        ensures after { maps_of self.new ≡ add_static_after (length (texts names.now)) (B.ClauseBook.listed clauses.now) (maps_of self.old) policy.body }
        ensures law { StaticAddition (maps_of self.old) (maps_of self.new) policy.body result }
    {
        self.can_add_static(&policy.body, names, clauses)?;
        let id = policy.body.id;
        let values = SlotEnv {
            principal: None,
            resource: None,
        };
        self.templates.push(policy.body);
        // A method for the next two pushes would owe the set's invariant here, where the template has no policy yet.
        self.policies.push(PolicyRow {
            id,
            template: id,
            link: false,
            values,
        });
        self.members.push(Member {
            policy: id,
            template: id,
        });
        Ok(())
    }
}
