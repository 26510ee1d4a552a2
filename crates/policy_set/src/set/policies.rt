// Adding policies, which bring their templates along.
ghost use Rattle.std.specs.Prelude.{◌≡◌, length};
ghost use Rattle.clauses.specs.Book.{same_clause};
ghost use Rattle.names.specs.Book.{texts};
ghost use Rattle.policy.specs.Arity.{parts};
ghost use Rattle.policy_set.specs.Answers.{id_of, row_for, other_template, link_fits, rows_fit, add_answer, add_after};
ghost use Rattle.policy_set.specs.Laws.{Addition};
ghost use Rattle.policy_set.specs.Meaning.{maps_of};

use crate::rows::{Member, PolicyRow};
use crate::set::PolicySet;
use crate::set::additions::cached_slots;
use clauses::book::ClauseBook;
use names::kept::NameBook;
use policy::bound::Policy;
use policy::equality::templates_equal;
use policy::known::known_policy;
use policy::template::Template;
use refusals::NameNumber;
use refusals::refusal::{Refusal, Table};

// The id of a policy: its link id, or its template's.
pub(crate) fn id_of(policy: &Policy) -> NameNumber
    ensures { result ≡ id_of (parts policy.now) }
{
    policy.link.unwrap_or(policy.template.id)
}

// The row of a policy.
impl From<&Policy> for PolicyRow {
    ghost from_gives = { λ policy row. row ≡ row_for (parts policy.now) };

    fn from(policy: &Policy) -> PolicyRow {
        PolicyRow {
            id: id_of(policy),
            template: policy.template.id,
            link: policy.link.is_some(),
            values: policy.values,
        }
    }
}

impl PolicySet {
    // Whether an unequal template has the template's id.
    pub(crate) fn has_other_template<B: ClauseBook>(&self, t: &Template, clauses: &B) -> bool
        ensures { result ≡ other_template (same_clause B.ClauseBook.equal (B.ClauseBook.listed clauses.now)) (maps_of self.now) t.now }
    {
        self.template(t.id)
            .is_some_and(|present| !templates_equal(&present, t, clauses))
    }

    // Refusals 25 and 26 of a link.
    fn link_fits(&self, t: &Template, link: Option<NameNumber>) -> Result<(), Refusal>
        ensures { result ≡ link_fits (maps_of self.now) t.now link }
    {
        let Some(id) = link else {
            return Ok(());
        };
        if t.slots.is_empty() {
            return Err(Refusal::Slotless(t.id));
        }
        if id == t.id {
            return Err(Refusal::Crossed(id));
        }
        if !self.has_template(t.id) && self.has_policy(t.id) {
            return Err(Refusal::Crossed(t.id));
        }
        if self.has_template(id) {
            return Err(Refusal::Crossed(id));
        }
        Ok(())
    }

    // Refusals 27 of a policy and its template.
    fn rows_fit(&self, t: &Template) -> Result<(), Refusal>
        ensures { result ≡ rows_fit (maps_of self.now) t.now }
    {
        if !self.has_template(t.id) && !self.templates.has_room() {
            return Err(Refusal::Full(Table::Templates));
        }
        if !self.policies.has_room() {
            return Err(Refusal::Full(Table::Policies));
        }
        Ok(())
    }

    // Whether `add` accepts, or why it does not.
    fn can_add<B: ClauseBook>(
        &self,
        policy: &Policy,
        names: &NameBook,
        clauses: &B,
    ) -> Result<(), Refusal>
        ensures { result ≡ add_answer (length (texts names.now)) (B.ClauseBook.listed clauses.now) (same_clause B.ClauseBook.equal (B.ClauseBook.listed clauses.now)) (maps_of self.now) policy.now }
    {
        known_policy(policy, names.count(), clauses)?;
        cached_slots(&policy.template, clauses)?;
        if self.has_other_template(&policy.template, clauses) {
            return Err(Refusal::Occupied(policy.template.id));
        }
        let id = id_of(policy);
        if self.has_policy(id) {
            return Err(Refusal::Occupied(id));
        }
        self.link_fits(&policy.template, policy.link)?;
        self.rows_fit(&policy.template)
    }

    // Adds a policy, a static one or a link, and its template where that is new.
    pub fn add<B: ClauseBook>(
        &mut self,
        policy: Policy,
        names: &NameBook,
        clauses: &B,
    ) -> Result<(), Refusal>
        ensures answer { result ≡ add_answer (length (texts names.now)) (B.ClauseBook.listed clauses.now) (same_clause B.ClauseBook.equal (B.ClauseBook.listed clauses.now)) (maps_of self.old) policy }
        ensures after { maps_of self.new ≡ add_after (length (texts names.now)) (B.ClauseBook.listed clauses.now) (same_clause B.ClauseBook.equal (B.ClauseBook.listed clauses.now)) (maps_of self.old) policy }
        ensures law { Addition (same_clause B.ClauseBook.equal (B.ClauseBook.listed clauses.now)) (maps_of self.old) (maps_of self.new) (parts policy) result }
    {
        self.can_add(&policy, names, clauses)?;
        let row = PolicyRow::from(&policy);
        self.templates.or_insert(policy.template);
        // The two pushes are written out, as in `add_static`.
        self.policies.push(row);
        self.members.push(Member {
            policy: row.id,
            template: row.template,
        });
        Ok(())
    }
}
