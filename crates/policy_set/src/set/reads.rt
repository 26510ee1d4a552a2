// What a set answers about its templates and policies.
ghost use Rattle.std.specs.Prelude.{◌≡◌, not, [], length, is_some};
ghost use Rattle.names.specs.Book.{texts};
ghost use Rattle.policy_set.specs.Maps.{template_at, row_at, bound, changed, in_force};
ghost use Rattle.policy_set.specs.Answers.{empty, is_empty, no_rows, reverse_set, get_answer, get_template_answer};
ghost use Rattle.policy_set.specs.Handed.{parts_found};
ghost use Rattle.policy.specs.Arity.{parts};
ghost use Rattle.policy_set.specs.Meaning.{maps_of};
ghost use Rattle.policy_set.specs.Sound.{Sound};

use crate::rows::{BLANK_MEMBER, BLANK_POLICY, BLANK_TEMPLATE, PolicyRow};
use crate::set::PolicySet;
use crate::tables::Table;
use clauses::naming::check_name;
use names::kept::NameBook;
use policy::bound::Policy;
use policy::template::Template;
use refusals::NameNumber;
use refusals::refusal::Refusal;

impl PolicySet {
    // An empty set.
    pub fn new() -> PolicySet
        ensures { maps_of result ≡ empty }
    {
        PolicySet {
            templates: Table::new(BLANK_TEMPLATE),
            policies: Table::new(BLANK_POLICY),
            members: Table::new(BLANK_MEMBER),
        }
    }

    // Whether there is neither a template nor a policy.
    pub fn is_empty(&self) -> bool
        ensures { result ≡ is_empty (maps_of self.now) }
    {
        self.templates.rows().is_empty() && self.policies.rows().is_empty()
    }

    // The template with an id.
    pub(crate) fn template(&self, id: NameNumber) -> Option<Template>
        ensures { result ≡ template_at (maps_of self.now) id }
    {
        self.templates.get(id)
    }

    // The row of the policy with an id.
    pub(crate) fn row(&self, id: NameNumber) -> Option<PolicyRow>
        ensures { result ≡ row_at (maps_of self.now) id }
    {
        self.policies.get(id)
    }

    // Whether an id is a template's.
    pub(crate) fn has_template(&self, id: NameNumber) -> bool
        ensures { result ≡ is_some (template_at (maps_of self.now) id) }
    {
        self.template(id).is_some()
    }

    // Whether an id is a policy's.
    pub(crate) fn has_policy(&self, id: NameNumber) -> bool
        ensures { result ≡ is_some (row_at (maps_of self.now) id) }
    {
        self.row(id).is_some()
    }

    // Whether an id is a template's or a policy's.
    pub(crate) fn is_bound(&self, id: NameNumber) -> bool
        ensures { result ≡ bound (maps_of self.now) id }
    {
        self.has_template(id) || self.has_policy(id)
    }

    // Whether a template has policies.
    pub(crate) fn has_members(&self, template: NameNumber) -> bool
        ensures { result ≡ not (no_rows (reverse_set template (maps_of self.now))) }
    {
        self.members
            .rows()
            .iter()
            .any(|row| row.template == template)
    }

    // The policy that is in force under an id.
    pub(crate) fn in_force(&self, id: NameNumber) -> Option<Policy>
        ensures { changed parts result ≡ in_force (maps_of self.now) id }
    {
        let row = self.row(id)?;
        let Some(template) = self.template(row.template) else {
            unreachable()
        };
        Some(Policy {
            template,
            link: row.link.then_some(row.id),
            values: row.values,
        })
    }

    // The policy with an id, if there is one. `sound` says what the type of every set keeps.
    pub fn get(&self, id: NameNumber, names: &NameBook) -> Result<Option<Policy>, Refusal>
        ensures answer { parts_found result ≡ get_answer (length (texts names.now)) (maps_of self.now) id }
        ensures sound { Sound (maps_of self.now) }
    {
        check_name(names, id)?;
        Ok(self.in_force(id))
    }

    // The template with an id, if there is one; a static policy's body too.
    pub fn get_template(
        &self,
        id: NameNumber,
        names: &NameBook,
    ) -> Result<Option<Template>, Refusal>
        ensures { result ≡ get_template_answer (length (texts names.now)) (maps_of self.now) id }
    {
        check_name(names, id)?;
        Ok(self.template(id))
    }
}
