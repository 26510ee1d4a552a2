// Linking templates.
ghost use Rattle.std.specs.Prelude.{◌≡◌, [], ◌∷◌, length};
ghost use Rattle.names.specs.Book.{texts};
ghost use Rattle.policy.specs.Arity.{parts_of};
ghost use Rattle.policy.specs.Known.{names_known, values_names};
ghost use Rattle.policy_set.specs.Answers.{link_answer, link_after, linked_answer};
ghost use Rattle.policy_set.specs.Laws.{Linking};
ghost use Rattle.policy_set.specs.Meaning.{maps_of};

use crate::rows::{Member, PolicyRow};
use crate::set::PolicySet;
use clauses::naming::check_name;
use names::kept::NameBook;
use policy::binding::linked;
use policy::bound::Policy;
use policy::known::known_values;
use policy::template::Template;
use policy::values::SlotEnv;
use refusals::NameNumber;
use refusals::refusal::{Refusal, Table};

// Refusal 1 of the names that `link` is given.
fn known_link_names(
    names: &NameBook,
    template: NameNumber,
    new: NameNumber,
    values: SlotEnv,
) -> Result<(), Refusal>
    ensures { result ≡ names_known (length (texts names.now)) (template ∷ new ∷ values_names values) }
{
    check_name(names, template)?;
    check_name(names, new)?;
    known_values(names.count(), values)
}

impl PolicySet {
    // The link of a template, or why there is none.
    fn linked(
        &self,
        template: &Template,
        new: NameNumber,
        values: SlotEnv,
    ) -> Result<Policy, Refusal>
        ensures { parts_of result ≡ linked_answer (maps_of self.now) new values template.now }
    {
        let policy = linked(template, new, values)?;
        if self.is_bound(new) {
            return Err(Refusal::PolicyIdConflict(new));
        }
        if template.slots.is_empty() {
            return Err(Refusal::Slotless(template.id));
        }
        if !self.policies.has_room() {
            return Err(Refusal::Full(Table::Policies));
        }
        Ok(policy)
    }

    // The policy that `link` makes, or why it makes none.
    fn new_link(
        &self,
        template_id: NameNumber,
        new_id: NameNumber,
        values: SlotEnv,
        names: &NameBook,
    ) -> Result<Policy, Refusal>
        ensures { parts_of result ≡ link_answer (length (texts names.now)) (maps_of self.now) template_id new_id values }
    {
        known_link_names(names, template_id, new_id, values)?;
        let found = self.template(template_id);
        let template = found.ok_or(Refusal::NoSuchTemplate(template_id))?;
        self.linked(&template, new_id, values)
    }

    // Links a template under a new id; the new policy.
    pub fn link(
        &mut self,
        template_id: NameNumber,
        new_id: NameNumber,
        values: SlotEnv,
        names: &NameBook,
    ) -> Result<Policy, Refusal>
        ensures answer { parts_of result ≡ link_answer (length (texts names.now)) (maps_of self.old) template_id new_id values }
        ensures after { maps_of self.new ≡ link_after (length (texts names.now)) (maps_of self.old) template_id new_id values }
        ensures law { Linking (maps_of self.old) (maps_of self.new) template_id new_id (parts_of result) }
    {
        let policy = self.new_link(template_id, new_id, values, names)?;
        // The two pushes are written out, as in `add_static`.
        self.policies.push(PolicyRow {
            id: new_id,
            template: template_id,
            link: true,
            values,
        });
        self.members.push(Member {
            policy: new_id,
            template: template_id,
        });
        Ok(policy)
    }
}
