// Removing links, static policies and templates.
ghost use Rattle.std.specs.Prelude.{◌≡◌, length};
ghost use Rattle.names.specs.Book.{texts};
ghost use Rattle.policy_set.specs.Answers.{unlink_answer, unlink_after, remove_static_answer, remove_static_after, remove_template_answer, remove_template_after};
ghost use Rattle.policy.specs.Arity.{parts_of};
ghost use Rattle.policy_set.specs.Laws.{Removal, TemplateRemoval};
ghost use Rattle.policy_set.specs.Meaning.{maps_of};

use crate::set::PolicySet;
use clauses::naming::check_name;
use names::kept::NameBook;
use policy::bound::Policy;
use policy::template::Template;
use refusals::NameNumber;
use refusals::refusal::Refusal;

impl PolicySet {
    // The link that `unlink` removes, or why there is none.
    fn removable_link(&self, id: NameNumber, names: &NameBook) -> Result<Policy, Refusal>
        ensures { parts_of result ≡ unlink_answer (length (texts names.now)) (maps_of self.now) id }
    {
        check_name(names, id)?;
        if self.has_template(id) {
            return Err(Refusal::NotLinkError(id));
        }
        self.in_force(id).ok_or(Refusal::UnlinkingError(id))
    }

    // Removes a link; the policy that it was.
    pub fn unlink(&mut self, id: NameNumber, names: &NameBook) -> Result<Policy, Refusal>
        ensures answer { parts_of result ≡ unlink_answer (length (texts names.now)) (maps_of self.old) id }
        ensures after { maps_of self.new ≡ unlink_after (length (texts names.now)) (maps_of self.old) id }
        ensures law { Removal (maps_of self.old) (maps_of self.new) id (parts_of result) }
    {
        let policy = self.removable_link(id, names)?;
        self.policies.remove(id);
        self.members.remove(id);
        Ok(policy)
    }

    // Removes a static policy; the policy that it was.
    pub fn remove_static(&mut self, id: NameNumber, names: &NameBook) -> Result<Policy, Refusal>
        ensures answer { parts_of result ≡ remove_static_answer (length (texts names.now)) (maps_of self.old) id }
        ensures after { maps_of self.new ≡ remove_static_after (length (texts names.now)) (maps_of self.old) id }
        ensures law { Removal (maps_of self.old) (maps_of self.new) id (parts_of result) }
    {
        check_name(names, id)?;
        let Some(policy) = self.in_force(id) else {
            return Err(Refusal::RemovePolicyNoLinkError(id));
        };
        if !self.has_template(id) {
            self.policies.move_last(id);
            return Err(Refusal::RemovePolicyNoTemplateError(id));
        }
        self.templates.remove(id);
        self.policies.remove(id);
        self.members.remove(id);
        Ok(policy)
    }

    // The template that `remove_template` removes, or why there is none.
    fn removable_template(&self, id: NameNumber, names: &NameBook) -> Result<Template, Refusal>
        ensures { result ≡ remove_template_answer (length (texts names.now)) (maps_of self.now) id }
    {
        check_name(names, id)?;
        if self.has_policy(id) {
            return Err(Refusal::NotTemplateError(id));
        }
        let found = self.template(id);
        let template = found.ok_or(Refusal::RemoveTemplateNoTemplateError(id))?;
        if self.has_members(id) {
            return Err(Refusal::RemoveTemplateWithLinksError(id));
        }
        Ok(template)
    }

    // Removes a template that has no policies; the template that it was.
    pub fn remove_template(&mut self, id: NameNumber, names: &NameBook) -> Result<Template, Refusal>
        ensures answer { result ≡ remove_template_answer (length (texts names.now)) (maps_of self.old) id }
        ensures after { maps_of self.new ≡ remove_template_after (length (texts names.now)) (maps_of self.old) id }
        ensures law { TemplateRemoval (maps_of self.old) (maps_of self.new) id result }
    {
        let template = self.removable_template(id, names)?;
        self.templates.remove(id);
        Ok(template)
    }
}
