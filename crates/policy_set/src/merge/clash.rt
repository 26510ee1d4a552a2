// What the four passes of a merge ask of incoming rows.
ghost use Rattle.std.specs.Prelude.{◌≡◌};
ghost use Rattle.clauses.specs.Book.{same_clause};
ghost use Rattle.policy_set.specs.Merge.{unequal_policy, template_on_policy, link_on_template};
ghost use Rattle.policy_set.specs.Meaning.{maps_of};

use crate::merge::both::Both;
use crate::rows::PolicyRow;
use clauses::book::ClauseBook;
use policy::equality::policies_equal;
use policy::template::Template;

impl<'a> Both<'a> {
    // Whether unequal policies are in force under the policy's id.
    pub(crate) fn is_unequal_policy<B: ClauseBook>(&self, row: &PolicyRow, clauses: &B) -> bool
        ensures { result ≡ unequal_policy (same_clause B.ClauseBook.equal (B.ClauseBook.listed clauses.now)) (maps_of self.now.live.now) (maps_of self.now.incoming.now) row.now }
    {
        match (self.live.in_force(row.id), self.incoming.in_force(row.id)) {
            (Some(live), Some(incoming)) => !policies_equal(&live, &incoming, clauses),
            _ => false,
        }
    }

    // Whether the template has slots and a policy is live under its id.
    pub(crate) fn is_template_on_policy(&self, row: &Template) -> bool
        ensures { result ≡ template_on_policy (maps_of self.now.live.now) row.now }
    {
        !row.slots.is_empty() && self.live.has_policy(row.id)
    }

    // Whether the policy is a link and a template is live under its id.
    pub(crate) fn is_link_on_template(&self, row: &PolicyRow) -> bool
        ensures { result ≡ link_on_template (maps_of self.now.live.now) row.now }
    {
        row.link && self.live.has_template(row.id)
    }
}
