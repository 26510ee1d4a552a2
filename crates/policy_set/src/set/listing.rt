// Listings: what stands at a place, counted from 0.
ghost use Rattle.std.specs.Prelude.{◌≡◌, length};
ghost use Rattle.names.specs.Book.{texts};
ghost use Rattle.policy_set.specs.Listing.{both_ids, policies_answer, static_policies_answer, templates_answer, all_templates_answer, linked_at, get_linked_policies_answer, ListsPolicies, ListsStatic, ListsTemplates, ListsAllTemplates, ListsLinked};
ghost use Rattle.policy_set.specs.Meaning.{maps_of};

use crate::rows::PolicyRow;
use crate::set::PolicySet;
use clauses::naming::check_name;
use names::kept::NameBook;
use refusals::NameNumber;
use refusals::refusal::Refusal;

// A policy's id and its template's.
fn both_ids(row: &PolicyRow) -> (NameNumber, NameNumber)
    ensures { result ≡ both_ids row.now }
{
    (row.id, row.template)
}

impl PolicySet {
    // The policy at a place among all policies: its id and its template's.
    pub fn policies(&self, place: usize) -> Option<(NameNumber, NameNumber)>
        ensures answer { result ≡ policies_answer (maps_of self.now) place }
        ensures lists { ListsPolicies (maps_of self.now) }
    {
        self.policies.rows().get(place).map(both_ids)
    }

    // The policy at a place among the static policies: its id and its template's.
    pub fn static_policies(&self, place: usize) -> Option<(NameNumber, NameNumber)>
        ensures answer { result ≡ static_policies_answer (maps_of self.now) place }
        ensures lists { ListsStatic (maps_of self.now) }
    {
        self.policies
            .rows()
            .iter()
            .filter(|row| !row.link)
            .nth(place)
            .map(both_ids)
    }

    // The template at a place among those with slots.
    pub fn templates(&self, place: usize) -> Option<NameNumber>
        ensures answer { result ≡ templates_answer (maps_of self.now) place }
        ensures lists { ListsTemplates (maps_of self.now) }
    {
        self.templates
            .rows()
            .iter()
            .filter(|t| !t.slots.is_empty())
            .nth(place)
            .map(|t| t.id)
    }

    // The template at a place among all, the bodies of static policies among them.
    pub fn all_templates(&self, place: usize) -> Option<NameNumber>
        ensures answer { result ≡ all_templates_answer (maps_of self.now) place }
        ensures lists { ListsAllTemplates (maps_of self.now) }
    {
        self.templates.rows().get(place).map(|t| t.id)
    }

    // The policy at a place among those of a template.
    pub fn get_linked_policies(
        &self,
        id: NameNumber,
        place: usize,
        names: &NameBook,
    ) -> Result<Option<NameNumber>, Refusal>
        ensures answer { result ≡ get_linked_policies_answer (length (texts names.now)) (maps_of self.now) id place }
        ensures lists { ListsLinked (maps_of self.now) id }
    {
        check_name(names, id)?;
        if !self.has_template(id) {
            return Err(Refusal::MissingTemplate(id));
        }
        Ok(self.linked_at(id, place))
    }

    // The policy at a place among the members under a template. The loop is written out: `filter` and `nth` of the library
    // take up to a half more time, and a dump or a listing of links spends most of its own here.
    fn linked_at(&self, template: NameNumber, place: usize) -> Option<NameNumber>
        ensures { result ≡ linked_at (maps_of self.now) template place }
    {
        let mut left = place;
        for row in self.members.rows() {
            if row.template == template {
                if left == 0 {
                    return Some(row.policy);
                }
                left -= 1;
            }
        }
        None
    }
}
