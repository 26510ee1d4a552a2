// Rows under their final ids.
ghost use Rattle.std.specs.Prelude.{◌≡◌, ℕ};
ghost use Rattle.policy_set.specs.Merge.{final, renamed_template, renamed_row, renamed_member};

use crate::keyed::{Keyed, get};
use crate::rows::{Member, PolicyRow, Renaming};
use policy::template::Template;
use refusals::NameNumber;

// The id that an incoming id goes in under.
fn final_id(pairs: &[Renaming], id: NameNumber) -> NameNumber
    ensures { result ≡ final pairs.entry.now id }
{
    get(pairs, id).map_or(id, |pair| pair.new)
}

// A row that can go in under other ids.
pub(crate) trait Renamed: Keyed + Sized {
    // A row under other ids, by a function on ids.
    ghost renamed: { (ℕ → ℕ) → Self → Self };

    // The row under its final ids.
    fn under(&self, pairs: &[Renaming]) -> Self
        ensures { result ≡ renamed (final pairs.entry.now) self.now };
}

impl Renamed for Template {
    ghost renamed = { renamed_template };

    fn under(&self, pairs: &[Renaming]) -> Template {
        Template {
            id: final_id(pairs, self.id),
            ..*self
        }
    }
}

impl Renamed for PolicyRow {
    ghost renamed = { renamed_row };

    fn under(&self, pairs: &[Renaming]) -> PolicyRow {
        let template = final_id(pairs, self.template);
        PolicyRow {
            id: final_id(pairs, self.id),
            template,
            ..*self
        }
    }
}

impl Renamed for Member {
    ghost renamed = { renamed_member };

    fn under(&self, pairs: &[Renaming]) -> Member {
        Member {
            policy: final_id(pairs, self.policy),
            template: final_id(pairs, self.template),
        }
    }
}
