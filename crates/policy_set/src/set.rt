// Policy sets: what they hold and what they keep.
ghost use Rattle.policy_set.specs.Held.{maps_in};
ghost use Rattle.policy_set.specs.Sound.{NamesOne, Valued, Scoped, SameMembers};

use crate::rows::{Member, PolicyRow};
use crate::tables::Table;
use policy::template::Template;

pub mod additions;
pub mod links;
pub mod listing;
pub mod merging;
pub mod policies;
pub(crate) mod reads;
pub mod removals;
pub mod validate;

// Templates, with the bodies of the static policies among them; all policies, links and static ones; and the members
// of the reverse sets, each a policy under its template. What the four facts and `once` of the tables say together is
// `Sound` of specs/Sound.antt, in words.
#[derive(Drop)]
pub struct PolicySet {
    templates: Table<Template, 64>,
    policies: Table<PolicyRow, 256>,
    members: Table<Member, 256>,
    ghost names_one: { NamesOne (maps_in templates policies members) },
    ghost valued: { Valued (maps_in templates policies members) },
    ghost scoped: { Scoped (maps_in templates policies members) },
    ghost same_members: { SameMembers (maps_in templates policies members) },
}
