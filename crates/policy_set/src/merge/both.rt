// The two sets of a merge.
ghost use Rattle.std.specs.Prelude.{◌≡◌};
ghost use Rattle.policy_set.specs.Choice.{taken_by};
ghost use Rattle.policy_set.specs.Meaning.{maps_of};

use crate::set::PolicySet;
use refusals::NameNumber;

// The set that is merged into, and the one that is merged.
#[derive(Clone, Copy)]
pub(crate) struct Both<'a> {
    pub live: &'a PolicySet,
    pub incoming: &'a PolicySet,
}

impl<'a> Both<'a> {
    // Whether either set binds an id.
    pub(crate) fn is_bound(&self, id: NameNumber) -> bool
        ensures { result ≡ taken_by (maps_of self.now.live.now) (maps_of self.now.incoming.now) id }
    {
        self.live.is_bound(id) || self.incoming.is_bound(id)
    }
}
