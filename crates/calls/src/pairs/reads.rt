// Reading pairs.
ghost use Rattle.std.specs.Prelude.{◌≡◌};
ghost use Rattle.calls.specs.Pairs.{pairs_in};

use crate::pairs::Pairs;
use policy_set::rows::Renaming;

impl Pairs {
    // The pairs, in the order of gathering.
    pub fn as_slice(&self) -> &[Renaming]
        ensures { result.now ≡ pairs_in self.now }
    {
        &self.rows[0..self.used]
    }
}
