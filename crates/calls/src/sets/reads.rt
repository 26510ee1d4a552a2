// Two empty sets, and one of the sets to be read.
ghost use Rattle.std.specs.Prelude.{◌≡◌};
ghost use Rattle.names.specs.Book.{texts as texts_of};
ghost use Rattle.names.specs.declared.kept.NameBook.{NameBook};
ghost use Rattle.policy_set.specs.Meaning.{maps_of};
ghost use Rattle.calls.specs.Model.{empty_sets};
ghost use Rattle.calls.specs.Meaning.{state_of, set_at};

use crate::call::Side;
use crate::sets::Sets;
use policy_set::set::PolicySet;

impl Sets {
    // Two empty sets.
    pub fn new() -> Sets
        ensures { (names : NameBook) → state_of result names ≡ empty_sets (texts_of names) }
    {
        Sets {
            a: PolicySet::new(),
            b: PolicySet::new(),
        }
    }

    // One of the sets, to be read.
    pub fn set(&self, side: Side) -> &PolicySet
        ensures { maps_of result.now ≡ maps_of (set_at side self.now) }
    {
        match side {
            Side::A => &self.a,
            Side::B => &self.b,
        }
    }
}
