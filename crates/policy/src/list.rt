ghost use Rattle.std.specs.Prelude.{◌≡◌};
ghost use Rattle.policy.specs.Scopes.{listed, actions_of};

use crate::action::{ActionConstraint, ActionIn, ActionList};
use names::entity::EntityUID;
use std::slice;

impl ActionList {
    // The entities of the list.
    pub fn as_slice(&self) -> &[EntityUID]
        ensures { result.now ≡ listed self.now }
    {
        &self.items[0..self.count as usize]
    }
}

impl ActionIn<ActionList> {
    // The entities of the action's scope.
    pub fn as_slice(&self) -> &[EntityUID]
        ensures { result.now ≡ actions_of self.now }
    {
        match self {
            ActionConstraint::Any => &[],
            ActionConstraint::In(list) => list.as_slice(),
            ActionConstraint::Eq(e) => slice::from_ref(e),
        }
    }
}
