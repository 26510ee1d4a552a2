ghost use Rattle.std.specs.Prelude.{◌≡◌, ◌-◌, ◌≤◌, true, length, drop};
ghost use Rattle.policy.specs.Padding.{blank};

use names::entity::EntityUID;

// At most eight entities. The places past the count are blank, so that equal lists are equal records.
// An array and its count: templates are `Copy`, and an `ArrayVec` is not.
#[derive(Clone, Copy, PartialEq, Eq, Debug)]
pub struct ActionList {
    pub items: [EntityUID; 8],
    pub count: u8,
    ghost whole: { length items ≡ 8 },
    ghost few: { count ≤ 8 },
    ghost padded: { blank (drop count items) ≡ true },
}

// The scope of the action, where `L` is the list of `in`.
#[derive(Clone, Copy, PartialEq, Eq, Debug, Drop)]
pub enum ActionIn<L> {
    Any,
    In(L),
    Eq(EntityUID),
}

// The scope of a template's action.
pub type ActionConstraint = ActionIn<ActionList>;
