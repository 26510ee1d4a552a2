use crate::action::ActionIn;
use names::entity::EntityUID;

// The scope of the action as a template is made from it: its list is the caller's.
pub type ActionScope<'a> = ActionIn<&'a [EntityUID]>;
