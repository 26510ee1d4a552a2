use crate::action::ActionConstraint;
use crate::constraint::{Effect, PrincipalOrResourceConstraint};
use refusals::NameNumber;
use refusals::slots::SlotSet;

// A template in record order. Its clause is a number of a clause book; its slots are to be those of its condition.
#[derive(Clone, Copy)]
pub struct Template {
    pub id: NameNumber,
    pub effect: Effect,
    pub principal: PrincipalOrResourceConstraint,
    pub action: ActionConstraint,
    pub resource: PrincipalOrResourceConstraint,
    pub clause: Option<u16>,
    pub slots: SlotSet,
}
