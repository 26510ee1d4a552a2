use names::entity::EntityUID;
use refusals::NameNumber;
use refusals::slots::SlotId;

// A variable of a request.
#[derive(Clone, Copy, PartialEq, Eq, Debug)]
pub enum Var {
    Principal,
    Action,
    Resource,
}

// A node of a clause's tree.
#[derive(Clone, Copy, PartialEq, Eq, Debug)]
pub enum Node {
    Lit(bool),
    Var(Var),
    Slot(SlotId),
    Entity(EntityUID),
    Not,
    And,
    Or,
    Eq,
    In,
    Is(NameNumber),
}
