use names::entity::EntityUID;
use refusals::NameNumber;
use refusals::slots::SlotId;

// A node of a condition. `Set` takes so many operands, `Is` one, `Eq`, `In` and `And` two, and the others none.
#[derive(Clone, Copy, PartialEq, Eq, Default, Debug)]
pub enum ConditionNode {
    Bool(bool),
    Principal,
    Action,
    Resource,
    Slot(SlotId),
    Entity(EntityUID),
    Set(u8),
    Is(NameNumber),
    Eq,
    In,
    // The default only because a vector of fixed capacity fills its unused places with it.
    #[default]
    And,
    Clause(u16),
}
