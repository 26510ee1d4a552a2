use names::entity::EntityUID;
use refusals::NameNumber;

// Whether a policy allows or denies where it applies.
#[derive(Clone, Copy, PartialEq, Eq, Debug)]
pub enum Effect {
    Permit,
    Forbid,
}

// What a scope refers to: an entity, or the slot of that position.
// An enum of its own: as an `Option` it would not say that `None` is the slot.
#[derive(Clone, Copy, PartialEq, Eq, Debug)]
pub enum EntityReference {
    EUID(EntityUID),
    Slot,
}

// The scope of the principal or of the resource.
#[derive(Clone, Copy, PartialEq, Eq, Debug)]
pub enum PrincipalOrResourceConstraint {
    Any,
    In(EntityReference),
    Eq(EntityReference),
    Is(NameNumber),
    IsIn(NameNumber, EntityReference),
}
