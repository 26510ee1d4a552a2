use crate::NameNumber;
use crate::slots::{SlotId, SlotSet};

// A table of a policy set that can be full.
#[derive(Clone, Copy, PartialEq, Eq, Debug)]
pub enum Table {
    Templates,
    Policies,
}

// What a template is refused for when a set is validated.
#[derive(Clone, Copy, PartialEq, Eq, Debug)]
pub enum TemplateValidationError {
    // The clause has this slot.
    SlotsInConditionClause(SlotId),
    // Bit k is set where action k is not of type `Action`.
    InvalidActionType(u8),
}

// A template's fault beside the template's id.
#[derive(Clone, Copy, PartialEq, Eq, Debug)]
pub struct InvalidTemplate {
    pub id: NameNumber,
    pub fault: TemplateValidationError,
}

// Refusal 1 on its own, for a call that lends and can be refused for nothing else.
#[derive(Clone, Copy, PartialEq, Eq, Debug)]
pub struct UnknownName {
    pub number: NameNumber,
}

// Why a call was refused. The names are those of the Rust where it has one.
#[derive(Clone, Copy, PartialEq, Eq, Debug)]
pub enum Refusal {
    UnknownName(NameNumber),
    UnknownClause(u16),
    TooLong(usize),
    BookFull,
    BadTypeName(NameNumber),
    TooManyActions(usize),
    BadClause(usize),
    UnexpectedSlot(SlotId),
    SlotCacheMismatch(NameNumber),
    Occupied(NameNumber),
    NoSuchTemplate(NameNumber),
    ArityError(SlotSet, SlotSet),
    PolicyIdConflict(NameNumber),
    NotLinkError(NameNumber),
    UnlinkingError(NameNumber),
    RemovePolicyNoLinkError(NameNumber),
    RemovePolicyNoTemplateError(NameNumber),
    NotTemplateError(NameNumber),
    // The Rust has a second `RemovePolicyNoTemplateError`, of removing a template.
    RemoveTemplateNoTemplateError(NameNumber),
    RemoveTemplateWithLinksError(NameNumber),
    MissingTemplate(NameNumber),
    // A template's fault, carried whole: refusals 22 and 23.
    InvalidTemplate(InvalidTemplate),
    ShortBuffer(usize),
    Slotless(NameNumber),
    Crossed(NameNumber),
    Full(Table),
}
