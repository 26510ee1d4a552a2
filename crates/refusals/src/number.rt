ghost use Rattle.std.specs.Prelude.{◌≡◌, [], ◌∷◌, None as Absent};
ghost use Rattle.refusals.specs.Refusals.{slot_bit, table_number, fault_number, fault_value, number as the_number, values as the_values};
ghost use Rattle.refusals.specs.Listed.{listed};
ghost use Rattle.refusals.specs.declared.refusal.Refusal.TheVariants.{InvalidTemplate as Carried, UnknownName as Unknown};

use crate::refusal::{InvalidTemplate, Refusal, Table, TemplateValidationError, UnknownName};
use crate::slots::SlotId;

// Each number below is the product's own, written beside its variant, and not the place of the variant in its enum.
impl SlotId {
    // The slot's bit in a slot set.
    pub fn bit(self) -> u8
        ensures { result ≡ slot_bit self }
    {
        match self {
            SlotId::Principal => 1,
            SlotId::Resource => 2,
        }
    }
}

impl Table {
    // The number of the table: templates 0, policies 1.
    pub fn number(self) -> u8
        ensures { result ≡ table_number self }
    {
        match self {
            Table::Templates => 0,
            Table::Policies => 1,
        }
    }
}

impl TemplateValidationError {
    // The number of the fault, 22 or 23.
    pub fn number(self) -> u8
        ensures { result ≡ fault_number self }
    {
        match self {
            TemplateValidationError::SlotsInConditionClause(_) => 22,
            TemplateValidationError::InvalidActionType(_) => 23,
        }
    }

    // The slot's bit, or the mask of the actions.
    pub fn value(self) -> u8
        ensures { result ≡ fault_value self }
    {
        match self {
            TemplateValidationError::SlotsInConditionClause(slot) => slot.bit(),
            TemplateValidationError::InvalidActionType(mask) => mask,
        }
    }
}

// A template's fault becomes the set's fault, which carries it whole.
impl From<InvalidTemplate> for Refusal {
    ghost from_gives = { λ invalid r. r ≡ Carried invalid };

    fn from(invalid: InvalidTemplate) -> Refusal {
        Refusal::InvalidTemplate(invalid)
    }
}

// Refusal 1 among all refusals.
impl From<UnknownName> for Refusal {
    ghost from_gives = { λ unknown r. r ≡ Unknown unknown.number };

    fn from(unknown: UnknownName) -> Refusal {
        Refusal::UnknownName(unknown.number)
    }
}

impl Refusal {
    // The number of the refusal, 1 to 27.
    pub fn number(self) -> u8
        ensures { result ≡ the_number self }
    {
        match self {
            Refusal::UnknownName(_) => 1,
            Refusal::UnknownClause(_) => 2,
            Refusal::TooLong(_) => 3,
            Refusal::BookFull => 4,
            Refusal::BadTypeName(_) => 5,
            Refusal::TooManyActions(_) => 6,
            Refusal::BadClause(_) => 7,
            Refusal::UnexpectedSlot(_) => 8,
            Refusal::SlotCacheMismatch(_) => 9,
            Refusal::Occupied(_) => 10,
            Refusal::NoSuchTemplate(_) => 11,
            Refusal::ArityError(_, _) => 12,
            Refusal::PolicyIdConflict(_) => 13,
            Refusal::NotLinkError(_) => 14,
            Refusal::UnlinkingError(_) => 15,
            Refusal::RemovePolicyNoLinkError(_) => 16,
            Refusal::RemovePolicyNoTemplateError(_) => 17,
            Refusal::NotTemplateError(_) => 18,
            Refusal::RemoveTemplateNoTemplateError(_) => 19,
            Refusal::RemoveTemplateWithLinksError(_) => 20,
            Refusal::MissingTemplate(_) => 21,
            Refusal::InvalidTemplate(invalid) => invalid.fault.number(),
            Refusal::ShortBuffer(_) => 24,
            Refusal::Slotless(_) => 25,
            Refusal::Crossed(_) => 26,
            Refusal::Full(_) => 27,
        }
    }

    // The values of the refusal, in order; a refusal has two at most, and a lone one comes first.
    pub fn values(self) -> (Option<usize>, Option<usize>)
        ensures values { listed result ≡ the_values self }
        ensures front { result.0 ≡ Absent → result.1 ≡ Absent }
    {
        match self {
            Refusal::BookFull => (None, None),
            Refusal::TooLong(n)
            | Refusal::TooManyActions(n)
            | Refusal::BadClause(n)
            | Refusal::ShortBuffer(n) => (Some(n), None),
            Refusal::UnexpectedSlot(slot) => (Some(slot.bit() as usize), None),
            Refusal::ArityError(unbound, extra) => (
                Some(unbound.bits as usize),
                Some(extra.bits as usize),
            ),
            Refusal::InvalidTemplate(invalid) => (
                Some(invalid.id as usize),
                Some(invalid.fault.value() as usize),
            ),
            Refusal::Full(table) => (Some(table.number() as usize), None),
            Refusal::UnknownName(n)
            | Refusal::UnknownClause(n)
            | Refusal::BadTypeName(n)
            | Refusal::SlotCacheMismatch(n)
            | Refusal::Occupied(n)
            | Refusal::NoSuchTemplate(n)
            | Refusal::PolicyIdConflict(n)
            | Refusal::NotLinkError(n)
            | Refusal::UnlinkingError(n)
            | Refusal::RemovePolicyNoLinkError(n)
            | Refusal::RemovePolicyNoTemplateError(n)
            | Refusal::NotTemplateError(n)
            | Refusal::RemoveTemplateNoTemplateError(n)
            | Refusal::RemoveTemplateWithLinksError(n)
            | Refusal::MissingTemplate(n)
            | Refusal::Slotless(n)
            | Refusal::Crossed(n) => (Some(n as usize), None),
        }
    }
}
