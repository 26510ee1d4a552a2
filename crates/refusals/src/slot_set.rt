ghost use Rattle.std.specs.Prelude.{◌≡◌, ◌==◌, false, bit_or};
ghost use Rattle.refusals.specs.Refusals.{slot_bit};
ghost use Rattle.refusals.specs.Slots.{has as has_slot, union as either_has, minus as first_only, slots_where, slot_equal, first_slot};

use crate::slots::{SlotId, SlotSet};

const BOTH: u8 = 3;

impl SlotSet {
    // No slot.
    pub fn empty() -> SlotSet
        ensures { result ≡ slots_where (λ _. false) }
    {
        SlotSet { bits: 0 }
    }

    // One slot.
    pub fn single(slot: SlotId) -> SlotSet
        ensures set { result ≡ slots_where (λ other. slot_equal other slot) }
        ensures bit { result.bits ≡ slot_bit slot }
    {
        SlotSet { bits: slot.bit() }
    }

    // The slots of either set.
    pub fn union(self, other: SlotSet) -> SlotSet
        ensures set { result ≡ either_has self other }
        ensures bits { result.bits ≡ bit_or self.bits other.bits }
    {
        SlotSet {
            bits: self.bits | other.bits,
        }
    }

    // The slots of this set that the other has not.
    pub fn minus(self, other: SlotSet) -> SlotSet
        ensures { result ≡ first_only self other }
    {
        SlotSet {
            bits: self.bits & (other.bits ^ BOTH),
        }
    }

    // Whether a slot is in the set.
    pub fn has(self, slot: SlotId) -> bool
        ensures { result ≡ has_slot slot self }
    {
        self.bits & slot.bit() != 0
    }

    // Whether no slot is in the set.
    pub fn is_empty(self) -> bool
        ensures { result ≡ (self.bits == 0) }
    {
        self.bits == 0
    }

    // The first slot of the set, the principal's before the resource's.
    pub fn first(self) -> Option<SlotId>
        ensures { result ≡ first_slot self }
    {
        if self.has(SlotId::Principal) {
            Some(SlotId::Principal)
        } else if self.has(SlotId::Resource) {
            Some(SlotId::Resource)
        } else {
            None
        }
    }
}
