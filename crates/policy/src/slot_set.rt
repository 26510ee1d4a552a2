ghost use Rattle.std.specs.Prelude.{◌≡◌};
ghost use Rattle.policy.specs.Slots.{slots_where, bound};
ghost use Rattle.policy.specs.Binding.{value_bit};
ghost use Rattle.refusals.specs.Refusals.{slot_bit};

use crate::values::SlotEnv;
use names::entity::EntityUID;
use refusals::slots::{SlotId, SlotSet};

// The bit of a slot where it has a value.
fn bit_of(value: Option<EntityUID>, slot: SlotId) -> u8
    ensures { result ≡ value_bit (slot_bit slot) value }
{
    value.map_or(0, |_| slot.bit())
}

impl SlotEnv {
    // The slots that have a value.
    pub fn slots(self) -> SlotSet
        ensures { result ≡ slots_where (bound self) }
    {
        SlotSet {
            bits: bit_of(self.principal, SlotId::Principal)
                | bit_of(self.resource, SlotId::Resource),
        }
    }
}
