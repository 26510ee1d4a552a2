ghost use Rattle.std.specs.Prelude.{◌≡◌, true};
ghost use Rattle.policy.specs.Binding.{value_slots, static_unbound};

use crate::template::Template;
use crate::values::SlotEnv;
use refusals::NameNumber;

// A template, a link id if it is a link, and values. The values are exactly those of the template's slots, and
// without a link id there is neither.
#[derive(Clone, Copy)]
pub struct Policy {
    pub template: Template,
    pub link: Option<NameNumber>,
    pub values: SlotEnv,
    ghost exact: { value_slots values ≡ template.slots.bits },
    ghost unlinked: { static_unbound link template.slots.bits ≡ true },
}
