ghost use Rattle.std.specs.Prelude.{◌≡◌};

use crate::template::Template;

// A template without slots.
#[derive(Clone, Copy)]
pub struct StaticPolicy {
    pub body: Template,
    ghost slotless: { body.slots.bits ≡ 0 },
}
