ghost use Rattle.std.specs.Prelude.{◌<◌};

// A place in a template's scope that a link fills: `?principal` or `?resource`.
#[derive(Clone, Copy, PartialEq, Eq, Debug)]
pub enum SlotId {
    Principal,
    Resource,
}

// A set of slots as two bits: principal is 1, resource is 2.
#[derive(Clone, Copy, PartialEq, Eq, Debug)]
pub struct SlotSet {
    pub bits: u8,
    ghost two_bits: { bits < 4 },
}
