// The pairs that a merge hands back.
ghost use Rattle.std.specs.Prelude.{◌≤◌};

use policy_set::rows::Renaming;

pub mod reads;

// No merge has more pairs: each is of an incoming template or policy.
pub const MOST: usize = 320;

// The first `used` places hold the pairs. It is no `ArrayVec`, which is not Copy: callers write `[answer; N]` for their places.
#[derive(Clone, Copy)]
pub struct Pairs {
    pub(crate) rows: [Renaming; MOST],
    pub(crate) used: usize,
    ghost room: { used ≤ 320 },
}
