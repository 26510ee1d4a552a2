// The tables of a set: so many rows at most, in order, no two with one key.
ghost use Rattle.std.specs.Prelude.{◌≡◌, ◌≤◌, take, map};
ghost use Rattle.policy_set.specs.Tables.{Once};

use crate::keyed::Keyed;
use refusals::NameNumber;

pub(crate) mod calls;
pub(crate) mod puts;

// The first `used` places hold the rows, and as many places of `keys` their keys: a search reads the keys alone, which
// lie side by side.
// Arrays and a count, since finding and moving last are written over slices, in `keyed`.
#[derive(Drop)]
pub(crate) struct Table<R: Keyed + Drop, const PLACES: usize> {
    rows: [R; PLACES],
    keys: [NameNumber; PLACES],
    used: usize,
    ghost room: { used ≤ PLACES },
    ghost once: { Once R.naming (take used rows) },
    ghost beside: { take used keys ≡ map R.naming (take used rows) },
}
