ghost use Rattle.std.specs.Prelude.{◌≡◌, ◌*◌, ◌≤◌, length};
ghost use Rattle.names.specs.Kept.{kept, limits_of};
ghost use Rattle.names.specs.Names.{bytes_in};

use names::keeper::Pieces;

// A book of at most 256 contents of at most LONGEST items each. All its memory is reserved when it is made.
#[derive(Drop)]
pub struct ContentBook<T, const LONGEST: u16> {
    contents: Pieces<T>,
    ghost places: { (limits_of contents).places ≡ 256 },
    ghost room: { (limits_of contents).room ≡ 256 * LONGEST },
    ghost short: { bytes_in (kept contents) ≤ length (kept contents) * LONGEST },
}

mod entries;
