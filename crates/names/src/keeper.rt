ghost use Rattle.std.specs.Prelude.{◌≡◌, ◌≤◌, true, length, vec_len, vec_capacity};
ghost use Rattle.names.specs.Pieces.{rising as rises};

// Lists kept end to end, with where each ends: so many lists at most, of so many items together. The memory is reserved when it is made.
// Two vectors and not a vector of vectors: all memory is reserved when it is made, so that a piece with room for it always enters.
#[derive(Drop)]
pub struct Pieces<T> {
    items: Vec<T>,
    ends: Vec<usize>,
    places: usize,
    room: usize,
    ghost rising: { rises 0 ends.items (length items.items) ≡ true },
    ghost few: { vec_len ends ≤ places },
    ghost short: { vec_len items ≤ room },
    ghost places_reserved: { places ≤ vec_capacity ends },
    ghost room_reserved: { room ≤ vec_capacity items },
}

mod keeping;
