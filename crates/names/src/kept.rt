ghost use Rattle.std.specs.Prelude.{◌≡◌, ◌≤◌, true, length, vec_len, vec_capacity};
ghost use Rattle.names.specs.Kept.{kept, limits_of};
ghost use Rattle.names.specs.Names.{distinct as apart};
ghost use Rattle.names.specs.Index.{Indexes};

use crate::index::Index;
use crate::keeper::Pieces;

// Texts by number, of which no two are equal. Its memory is reserved when it is made.
#[derive(Drop)]
pub struct NameBook {
    pub(crate) texts: Pieces<u8>,
    pub(crate) index: Index,
    ghost distinct: { apart (kept texts) ≡ true },
    ghost most_places: { (limits_of texts).places ≤ 1024 },
    ghost most_room: { (limits_of texts).room ≤ 65535 },
    ghost indexed: { Indexes (kept texts) index.last.items index.before.items },
    ghost numbered: { vec_len index.before ≡ length (kept texts) },
    ghost index_reserved: { (limits_of texts).places ≤ vec_capacity index.before },
}
