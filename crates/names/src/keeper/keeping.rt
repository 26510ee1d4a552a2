ghost use Rattle.std.specs.Prelude.{◌≡◌, ◌<◌, ◌≤◌, true, [], ◌∷◌, ◌++◌, length, IfOk, vec_len, slice_index_or};
ghost use Rattle.std.specs.List.{slice_get};
ghost use Rattle.std.specs.Option.{option_map};
ghost use Rattle.names.specs.Pieces.{start_of};
ghost use Rattle.names.specs.Kept.{kept, limits_of};
ghost use Rattle.names.specs.Names.{room_for, enter_answer, with_entered};

use crate::keeper::Pieces;
use refusals::refusal::Refusal;
use std::alloc::{AllocError, Global};

impl<T: Copy> Pieces<T> {
    // Reserves the memory for so many pieces and items.
    pub fn new(heap: Global, places: usize, room: usize) -> Result<Pieces<T>, AllocError>
        ensures { IfOk result (λ p. (kept p ≡ []) × (limits_of p ≡ record { places = places; room = room })) }
    {
        let items = Vec::with_capacity(heap, room)?;
        let ends = Vec::with_capacity(heap, places)?;
        Ok(Pieces {
            items,
            ends,
            places,
            room,
        })
    }

    // How many pieces there are.
    pub fn count(&self) -> usize
        ensures count { result ≡ length (kept self.now) }
        ensures few { result ≤ (limits_of self.now).places }
    {
        self.ends.len()
    }

    // Where the piece of a number starts.
    fn start(&self, n: usize) -> usize
        requires { n < vec_len self.now.ends }
        ensures { result ≡ start_of 0 self.now.ends.items n }
    {
        if n == 0 { 0 } else { self.ends[n - 1] }
    }

    // The piece of a number below the count, lent from the items.
    pub(crate) fn piece(&self, n: usize) -> &[T]
        requires { n < length (kept self.now) }
        ensures { result.now ≡ slice_index_or (kept self.now) n [] }
    {
        let end = self.ends[n];
        let start = self.start(n);
        &self.items.as_slice()[start..end]
    }

    // The piece of a number, if it is below the count.
    pub fn get(&self, n: usize) -> Option<&[T]>
        ensures { option_map (λ x. x.now) result ≡ slice_get (kept self.now) n }
    {
        if n < self.ends.len() {
            Some(self.piece(n))
        } else {
            None
        }
    }

    // Whether so many pieces more, of so many items together, keep within the limits.
    pub fn has_room_for(&self, pieces: usize, items: usize) -> bool
        ensures { result ≡ room_for (limits_of self.now) (kept self.now) pieces items }
    {
        pieces <= self.places - self.ends.len() && items <= self.room - self.items.len()
    }

    // Puts a piece for which there is room behind the last.
    pub(crate) fn push(&mut self, piece: &[T])
        requires { room_for (limits_of self.old) (kept self.old) 1 (length piece.now) ≡ true }
        ensures kept { kept self.new ≡ kept self.old ++ (piece.now ∷ []) }
        ensures limits { limits_of self.new ≡ limits_of self.old }
    {
        self.items.extend_from_slice(piece).unwrap();
        let end = self.items.len();
        self.ends.push_reserved(end);
    }

    // Puts a piece behind the last, under the next number; refusal 4 where there is no room for it.
    pub fn enter(&mut self, piece: &[T]) -> Result<usize, Refusal>
        ensures answer { result ≡ enter_answer (limits_of self.old) (kept self.old) piece.now }
        ensures kept { kept self.new ≡ with_entered result (kept self.old) piece.now }
        ensures limits { limits_of self.new ≡ limits_of self.old }
    {
        if !self.has_room_for(1, piece.len()) {
            return Err(Refusal::BookFull);
        }
        let number = self.count();
        self.push(piece);
        Ok(number)
    }
}
