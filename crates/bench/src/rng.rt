// The generator of the texts: the same in every run, and in the Rust beside it.
ghost use Rattle.std.specs.Prelude.{◌<◌, ◌≤◌, ◌^◌};

use std::alloc::{AllocError, Global};

// Marsaglia's xorshift with 64 bits.
#[derive(Drop)]
pub struct Rng {
    state: u64,
}

impl Rng {
    pub(crate) fn new(seed: u64) -> Rng {
        Rng { state: seed }
    }

    // A number below `n`.
    pub(crate) fn below(&mut self, n: usize) -> usize
        requires { 0 < n }
        ensures { result < n }
    {
        self.state ^= self.state << 13;
        self.state ^= self.state >> 7;
        self.state ^= self.state << 17;
        (self.state >> 11) as usize % n
    }

    // A small letter.
    fn letter(&mut self) -> u8 {
        b'a' + self.below(26) as u8
    }

    // So many small letters at least, and so many at most.
    pub(crate) fn text(
        &mut self,
        heap: Global,
        least: usize,
        most: usize,
    ) -> Result<Vec<u8>, AllocError>
        requires order { least ≤ most }
        requires short { most < 2 ^ 16 }
    {
        let len = least + self.below(most - least + 1);
        let mut text = Vec::with_capacity(heap, len)?;
        for _ in 0..len {
            text.push(self.letter())?;
        }
        Ok(text)
    }

    // Puts the items into another order.
    pub(crate) fn shuffle<T>(&mut self, items: &mut [T]) {
        for i in (1..items.len()).rev() {
            let j = self.below(i + 1);
            items.swap(i, j);
        }
    }
}
