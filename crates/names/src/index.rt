ghost use Rattle.std.specs.Prelude.{◌≡◌, ◌<◌, ◌≤◌, [], ◌∷◌, ◌++◌, length, IfOk, None as Absent, Some as Present, vec_len, vec_capacity, slice_index_or, slice_set, replicate};
ghost use Rattle.names.specs.Index.{hash as hash_of};

// Which numbers have texts of one hash, so that a text is looked for among few.
use refusals::NameNumber;
use std::alloc::{AllocError, Global};

// How many hashes there are.
pub(crate) const HASHES: usize = 1024;

// For each hash the last number whose text has it, and for each number the last one below it with the same hash.
#[derive(Drop)]
pub struct Index {
    pub(crate) last: Vec<Option<NameNumber>>,
    pub(crate) before: Vec<Option<NameNumber>>,
    ghost every_hash: { vec_len last ≡ 1024 },
}

// The hash of a text, below 1,024.
pub(crate) fn hash(text: &[u8]) -> usize
    ensures hash { result ≡ hash_of text.now }
    ensures small { result < 1024 }
{
    let mut value = 0;
    for byte in text {
        value = (31 * value + *byte as u32) % 65536;
    }
    (value % 1024) as usize
}

impl Index {
    // No number, and memory for so many.
    pub(crate) fn new(heap: Global, places: usize) -> Result<Index, AllocError>
        ensures { IfOk result (λ index. (index.last.items ≡ replicate 1024 Absent) × (index.before.items ≡ []) × (places ≤ vec_capacity index.before)) }
    {
        let last = Vec::from_array(heap, [None; HASHES])?;
        let before = Vec::with_capacity(heap, places)?;
        Ok(Index { last, before })
    }

    // The next number has a text of this hash.
    pub(crate) fn push(&mut self, hash: usize, number: NameNumber)
        requires hash { hash < 1024 }
        requires room { vec_len self.old.before < vec_capacity self.old.before }
        ensures last { self.new.last.items ≡ slice_set self.old.last.items hash (Present number) }
        ensures before { self.new.before.items ≡ self.old.before.items ++ (slice_index_or self.old.last.items hash Absent ∷ []) }
        ensures room { vec_capacity self.new.before ≡ vec_capacity self.old.before }
    {
        let before = self.last[hash];
        self.before.push_reserved(before);
        self.last[hash] = Some(number);
    }
}
