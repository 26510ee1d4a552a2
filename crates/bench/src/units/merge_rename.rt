use crate::books::{Books, CLAUSE, OTHER_CLAUSE};
use crate::full_set::{Size, full_set};
use crate::stop::Stop;
use crate::unit::{Lap, Unit};
use policy_set::rows::Renaming;
use policy_set::set::PolicySet;
use std::alloc::Global;
use std::time::{Clock, Duration, Instant};

// Two such sets together are full.
const HALF: Size = Size {
    templates: 32,
    slotted: 16,
    links: 112,
};

const _: () = prove!(2 * HALF.templates == 64);

const _: () = prove!(2 * (HALF.templates - HALF.slotted + HALF.links) == 256);

// Two sets with the same ids for unequal contents.
#[derive(Drop)]
struct Pair {
    books: Books,
    live: PolicySet,
    incoming: PolicySet,
    pairs: [Renaming; 320],
}

impl Pair {
    fn new(heap: Global) -> Result<Pair, Stop> {
        let mut books = Books::new(heap)?;
        let clause = books.clauses.enter(CLAUSE)?;
        let other = books.clauses.enter(OTHER_CLAUSE)?;
        let live = full_set(&mut books, HALF, clause)?;
        let incoming = full_set(&mut books, HALF, other)?;
        Ok(Pair {
            books,
            live,
            incoming,
            pairs: [Renaming::default(); 320],
        })
    }

    // How many ids were renamed.
    fn merge(&mut self) -> Result<usize, Stop> {
        let (incoming, clauses) = (&self.incoming, &self.books.clauses);
        let (names, pairs) = (&mut self.books.names, &mut self.pairs);
        Ok(
            self.live
                .merge_policyset(incoming, names, clauses, true, pairs)?,
        )
    }
}

// A merge where every incoming id is renamed: those of 32 templates and of 112 links.
#[derive(Clone, Copy)]
pub struct MergeRename {
    heap: Global,
}

impl MergeRename {
    pub(crate) fn new(heap: Global) -> MergeRename {
        MergeRename { heap }
    }
}

impl Unit for MergeRename {
    const NAME: &'static str = "merge_rename";

    fn work(&mut self) -> Result<usize, Stop> {
        Pair::new(self.heap)?.merge()
    }

    // A merge changes the live set and the names, so each is of sets and books of its own, whose making is not timed.
    fn lap<C: Clock>(&mut self, clock: &C, n: u32) -> Result<Lap, Stop> {
        let mut time = Duration::ZERO;
        let mut sum = 0usize;
        for _ in 0..n {
            let mut pair = Pair::new(self.heap)?;
            let start = Instant::now(clock)?;
            let renamed = pair.merge()?;
            time = time.saturating_add(start.elapsed(clock)?);
            sum = sum.wrapping_add(renamed);
        }
        Ok(Lap { time, sum })
    }
}
