use crate::books::{Books, CLAUSE};
use crate::full_set::{FULL, full_set};
use crate::stop::Stop;
use crate::unit::Unit;
use policy_set::rows::Renaming;
use policy_set::set::PolicySet;
use std::alloc::Global;

// A merge of a full set into another with equal contents. The clauses stand in the book twice, so that they are compared
// as contents. Afterwards the live set is as it was before.
#[derive(Drop)]
pub struct MergeEqual {
    books: Books,
    live: PolicySet,
    incoming: PolicySet,
    pairs: [Renaming; 320],
}

impl MergeEqual {
    pub(crate) fn new(heap: Global) -> Result<MergeEqual, Stop> {
        let mut books = Books::new(heap)?;
        let clause = books.clauses.enter(CLAUSE)?;
        let again = books.clauses.enter(CLAUSE)?;
        let live = full_set(&mut books, FULL, clause)?;
        let incoming = full_set(&mut books, FULL, again)?;
        Ok(MergeEqual {
            books,
            live,
            incoming,
            pairs: [Renaming::default(); 320],
        })
    }
}

impl Unit for MergeEqual {
    const NAME: &'static str = "merge_equal_unshared";

    fn work(&mut self) -> Result<usize, Stop> {
        let (incoming, clauses) = (&self.incoming, &self.books.clauses);
        let (names, pairs) = (&mut self.books.names, &mut self.pairs);
        Ok(
            self.live
                .merge_policyset(incoming, names, clauses, false, pairs)?,
        )
    }
}
