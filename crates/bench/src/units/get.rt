ghost use Rattle.std.specs.Prelude.{◌≡◌, ◌+◌, ◌%◌, length, IsSomeAnd, slice_get};
ghost use Rattle.std.specs.Result.{result_unwrap_or};
ghost use Rattle.names.specs.Book.{texts};
ghost use Rattle.policy.specs.Arity.{parts};
ghost use Rattle.policy_set.specs.Answers.{get_answer};
ghost use Rattle.policy_set.specs.Maps.{changed};
ghost use Rattle.policy_set.specs.Meaning.{maps_of};
ghost use Rattle.bench.specs.Ended.{ended};

use crate::books::{Books, CLAUSE};
use crate::full_set::{FULL, full_set};
use crate::rng::Rng;
use crate::stop::Stop;
use crate::turns::Turns;
use crate::unit::Unit;
use policy::bound::Policy;
use policy_set::set::PolicySet;
use refusals::NameNumber;
use std::alloc::Global;

// A policy of a full set by its id, each in its turn.
#[derive(Drop)]
pub struct Get {
    books: Books,
    set: PolicySet,
    ids: Turns<NameNumber, 256>,
    found: Option<Policy>,
}

// The ids of the policies, in another order than theirs.
fn ids(set: &PolicySet) -> Result<[NameNumber; 256], Stop> {
    let mut ids = [0; 256];
    for (place, id) in ids.iter_mut().enumerate() {
        let (policy, _) = set.policies(place).ok_or(Stop::Absent)?;
        *id = policy;
    }
    Rng::new(11).shuffle(&mut ids);
    Ok(ids)
}

impl Get {
    pub(crate) fn new(heap: Global) -> Result<Get, Stop> {
        let mut books = Books::new(heap)?;
        let clause = books.clauses.enter(CLAUSE)?;
        let set = full_set(&mut books, FULL, clause)?;
        let ids = Turns::new(ids(&set)?);
        Ok(Get {
            books,
            set,
            ids,
            found: None,
        })
    }
}

impl Unit for Get {
    const NAME: &'static str = "get";

    // Asks for the policy of the id whose turn it is; the id. The policy is kept, so that no build can leave out handing
    // it over.
    fn work(&mut self) -> Result<usize, Stop>
        ensures answer { IsSomeAnd (slice_get self.old.ids.things self.old.ids.turn) (λ id. result ≡ ended id (get_answer (length (texts self.old.books.names)) (maps_of self.old.set) id)) }
        ensures found { IsSomeAnd (slice_get self.old.ids.things self.old.ids.turn) (λ id. changed parts self.new.found ≡ result_unwrap_or (get_answer (length (texts self.old.books.names)) (maps_of self.old.set) id) (changed parts self.old.found)) }
        ensures books { self.new.books ≡ self.old.books }
        ensures set { self.new.set ≡ self.old.set }
        ensures turn { self.new.ids.turn ≡ (self.old.ids.turn + 1) % 256 }
        ensures things { self.new.ids.things ≡ self.old.ids.things }
    {
        let id = self.ids.next();
        self.found = self.set.get(id, &self.books.names)?;
        Ok(id as usize)
    }
}
