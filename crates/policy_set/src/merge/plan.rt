// What a merge is about to do.
ghost use Rattle.std.specs.Prelude.{◌≡◌, ◌<◌, [], ◌∷◌, ◌++◌};
ghost use Rattle.arrayvec.specs.ArrayVec.{array_vec_len};
ghost use Rattle.policy_set.specs.Choice.{pair, new_text, Next};

use crate::merge::attempt::Try;
use crate::merge::gather::PLACES;
use crate::rows::Renaming;
use arrayvec::ArrayVec;
use refusals::NameNumber;

// The ids that get new ones, and the counters of the texts that are new to the book.
#[derive(Drop)]
pub(crate) struct Plan {
    pub pairs: ArrayVec<Renaming, PLACES>,
    pub news: ArrayVec<u32, PLACES>,
}

impl Plan {
    // Nothing is renamed.
    pub(crate) fn new() -> Plan
        ensures pairs { result.pairs.items ≡ [] }
        ensures news { result.news.items ≡ [] }
    {
        Plan {
            pairs: ArrayVec::new(),
            news: ArrayVec::new(),
        }
    }

    // Notes the new id of an id, and the counter of its text if that is new.
    pub(crate) fn note(&mut self, old: NameNumber, t: Try)
        requires next { Next (array_vec_len self.old.news) t }
        requires pairs { array_vec_len self.old.pairs < 640 }
        requires news { array_vec_len self.old.news < 640 }
        ensures pairs { self.new.pairs.items ≡ self.old.pairs.items ++ pair old t.name ∷ [] }
        ensures news { self.new.news.items ≡ self.old.news.items ++ new_text (array_vec_len self.old.news) t }
        ensures fresh { array_vec_len self.new.news ≡ t.fresh }
    {
        self.pairs.push(Renaming { old, new: t.name });
        if self.news.len() < t.fresh {
            self.news.push(t.counter - 1);
        }
    }
}
