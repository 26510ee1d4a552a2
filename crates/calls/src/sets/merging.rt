// Merging one of the sets into the other.
ghost use Rattle.std.specs.Prelude.{◌≡◌, ◌≤◌, length, IfOk};
ghost use Rattle.clauses.specs.Book.{same_clause};
ghost use Rattle.names.specs.Book.{texts as texts_of, limits as limits_of};
ghost use Rattle.policy_set.specs.MergeCall.{merge_outcome, merge_after, merge_texts};
ghost use Rattle.policy_set.specs.Meaning.{maps_of};
ghost use Rattle.calls.specs.Model.{tell, told, answered, step};
ghost use Rattle.calls.specs.Model.Told.{pairs as told_pairs};
ghost use Rattle.calls.specs.Meaning.{state_of};
ghost use Rattle.calls.specs.Pairs.{first_pairs};

use crate::answer::{Answer, Handed};
use crate::call::{Call, Side};
use crate::pairs::{MOST, Pairs};
use crate::sets::Sets;
use clauses::book::ClauseBook;
use names::kept::NameBook;
use policy_set::rows::Renaming;
use policy_set::set::PolicySet;
use refusals::refusal::Refusal;

// Merges one set into another, with room for so many pairs; these stand in the first rows. How many there are.
fn merge_rows<B: ClauseBook>(
    live: &mut PolicySet,
    incoming: &PolicySet,
    names: &mut NameBook,
    clauses: &B,
    rename: bool,
    room: usize,
    rows: &mut [Renaming],
) -> Result<usize, Refusal>
    requires { length rows.now ≡ 320 }
    ensures answer { first_pairs result rows.exit.now ≡ merge_outcome (limits_of names.old) (texts_of names.old) (same_clause B.ClauseBook.equal (B.ClauseBook.listed clauses.now)) (maps_of live.old) (maps_of incoming.now) rename room }
    ensures count { IfOk result (λ n. n ≤ 320) }
    ensures after { maps_of live.new ≡ merge_after (merge_outcome (limits_of names.old) (texts_of names.old) (same_clause B.ClauseBook.equal (B.ClauseBook.listed clauses.now)) (maps_of live.old) (maps_of incoming.now) rename room) (maps_of live.old) (maps_of incoming.now) }
    ensures texts { texts_of names.new ≡ merge_texts (merge_outcome (limits_of names.old) (texts_of names.old) (same_clause B.ClauseBook.equal (B.ClauseBook.listed clauses.now)) (maps_of live.old) (maps_of incoming.now) rename room) (texts_of names.old) (same_clause B.ClauseBook.equal (B.ClauseBook.listed clauses.now)) (maps_of live.old) (maps_of incoming.now) }
    ensures limits { limits_of names.new ≡ limits_of names.old }
{
    let places = room.min(MOST);
    live.merge_policyset(incoming, names, clauses, rename, &mut rows[0..places])
}

// Merges one set into another, with room for so many pairs; these stand in the answer.
fn merge_into<B: ClauseBook>(
    live: &mut PolicySet,
    incoming: &PolicySet,
    names: &mut NameBook,
    clauses: &B,
    rename: bool,
    room: usize,
) -> Answer
    ensures answer { told result ≡ tell told_pairs (merge_outcome (limits_of names.old) (texts_of names.old) (same_clause B.ClauseBook.equal (B.ClauseBook.listed clauses.now)) (maps_of live.old) (maps_of incoming.now) rename room) }
    ensures after { maps_of live.new ≡ merge_after (merge_outcome (limits_of names.old) (texts_of names.old) (same_clause B.ClauseBook.equal (B.ClauseBook.listed clauses.now)) (maps_of live.old) (maps_of incoming.now) rename room) (maps_of live.old) (maps_of incoming.now) }
    ensures texts { texts_of names.new ≡ merge_texts (merge_outcome (limits_of names.old) (texts_of names.old) (same_clause B.ClauseBook.equal (B.ClauseBook.listed clauses.now)) (maps_of live.old) (maps_of incoming.now) rename room) (texts_of names.old) (same_clause B.ClauseBook.equal (B.ClauseBook.listed clauses.now)) (maps_of live.old) (maps_of incoming.now) }
    ensures limits { limits_of names.new ≡ limits_of names.old }
{
    let mut rows = [Renaming { old: 0, new: 0 }; MOST];
    let used = merge_rows(live, incoming, names, clauses, rename, room, &mut rows)?;
    Ok(Handed::Pairs(Pairs { rows, used }))
}

impl Sets {
    // `merge_policyset` of the other set into one of them.
    pub(crate) fn merge<B: ClauseBook>(
        &mut self,
        names: &mut NameBook,
        clauses: &B,
        into: Side,
        rename: bool,
        room: usize,
    ) -> Answer
        ensures answer { told result ≡ answered (limits_of names.old) B.ClauseBook.equal (B.ClauseBook.listed clauses.now) (state_of self.old names.old) (Call.Merge into rename room) }
        ensures after { state_of self.new names.new ≡ step (limits_of names.old) B.ClauseBook.equal (B.ClauseBook.listed clauses.now) (state_of self.old names.old) (Call.Merge into rename room) }
        ensures limits { limits_of names.new ≡ limits_of names.old }
    {
        match into {
            Side::A => merge_into(&mut self.a, &self.b, names, clauses, rename, room),
            Side::B => merge_into(&mut self.b, &self.a, names, clauses, rename, room),
        }
    }
}
