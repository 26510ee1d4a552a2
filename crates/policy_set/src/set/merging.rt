// Merging another set into this one: first a plan, which writes nothing of the sets and the book, then the writing.
ghost use Rattle.std.specs.Prelude.{◌≡◌, ◌≤◌, ◌++◌, length, take, drop, IfOk};
ghost use Rattle.arrayvec.specs.ArrayVec.{array_vec_len};
ghost use Rattle.clauses.specs.Book.{same_clause};
ghost use Rattle.names.specs.Book.{texts as texts_of, limits as limits_of};
ghost use Rattle.policy_set.specs.Choice.{ReadsBack};
ghost use Rattle.policy_set.specs.Meaning.{maps_of};
ghost use Rattle.policy_set.specs.Merge.{gathered, final, merged};
ghost use Rattle.policy_set.specs.MergeCall.{merge_tests, merge_outcome, planned, news_for, merge_answer, merge_after, merge_buffer, merge_texts, Holdable, FindsNames};
ghost use Rattle.policy_set.specs.MergeLaw.{Merging, GathersClashes};

use crate::merge::both::Both;
use crate::merge::enter::{enter_all, text_bytes};
use crate::merge::gather::{PLACES, count_more, gather_ids};
use crate::merge::plan::Plan;
use crate::rows::Renaming;
use crate::set::PolicySet;
use arrayvec::ArrayVec;
use clauses::book::ClauseBook;
use names::kept::NameBook;
use refusals::NameNumber;
use refusals::refusal::{Refusal, Table};

// Writes the pairs into the first places of the buffer.
fn hand_out(buffer: &mut [Renaming], pairs: &[Renaming])
    requires { length pairs.now ≤ length buffer.now }
    ensures { buffer.exit.now ≡ pairs.entry.now ++ drop (length pairs.entry.now) buffer.entry.now }
{
    buffer[0..pairs.len()].copy_from_slice(pairs);
}

impl<'a> Both<'a> {
    // The ids to rename, each once, in order.
    fn gather_all<B: ClauseBook>(&self, clauses: &B) -> ArrayVec<NameNumber, PLACES>
        ensures few { array_vec_len result ≤ 640 }
        ensures after { result.items ≡ gathered (same_clause B.ClauseBook.equal (B.ClauseBook.listed clauses.now)) (maps_of self.now.live.now) (maps_of self.now.incoming.now) }
    {
        let templates = self.incoming.templates.rows();
        let policies = self.incoming.policies.rows();
        let mut ids = ArrayVec::new();
        gather_ids(
            &mut ids,
            templates,
            |row| self.live.has_other_template(row, clauses),
        );
        gather_ids(
            &mut ids,
            policies,
            |row| self.is_unequal_policy(row, clauses),
        );
        gather_ids(&mut ids, templates, |row| self.is_template_on_policy(row));
        gather_ids(&mut ids, policies, |row| self.is_link_on_template(row));
        ids
    }

    // Refusals 10, 24 and 27, over the ids to rename.
    fn can_merge(&self, ids: &[NameNumber], rename: bool, room: usize) -> Result<(), Refusal>
        ensures { result ≡ merge_tests (maps_of self.now.live.now) (maps_of self.now.incoming.now) ids.now rename room }
    {
        if !rename && !ids.is_empty() {
            return Err(Refusal::Occupied(ids[0]));
        }
        if room < ids.len() {
            return Err(Refusal::ShortBuffer(ids.len()));
        }
        let (live, incoming) = (&self.live.templates, &self.incoming.templates);
        if !live.fits(count_more(live.rows(), incoming.rows(), ids)) {
            return Err(Refusal::Full(Table::Templates));
        }
        let (live, incoming) = (&self.live.policies, &self.incoming.policies);
        if !live.fits(count_more(live.rows(), incoming.rows(), ids)) {
            return Err(Refusal::Full(Table::Policies));
        }
        Ok(())
    }

    // The new ids and the counters of the new texts, or why there is no merge.
    fn plan<B: ClauseBook>(
        &self,
        names: &NameBook,
        clauses: &B,
        rename: bool,
        room: usize,
    ) -> Result<Plan, Refusal>
        ensures value { planned result ≡ merge_outcome (limits_of names.now) (texts_of names.now) (same_clause B.ClauseBook.equal (B.ClauseBook.listed clauses.now)) (maps_of self.now.live.now) (maps_of self.now.incoming.now) rename room }
        ensures texts { IfOk result (λ p. p.news.items ≡ news_for (texts_of names.now) (same_clause B.ClauseBook.equal (B.ClauseBook.listed clauses.now)) (maps_of self.now.live.now) (maps_of self.now.incoming.now)) }
    {
        let ids = self.gather_all(clauses);
        self.can_merge(&ids, rename, room)?;
        let plan = self.choose_names(names, &ids).ok_or(Refusal::BookFull)?;
        let bytes = text_bytes(&plan.news);
        if !names.has_room_for(plan.news.len(), bytes) {
            return Err(Refusal::BookFull);
        }
        Ok(plan)
    }
}

impl PolicySet {
    // Every incoming row goes in under its final ids.
    fn apply(&mut self, incoming: &PolicySet, pairs: &[Renaming])
        requires { Holdable (merged (final pairs.now) (maps_of self.old) (maps_of incoming.now)) }
        ensures { maps_of self.new ≡ merged (final pairs.entry.now) (maps_of self.old) (maps_of incoming.now) }
    {
        self.templates.put_all(&incoming.templates, pairs);
        self.policies.put_all(&incoming.policies, pairs);
        self.members.put_all(&incoming.members, pairs);
    }

    // Merges the incoming set into this one. The pairs go into the first places of the buffer; their count is the answer.
    // Names and clauses stay two parameters: a merge writes the one and reads the other.
    pub fn merge_policyset<B: ClauseBook>(
        &mut self,
        incoming: &PolicySet,
        names: &mut NameBook,
        clauses: &B,
        rename_duplicates: bool,
        pairs: &mut [Renaming],
    ) -> Result<usize, Refusal>
        ensures answer { result ≡ merge_answer (merge_outcome (limits_of names.old) (texts_of names.old) (same_clause B.ClauseBook.equal (B.ClauseBook.listed clauses.now)) (maps_of self.old) (maps_of incoming.now) rename_duplicates (length pairs.entry.now)) }
        ensures after { maps_of self.new ≡ merge_after (merge_outcome (limits_of names.old) (texts_of names.old) (same_clause B.ClauseBook.equal (B.ClauseBook.listed clauses.now)) (maps_of self.old) (maps_of incoming.now) rename_duplicates (length pairs.entry.now)) (maps_of self.old) (maps_of incoming.now) }
        ensures buffer { pairs.exit.now ≡ merge_buffer (merge_outcome (limits_of names.old) (texts_of names.old) (same_clause B.ClauseBook.equal (B.ClauseBook.listed clauses.now)) (maps_of self.old) (maps_of incoming.now) rename_duplicates (length pairs.entry.now)) pairs.entry.now }
        ensures texts { texts_of names.new ≡ merge_texts (merge_outcome (limits_of names.old) (texts_of names.old) (same_clause B.ClauseBook.equal (B.ClauseBook.listed clauses.now)) (maps_of self.old) (maps_of incoming.now) rename_duplicates (length pairs.entry.now)) (texts_of names.old) (same_clause B.ClauseBook.equal (B.ClauseBook.listed clauses.now)) (maps_of self.old) (maps_of incoming.now) }
        ensures limits { limits_of names.new ≡ limits_of names.old }
        ensures few { IfOk result (λ count. count ≤ 320) }
        ensures law { Merging (same_clause B.ClauseBook.equal (B.ClauseBook.listed clauses.now)) (maps_of self.old) (maps_of incoming.now) (maps_of self.new) pairs.exit.now result }
        ensures gathers { GathersClashes (same_clause B.ClauseBook.equal (B.ClauseBook.listed clauses.now)) (maps_of self.old) (maps_of incoming.now) }
        ensures new_names { IfOk result (λ n. ReadsBack (texts_of names.new) (take n pairs.exit.now)) }
        ensures finds_names { FindsNames (limits_of names.old) (texts_of names.old) (same_clause B.ClauseBook.equal (B.ClauseBook.listed clauses.now)) (maps_of self.old) (maps_of incoming.now) result }
    {
        let room = pairs.len();
        let sets = Both {
            live: self,
            incoming,
        };
        let plan = sets.plan(names, clauses, rename_duplicates, room)?;
        self.apply(incoming, &plan.pairs);
        hand_out(pairs, &plan.pairs);
        enter_all(names, &plan.news);
        Ok(plan.pairs.len())
    }
}
