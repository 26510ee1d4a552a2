// Making a list of calls.
ghost use Rattle.std.specs.Prelude.{◌≡◌, ℕ, List, length, take, drop, map};
ghost use Rattle.names.specs.Book.{texts as texts_of, limits as limits_of};
ghost use Rattle.calls.specs.Model.{told, run_answer, given, empty_sets};
ghost use Rattle.calls.specs.Law.{Ran, BothShow, blank};
ghost use Rattle.calls.specs.Meaning.{state_of};

use crate::answer::Answer;
use crate::call::Call;
use crate::sets::Sets;
use clauses::book::ClauseBook;
use names::kept::NameBook;
use refusals::refusal::Refusal;

impl Sets {
    // Makes all calls in turn; the answers stand in the first places. Refusal 24, and no call, where these are too few.
    // `ran` has the law for tallies that both sets show; `first` says that two empty sets show blank ones.
    pub fn run<B: ClauseBook>(
        &mut self,
        names: &mut NameBook,
        clauses: &B,
        calls: &[Call<'_>],
        answers: &mut [Answer],
    ) -> Result<(), Refusal>
        ensures answer { result ≡ run_answer (length calls.now) (length answers.entry.now) }
        ensures ran { Ran B.ClauseBook.equal (B.ClauseBook.listed clauses.now) (limits_of names.old) (state_of self.old names.old) (state_of self.new names.new) (take (given result (length calls.now)) calls.now) (map told (take (given result (length calls.now)) answers.exit.now)) }
        ensures rest { drop (given result (length calls.now)) answers.exit.now ≡ drop (given result (length calls.now)) answers.entry.now }
        ensures limits { limits_of names.new ≡ limits_of names.old }
        ensures first { (texts : List (List ℕ)) → BothShow B.ClauseBook.equal (B.ClauseBook.listed clauses.now) blank (empty_sets texts) }
    {
        if answers.len() < calls.len() {
            return Err(Refusal::ShortBuffer(calls.len()));
        }
        // The place is named by its index: after a loop through an adapter of `iter_mut`, nothing is known of the places.
        for (i, call) in calls.iter().enumerate() {
            answers[i] = self.make(names, clauses, *call);
        }
        Ok(())
    }
}
