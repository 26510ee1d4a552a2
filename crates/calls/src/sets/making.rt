// Making one call.
ghost use Rattle.std.specs.Prelude.{◌≡◌, ℕ, List};
ghost use Rattle.names.specs.Book.{limits as limits_of};
ghost use Rattle.calls.specs.Model.{told, empty_sets, answered, step};
ghost use Rattle.calls.specs.Law.{OneCall, BothShow, blank};
ghost use Rattle.calls.specs.Meaning.{state_of};

use crate::answer::{Answer, Handed};
use crate::call::Call;
use crate::sets::Sets;
use clauses::book::ClauseBook;
use names::kept::NameBook;

impl Sets {
    // Makes one call, without its law.
    fn made<B: ClauseBook>(&mut self, names: &mut NameBook, clauses: &B, call: Call<'_>) -> Answer
        ensures answer { told result ≡ answered (limits_of names.old) B.ClauseBook.equal (B.ClauseBook.listed clauses.now) (state_of self.old names.old) call.entry }
        ensures after { state_of self.new names.new ≡ step (limits_of names.old) B.ClauseBook.equal (B.ClauseBook.listed clauses.now) (state_of self.old names.old) call.entry }
        ensures limits { limits_of names.new ≡ limits_of names.old }
    {
        match call {
            Call::Name(text) => Ok(Handed::Name(names.name(text)?)),
            Call::AddTemplate(side, t) => self.add_template(names, clauses, side, t),
            Call::AddStatic(side, policy) => self.add_static(names, clauses, side, policy),
            Call::Add(side, policy) => self.add(names, clauses, side, policy),
            Call::Link(side, template_id, new_id, values) => {
                self.link(names, side, template_id, new_id, values)
            }
            Call::Unlink(side, id) => self.unlink(names, side, id),
            Call::RemoveStatic(side, id) => self.remove_static(names, side, id),
            Call::RemoveTemplate(side, id) => self.remove_template(names, side, id),
            Call::Merge(into, rename, room) => self.merge(names, clauses, into, rename, room),
        }
    }

    // Makes one call: what it answers and leaves, and its law. At first, two empty sets show blank tallies.
    pub fn make<B: ClauseBook>(
        &mut self,
        names: &mut NameBook,
        clauses: &B,
        call: Call<'_>,
    ) -> Answer
        ensures answer { told result ≡ answered (limits_of names.old) B.ClauseBook.equal (B.ClauseBook.listed clauses.now) (state_of self.old names.old) call.entry }
        ensures after { state_of self.new names.new ≡ step (limits_of names.old) B.ClauseBook.equal (B.ClauseBook.listed clauses.now) (state_of self.old names.old) call.entry }
        ensures limits { limits_of names.new ≡ limits_of names.old }
        ensures law { OneCall B.ClauseBook.equal (B.ClauseBook.listed clauses.now) (state_of self.old names.old) (state_of self.new names.new) call.entry (told result) }
        ensures first { (texts : List (List ℕ)) → BothShow B.ClauseBook.equal (B.ClauseBook.listed clauses.now) blank (empty_sets texts) }
    {
        self.made(names, clauses, call)
    }
}
