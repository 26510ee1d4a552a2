// The calls on one of the sets.
ghost use Rattle.std.specs.Prelude.{◌≡◌, length};
ghost use Rattle.clauses.specs.Book.{same_clause};
ghost use Rattle.names.specs.Book.{texts as texts_of};
ghost use Rattle.policy_set.specs.Answers.{add_template_answer, add_template_after, add_static_answer, add_static_after, add_answer, add_after, link_answer, link_after, unlink_answer, unlink_after, remove_static_answer, remove_static_after, remove_template_answer, remove_template_after};
ghost use Rattle.calls.specs.Model.{tell, told, maps_at, with_maps};
ghost use Rattle.calls.specs.Model.Told.{done as told_done, policy as told_policy, template as told_template};
ghost use Rattle.calls.specs.Meaning.{state_of};

use crate::answer::{Answer, Handed};
use crate::call::Side;
use crate::sets::Sets;
use clauses::book::ClauseBook;
use names::kept::NameBook;
use policy::bound::Policy;
use policy::fixed::StaticPolicy;
use policy::template::Template;
use policy::values::SlotEnv;
use refusals::NameNumber;

// The sets are two named fields and each call is matched on its side: a set cannot be borrowed twice through an index.
impl Sets {
    // `add_template` on one of the sets.
    pub(crate) fn add_template<B: ClauseBook>(
        &mut self,
        names: &NameBook,
        clauses: &B,
        side: Side,
        t: Template,
    ) -> Answer
        ensures answer { told result ≡ tell (λ _. told_done) (add_template_answer (length (texts_of names.now)) (B.ClauseBook.listed clauses.now) (maps_at side (state_of self.old names.now)) t) }
        ensures after { state_of self.new names.now ≡ with_maps side (add_template_after (length (texts_of names.now)) (B.ClauseBook.listed clauses.now) (maps_at side (state_of self.old names.now)) t) (state_of self.old names.now) }
    {
        match side {
            Side::A => self.a.add_template(t, names, clauses)?,
            Side::B => self.b.add_template(t, names, clauses)?,
        }
        Ok(Handed::Nothing)
    }

    // `add_static` on one of the sets.
    pub(crate) fn add_static<B: ClauseBook>(
        &mut self,
        names: &NameBook,
        clauses: &B,
        side: Side,
        policy: StaticPolicy,
    ) -> Answer
        ensures answer { told result ≡ tell (λ _. told_done) (add_static_answer (length (texts_of names.now)) (B.ClauseBook.listed clauses.now) (maps_at side (state_of self.old names.now)) policy.body) }
        ensures after { state_of self.new names.now ≡ with_maps side (add_static_after (length (texts_of names.now)) (B.ClauseBook.listed clauses.now) (maps_at side (state_of self.old names.now)) policy.body) (state_of self.old names.now) }
    {
        match side {
            Side::A => self.a.add_static(policy, names, clauses)?,
            Side::B => self.b.add_static(policy, names, clauses)?,
        }
        Ok(Handed::Nothing)
    }

    // `add` on one of the sets.
    pub(crate) fn add<B: ClauseBook>(
        &mut self,
        names: &NameBook,
        clauses: &B,
        side: Side,
        policy: Policy,
    ) -> Answer
        ensures answer { told result ≡ tell (λ _. told_done) (add_answer (length (texts_of names.now)) (B.ClauseBook.listed clauses.now) (same_clause B.ClauseBook.equal (B.ClauseBook.listed clauses.now)) (maps_at side (state_of self.old names.now)) policy) }
        ensures after { state_of self.new names.now ≡ with_maps side (add_after (length (texts_of names.now)) (B.ClauseBook.listed clauses.now) (same_clause B.ClauseBook.equal (B.ClauseBook.listed clauses.now)) (maps_at side (state_of self.old names.now)) policy) (state_of self.old names.now) }
    {
        match side {
            Side::A => self.a.add(policy, names, clauses)?,
            Side::B => self.b.add(policy, names, clauses)?,
        }
        Ok(Handed::Nothing)
    }

    // `link` on one of the sets.
    pub(crate) fn link(
        &mut self,
        names: &NameBook,
        side: Side,
        template_id: NameNumber,
        new_id: NameNumber,
        values: SlotEnv,
    ) -> Answer
        ensures answer { told result ≡ tell told_policy (link_answer (length (texts_of names.now)) (maps_at side (state_of self.old names.now)) template_id new_id values) }
        ensures after { state_of self.new names.now ≡ with_maps side (link_after (length (texts_of names.now)) (maps_at side (state_of self.old names.now)) template_id new_id values) (state_of self.old names.now) }
    {
        let policy = match side {
            Side::A => self.a.link(template_id, new_id, values, names)?,
            Side::B => self.b.link(template_id, new_id, values, names)?,
        };
        Ok(Handed::Policy(policy))
    }

    // `unlink` on one of the sets.
    pub(crate) fn unlink(&mut self, names: &NameBook, side: Side, id: NameNumber) -> Answer
        ensures answer { told result ≡ tell told_policy (unlink_answer (length (texts_of names.now)) (maps_at side (state_of self.old names.now)) id) }
        ensures after { state_of self.new names.now ≡ with_maps side (unlink_after (length (texts_of names.now)) (maps_at side (state_of self.old names.now)) id) (state_of self.old names.now) }
    {
        let policy = match side {
            Side::A => self.a.unlink(id, names)?,
            Side::B => self.b.unlink(id, names)?,
        };
        Ok(Handed::Policy(policy))
    }

    // `remove_static` on one of the sets.
    pub(crate) fn remove_static(&mut self, names: &NameBook, side: Side, id: NameNumber) -> Answer
        ensures answer { told result ≡ tell told_policy (remove_static_answer (length (texts_of names.now)) (maps_at side (state_of self.old names.now)) id) }
        ensures after { state_of self.new names.now ≡ with_maps side (remove_static_after (length (texts_of names.now)) (maps_at side (state_of self.old names.now)) id) (state_of self.old names.now) }
    {
        let policy = match side {
            Side::A => self.a.remove_static(id, names)?,
            Side::B => self.b.remove_static(id, names)?,
        };
        Ok(Handed::Policy(policy))
    }

    // `remove_template` on one of the sets.
    pub(crate) fn remove_template(&mut self, names: &NameBook, side: Side, id: NameNumber) -> Answer
        ensures answer { told result ≡ tell told_template (remove_template_answer (length (texts_of names.now)) (maps_at side (state_of self.old names.now)) id) }
        ensures after { state_of self.new names.now ≡ with_maps side (remove_template_after (length (texts_of names.now)) (maps_at side (state_of self.old names.now)) id) (state_of self.old names.now) }
    {
        let template = match side {
            Side::A => self.a.remove_template(id, names)?,
            Side::B => self.b.remove_template(id, names)?,
        };
        Ok(Handed::Template(template))
    }
}
