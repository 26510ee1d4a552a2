// Choosing new ids: the texts of a counter are tried in turn.
ghost use Rattle.std.specs.Prelude.{◌≡◌, ◌-◌, ◌<◌, ◌≤◌, length, IfSome};
ghost use Rattle.arrayvec.specs.ArrayVec.{array_vec_len};
ghost use Rattle.names.specs.Book.{texts as texts_of};
ghost use Rattle.names.specs.Names.{number_of};
ghost use Rattle.policy_set.specs.Choice.{candidate, attempt as tried, first_free, choose, new_texts, taken_by, Next, pairs_of};
ghost use Rattle.policy_set.specs.Meaning.{maps_of};

use crate::merge::attempt::Try;
use crate::merge::both::Both;
use crate::merge::candidate::text_of;
use crate::merge::plan::Plan;
use names::kept::NameBook;
use refusals::NameNumber;

// As many texts are tried at most, in all.
const TRIES: u32 = 65536;

// The number of a counter's text in the book, if it is there.
fn number(names: &NameBook, counter: u32) -> Option<usize>
    ensures { result ≡ number_of (candidate counter) (texts_of names.now) }
{
    let text = text_of(counter);
    names.find(text.as_bytes())
}

// The number that a counter's text has or would get, and the counter raised past it.
// `fresh` is a count alone, here and below, so no type carries its bound.
fn attempt(names: &NameBook, fresh: usize, counter: u32) -> Try
    requires fresh { fresh ≤ 640 }
    requires counter { counter < 65536 }
    ensures { result ≡ tried (texts_of names.now) fresh counter }
{
    let found = number(names, counter);
    Try {
        name: found.unwrap_or(names.count() + fresh) as NameNumber,
        counter: counter + 1,
        fresh: fresh + usize::from(found.is_none()),
    }
}

impl<'a> Both<'a> {
    // The first try from a counter on whose number neither set binds.
    fn find_free(&self, names: &NameBook, fresh: usize, start: u32) -> Option<Try>
        requires { fresh ≤ 640 }
        ensures value { result ≡ first_free (texts_of names.now) (taken_by (maps_of self.now.live.now) (maps_of self.now.incoming.now)) (65536 - start) fresh start }
        ensures next { IfSome result (λ t. Next fresh t) }
    {
        for counter in start..TRIES {
            let t = attempt(names, fresh, counter);
            if !self.is_bound(t.name) {
                return Some(t);
            }
        }
        None
    }

    // A new id for each id, and the counters of the texts that are new; none where an id gets no new one.
    pub(crate) fn choose_names(&self, names: &NameBook, ids: &[NameNumber]) -> Option<Plan>
        requires { length ids.now ≤ 640 }
        ensures value { pairs_of result ≡ choose (texts_of names.now) (taken_by (maps_of self.now.live.now) (maps_of self.now.incoming.now)) 65536 0 0 ids.now }
        ensures texts { IfSome result (λ p. p.news.items ≡ new_texts (texts_of names.now) (taken_by (maps_of self.now.live.now) (maps_of self.now.incoming.now)) 65536 0 0 ids.now) }
        ensures few { IfSome result (λ p. array_vec_len p.news ≤ 640) }
    {
        let mut plan = Plan::new();
        let mut counter = 0;
        for &id in ids {
            let t = self.find_free(names, plan.news.len(), counter)?;
            plan.note(id, t);
            counter = t.counter;
        }
        Some(plan)
    }
}
