// Entering the new texts into the book.
ghost use Rattle.std.specs.Prelude.{◌≡◌, ◌*◌, ◌≤◌, length};
ghost use Rattle.names.specs.Book.{texts as texts_of, limits as limits_of};
ghost use Rattle.names.specs.Names.{bytes_in, name_after};
ghost use Rattle.policy_set.specs.Choice.{candidate, candidates, enter_all};

use crate::merge::candidate::text_of;
use names::kept::NameBook;

// How many bytes the texts of counters have together.
pub(crate) fn text_bytes(news: &[u32]) -> usize
    requires { length news.now ≤ 640 }
    ensures { result ≡ bytes_in (candidates news.now) }
{
    news.iter().map(|&counter| text_of(counter).len()).sum()
}

// Names the text of a counter.
fn enter(names: &mut NameBook, counter: u32)
    ensures texts { texts_of names.new ≡ name_after (limits_of names.old) (texts_of names.old) (candidate counter) }
    ensures limits { limits_of names.new ≡ limits_of names.old }
{
    let text = text_of(counter);
    let _ = names.name(text.as_bytes());
}

// Names the texts of counters in turn.
pub(crate) fn enter_all(names: &mut NameBook, news: &[u32])
    ensures texts { texts_of names.new ≡ enter_all (limits_of names.old) (texts_of names.old) news.now }
    ensures limits { limits_of names.new ≡ limits_of names.old }
{
    for &counter in news {
        enter(names, counter);
    }
}
