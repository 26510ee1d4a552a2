// Gathering the ids to rename, and counting the rows that come in as rows more.
ghost use Rattle.std.specs.Prelude.{◌≡◌, ◌+◌, ◌<◌, ◌≤◌, Bool, true, length};
ghost use Rattle.std.specs.Fn.{FnReturnsAt};
ghost use Rattle.arrayvec.specs.ArrayVec.{array_vec_len};
ghost use Rattle.policy_set.specs.Merge.{among, noted, gather, is_more, rows_more};

use crate::keyed::{Keyed, get};
use arrayvec::ArrayVec;
use refusals::NameNumber;

// As many ids as four passes over two full tables can note.
pub(crate) const PLACES: usize = 640;

// Whether an id is among ids: a function of its own, since the check does not find `among` for the slice of a vector.
fn contains(ids: &[NameNumber], id: NameNumber) -> bool
    ensures { result ≡ among id ids.now }
{
    ids.contains(&id)
}

// Appends an id, unless it is there.
fn note_id(ids: &mut ArrayVec<NameNumber, PLACES>, id: NameNumber)
    requires { array_vec_len ids.old < 640 }
    ensures { ids.new.items ≡ noted true id ids.old.items }
{
    if !contains(ids, id) {
        ids.push(id);
    }
}

// Notes the key of each row that passes the test.
pub(crate) fn gather_ids<R: Keyed, F: Fn(&R) -> bool>(
    ids: &mut ArrayVec<NameNumber, PLACES>,
    rows: &[R],
    test: F,
)
    requires test { F.IsAlwaysCallable test }
    requires room { array_vec_len ids.old + length rows.now ≤ 640 }
    ensures few { array_vec_len ids.new ≤ array_vec_len ids.old + length rows.now }
    ensures after { (asks : R → Bool) → ((x : R) (b : Bool) → FnReturnsAt F.Fn test x b → b ≡ asks x) → ids.new.items ≡ gather R.Keyed.naming asks ids.old.items rows.now }
{
    for row in rows {
        if test(row) {
            note_id(ids, row.key());
        }
    }
}

// Whether an incoming row is a row more.
fn is_more<R: Keyed + Copy>(live: &[R], ids: &[NameNumber], key: NameNumber) -> bool
    ensures { result ≡ is_more R.naming ids.now live.now key }
{
    contains(ids, key) || get(live, key).is_none()
}

// How many incoming rows are rows more.
pub(crate) fn count_more<R: Keyed + Copy>(live: &[R], incoming: &[R], ids: &[NameNumber]) -> usize
    ensures value { result ≡ rows_more R.naming ids.now live.now incoming.now }
    ensures small { result ≤ length incoming.now }
{
    incoming
        .iter()
        .map(|row| row.key())
        .filter(|&key| is_more(live, ids, key))
        .count()
}
