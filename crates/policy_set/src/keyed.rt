// Finding and moving last, once for every kind of row.
// They are written over slices, so that one proof of each serves tables and pairs, and keys as well as rows.
ghost use Rattle.std.specs.Prelude.{◌≡◌, ℕ, ◌<◌, ◌==◌, ◌++◌, length, take, drop, position};
ghost use Rattle.std.specs.List.{list_any};
ghost use Rattle.policy_set.specs.Tables.{without, lookup};

use refusals::NameNumber;

// A row whose key is the number of a name.
pub(crate) trait Keyed {
    // The key, as a function on rows.
    ghost naming: { Self → ℕ };

    // The key of the row.
    fn key(&self) -> NameNumber
        ensures { result ≡ naming self.now };
}

// A key by itself: the tables keep their rows' keys side by side.
impl Keyed for NameNumber {
    ghost naming = { λ n. n };

    fn key(&self) -> NameNumber {
        *self
    }
}

// Whether a row has the key.
fn has<R: Keyed>(row: &R, key: NameNumber) -> bool
    ensures { result ≡ (R.naming row.now == key) }
{
    row.key() == key
}

// The place of the first row with the key, row by row.
fn find_in_turn<R: Keyed>(rows: &[R], key: NameNumber) -> Option<usize>
    ensures { result ≡ position (λ row. R.naming row == key) rows.now }
{
    rows.iter().position(|row| has(row, key))
}

// How many rows are tested with one branch.
const BLOCK: usize = 16;

// Whether one of the rows has the key. All are tested: a branch for each takes longer.
fn has_key<R: Keyed>(rows: &[R], key: NameNumber) -> bool
    ensures { result ≡ list_any (λ row. R.naming row == key) rows.now }
{
    let mut found = false;
    for row in rows {
        found |= has(row, key);
    }
    found
}

// The place of the first row with the key, by blocks: most of the time of a call on a full set goes into looking through
// its tables.
pub(crate) fn find<R: Keyed>(rows: &[R], key: NameNumber) -> Option<usize>
    ensures { result ≡ position (λ row. R.naming row == key) rows.now }
{
    let mut rest = rows;
    let mut passed = 0;
    while let Some((block, tail)) = rest.split_at_checked(BLOCK) {
        if has_key(block, key) {
            break;
        }
        passed += BLOCK;
        rest = tail;
    }
    let i = find_in_turn(rest, key)?;
    Some(passed + i)
}

// The first row with the key.
pub(crate) fn get<R: Keyed + Copy>(rows: &[R], key: NameNumber) -> Option<R>
    ensures { result ≡ lookup R.naming key rows.now }
{
    let i = find(rows, key)?;
    Some(rows[i])
}

// Moves the row at `i` to the end of the slice; the rows after it move up by one.
pub(crate) fn move_last<R>(rows: &mut [R], i: usize)
    requires { i < length rows.old }
    ensures { rows.new ≡ without i rows.old ++ take 1 (drop i rows.old) }
{
    rows[i..].rotate_left(1);
}
