// The calls on a table, by the rows that it holds.
ghost use Rattle.std.specs.Prelude.{◌≡◌, ◌+◌, ◌<◌, ◌==◌, [], ◌∷◌, ◌++◌, length, take, drop, position, nat_le, None};
ghost use Rattle.policy_set.specs.Tables.{lookup, without, erase, moved_last, or_inserted, put_last, has_room};
ghost use Rattle.policy_set.specs.Held.{rows_in};

use crate::keyed;
use crate::keyed::Keyed;
use crate::tables::Table;
use refusals::NameNumber;

impl<R: Keyed + Copy, const PLACES: usize> Table<R, PLACES> {
    // No rows; the blank stands in the unused places.
    pub(crate) fn new(blank: R) -> Self
        ensures { rows_in result ≡ [] }
    {
        Table {
            rows: [blank; PLACES],
            keys: [0; PLACES],
            used: 0,
        }
    }

    // The rows, in order.
    pub(crate) fn rows(&self) -> &[R]
        ensures { result.now ≡ rows_in self.now }
    {
        &self.rows[..self.used]
    }

    // The place of the row of a key.
    fn place(&self, key: NameNumber) -> Option<usize>
        ensures { result ≡ position (λ row. R.Keyed.naming row == key) (rows_in self.now) }
    {
        keyed::find(&self.keys[..self.used], key)
    }

    // The row of a key.
    pub(crate) fn get(&self, key: NameNumber) -> Option<R>
        ensures { result ≡ lookup R.Keyed.naming key (rows_in self.now) }
    {
        let i = self.place(key)?;
        Some(self.rows()[i])
    }

    // Whether there is room for one row more.
    pub(crate) fn has_room(&self) -> bool
        ensures { result ≡ has_room PLACES (rows_in self.now) }
    {
        self.used < PLACES
    }

    // Whether there is room for so many rows more.
    pub(crate) fn fits(&self, more: usize) -> bool
        ensures { result ≡ nat_le (length (rows_in self.now) + more) PLACES }
    {
        more <= PLACES - self.used
    }

    // Appends a row of a new key.
    pub(crate) fn push(&mut self, row: R)
        requires room { length (rows_in self.old) < PLACES }
        requires new { lookup R.Keyed.naming (R.Keyed.naming row) (rows_in self.old) ≡ None }
        ensures { rows_in self.new ≡ rows_in self.old ++ row ∷ [] }
    {
        self.rows[self.used] = row;
        self.keys[self.used] = row.key();
        self.used += 1;
    }

    // Appends a row unless one of its key is there.
    pub(crate) fn or_insert(&mut self, row: R)
        requires { lookup R.Keyed.naming (R.Keyed.naming row) (rows_in self.old) ≡ None → length (rows_in self.old) < PLACES }
        ensures { rows_in self.new ≡ or_inserted R.Keyed.naming row (rows_in self.old) }
    {
        if self.get(row.key()).is_none() {
            self.push(row);
        }
    }

    // Moves the row at a place last.
    fn move_from(&mut self, place: usize)
        requires { place < length (rows_in self.old) }
        ensures used { self.new.used ≡ self.old.used }
        ensures after { rows_in self.new ≡ without place (rows_in self.old) ++ take 1 (drop place (rows_in self.old)) }
    {
        keyed::move_last(&mut self.keys[..self.used], place);
        keyed::move_last(&mut self.rows[..self.used], place);
    }

    // Moves the row of a key last, if there is one.
    pub(crate) fn move_last(&mut self, key: NameNumber)
        ensures { rows_in self.new ≡ moved_last R.Keyed.naming key (rows_in self.old) }
    {
        if let Some(i) = self.place(key) {
            self.move_from(i);
        }
    }

    // Takes out the row of a key, if there is one: moved last, it goes with the last used place.
    pub(crate) fn remove(&mut self, key: NameNumber)
        ensures { rows_in self.new ≡ erase R.Keyed.naming key (rows_in self.old) }
    {
        if let Some(i) = self.place(key) {
            self.move_from(i);
            self.used -= 1;
        }
    }

    // Puts a row last; a row with its key goes out.
    pub(crate) fn put(&mut self, row: R)
        requires { lookup R.Keyed.naming (R.Keyed.naming row) (rows_in self.old) ≡ None → length (rows_in self.old) < PLACES }
        ensures { rows_in self.new ≡ put_last R.Keyed.naming row (rows_in self.old) }
    {
        self.remove(row.key());
        self.push(row);
    }
}
