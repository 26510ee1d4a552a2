// Putting all rows of a table into another of its kind, under their final ids.
ghost use Rattle.std.specs.Prelude.{◌≡◌, ◌≤◌, length};
ghost use Rattle.policy_set.specs.Tables.{put_all};
ghost use Rattle.policy_set.specs.Held.{rows_in};
ghost use Rattle.policy_set.specs.Merge.{final};

use crate::merge::put::Renamed;
use crate::rows::Renaming;
use crate::tables::Table;

impl<R: Renamed + Copy, const PLACES: usize> Table<R, PLACES> {
    // Puts each incoming row last, under its final ids.
    pub(crate) fn put_all(&mut self, incoming: &Self, pairs: &[Renaming])
        requires { length (put_all R.Keyed.naming (R.Renamed.renamed (final pairs.now)) (rows_in self.old) (rows_in incoming.now)) ≤ PLACES }
        ensures { rows_in self.new ≡ put_all R.Keyed.naming (R.Renamed.renamed (final pairs.entry.now)) (rows_in self.old) (rows_in incoming.now) }
    {
        for row in incoming.rows() {
            self.put(row.under(pairs));
        }
    }
}
