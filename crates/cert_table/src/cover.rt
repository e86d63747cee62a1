ghost use Rattle.std.specs.Prelude.{◌≡◌, ◌<◌, ◌≤◌, ℕ, Some, length, slice_get, option_map};
ghost use Rattle.std.specs.Option.{option_copied};
ghost use Rattle.cert_table.specs.Table.{AreRows, row_among};

use crate::row::Row;
use page_ids::FrameId;

/// A finite map from ids to rows. Contracts see it as the list of its rows, in the order of their ids.
pub trait Cover {
    ghost use Rattle.std.specs.Prelude.{List};
    ghost use Rattle.cert_table.specs.declared.row.Row.{Row};

    /// The rows, in the order of their ids.
    ghost rows: { Self → List Row };

    /// The most rows that one look-up compares in a table of this length.
    ghost most_among: { ℕ → ℕ };

    ghost use Rattle.page_ids.specs.Ids.{Id};

    /// How many of these rows a look-up of an id compares.
    ghost compared: { List Row → Id → ℕ };

    /// The map of these rows. Takes no memory: the list is kept.
    fn of(list: Vec<Row>) -> Self
        requires { AreRows list.items }
        ensures { rows result ≡ list.items };

    /// How many rows there are.
    fn len(&self) -> usize
        ensures count { result ≡ length (rows self.now) }
        ensures valid { AreRows (rows self.now) };

    /// The row of the i-th id, from 0.
    fn row_at(&self, i: usize) -> &Row
        requires { i < length (rows self.now) }
        ensures { slice_get (rows self.now) i ≡ Some result.now };

    /// The row of an id; `None` if the id has no row.
    fn row_of(&self, id: FrameId) -> Option<&Row>
        ensures { option_copied result ≡ row_among (rows self.now) id };

    /// The rank of an id's row; `None` if the id has no row.
    fn rank_of(&self, id: FrameId) -> Option<u16>
        ensures { result ≡ option_map (λ r. r.rank) (row_among (rows self.now) id) };

    /// The row of an id, and how many rows were compared with it: at least one if there is one, and at most `most`.
    fn row_counted(&self, id: FrameId) -> (Option<&Row>, u32)
        ensures value { option_copied result.0 ≡ row_among (rows self.now) id }
        ensures exact { result.1 ≡ compared (rows self.now) id }
        ensures most { result.1 ≤ most_among (length (rows self.now)) }
        ensures least { 0 < length (rows self.now) → 1 ≤ result.1 };

    /// The most rows that one look-up compares.
    fn most(&self) -> u32
        ensures { result ≡ most_among (length (rows self.now)) };

    ghost use Rattle.std.specs.Prelude.{◌≤◌, ◌<◌, length};
    ghost use Rattle.cert_table.specs.declared.limits.TheConstants.{MOST_ROWS};

    // A look-up compares no more rows than that, and at least one if there is any.
    ghost few: { (rows : List Row) (id : Id) → length rows ≤ MOST_ROWS → compared rows id ≤ most_among (length rows) };

    ghost some: { (rows : List Row) (id : Id) → 0 < length rows → 1 ≤ compared rows id };

    ghost most_is_small: { (n : ℕ) → n ≤ MOST_ROWS → most_among n ≤ MOST_ROWS };
}
