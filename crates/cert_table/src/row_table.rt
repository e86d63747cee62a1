ghost use Rattle.std.specs.Prelude.{◌≡◌, ◌<◌, ◌≤◌, length};
ghost use Rattle.std.specs.Option.{option_copied};
ghost use Rattle.page_ids.specs.Ids.{id_cmp};
ghost use Rattle.cert_table.specs.Table.{AreRows, row_among, rows_compared};
ghost use Rattle.cert_table.specs.CoverLaws.{few_rows, some_rows, sixteen};

use crate::cover::Cover;
use crate::row::Row;
use frame_records::{Entry, binary_search};
use page_ids::FrameId;
use std::cmp::Ordering;
use std::marker::Model;

/// Rows in which an id is sought by binary search.
#[derive(Debug, Drop)]
pub struct RowTable {
    rows: Vec<Row>,
}

impl Model for RowTable {
    ghost use Rattle.std.specs.Prelude.{List};
    ghost use Rattle.cert_table.specs.declared.row.Row.{Row};

    ghost Value = { List Row };

    ghost use Rattle.cert_table.specs.Table.{AreRows};

    ghost view = { λ t. t.rows.items };

    ghost invariant = { λ t. AreRows t.rows.items };
}

impl Entry<FrameId> for Row {
    ghost against = { λ row id. id_cmp row.id id };

    fn against(&self, wanted: &FrameId) -> Ordering {
        self.id.cmp(wanted)
    }
}

// The row of an id, and how many rows were compared with it.
fn row_in(rows: &[Row], id: FrameId) -> (Option<&Row>, u32)
    requires { AreRows rows.now }
    ensures value { option_copied result.0 ≡ row_among rows.now id }
    ensures exact { result.1 ≡ rows_compared rows.now id }
    ensures most { result.1 ≤ 16 }
    ensures least { 0 < length rows.now → 1 ≤ result.1 }
{
    binary_search(rows, &id)
}

impl Cover for RowTable {
    ghost rows = { λ t. t };

    ghost most_among = { λ _. 16 };

    ghost compared = { rows_compared };

    fn of(list: Vec<Row>) -> Self {
        RowTable { rows: list }
    }

    fn len(&self) -> usize {
        self.rows.len()
    }

    fn row_at(&self, i: usize) -> &Row {
        &self.rows[i]
    }

    fn row_of(&self, id: FrameId) -> Option<&Row> {
        self.row_counted(id).0
    }

    fn rank_of(&self, id: FrameId) -> Option<u16> {
        self.row_of(id).map(|row| row.rank)
    }

    fn row_counted(&self, id: FrameId) -> (Option<&Row>, u32) {
        row_in(self.rows.as_slice(), id)
    }

    fn most(&self) -> u32 {
        16
    }

    ghost few = { few_rows };

    ghost some = { some_rows };

    ghost most_is_small = { λ n small. sixteen };
}
