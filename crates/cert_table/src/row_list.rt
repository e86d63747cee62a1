ghost use Rattle.std.specs.Prelude.{◌≡◌, ◌<◌, ◌≤◌, length, position};
ghost use Rattle.page_ids.specs.Ids.{id_eq};
ghost use Rattle.std.specs.Option.{option_copied};
ghost use Rattle.cert_table.specs.declared.limits.TheConstants.{MOST_ROWS};
ghost use Rattle.cert_table.specs.Table.{row_among, rows_up_to};
ghost use Rattle.cert_table.specs.CoverLaws.{few_up_to, some_up_to};

use crate::cover::Cover;
use crate::row::Row;
use page_ids::FrameId;
use std::marker::Model;

/// Rows that are searched from the front.
#[derive(Debug, Drop)]
pub struct RowList {
    rows: Vec<Row>,
}

impl Model for RowList {
    ghost use Rattle.std.specs.Prelude.{List};
    ghost use Rattle.cert_table.specs.declared.row.Row.{Row};

    ghost Value = { List Row };

    ghost use Rattle.cert_table.specs.Table.{AreRows};

    ghost view = { λ l. l.rows.items };

    ghost invariant = { λ l. AreRows l.rows.items };
}

// The place of an id's first row.
fn place_in(rows: &[Row], id: FrameId) -> Option<usize>
    ensures { result ≡ position (λ r. id_eq r.id id) rows.now }
{
    rows.iter().position(|row| row.id == id)
}

// The first row of an id, and how many rows were compared with it: those up to it, or all.
fn first_of(rows: &[Row], id: FrameId) -> (Option<&Row>, u32)
    requires { length rows.now ≤ MOST_ROWS }
    ensures value { option_copied result.0 ≡ row_among rows.now id }
    ensures exact { result.1 ≡ rows_up_to rows.now id }
    ensures most { result.1 ≤ length rows.now }
    ensures least { 0 < length rows.now → 1 ≤ result.1 }
{
    match place_in(rows, id) {
        Some(at) => (Some(&rows[at]), at as u32 + 1),
        None => (None, rows.len() as u32),
    }
}

impl Cover for RowList {
    ghost rows = { λ l. l };

    ghost most_among = { λ n. n };

    ghost compared = { rows_up_to };

    fn of(list: Vec<Row>) -> Self {
        RowList { rows: list }
    }

    fn len(&self) -> usize {
        self.rows.len()
    }

    fn row_at(&self, i: usize) -> &Row {
        &self.rows[i]
    }

    fn row_of(&self, id: FrameId) -> Option<&Row> {
        self.rows.iter().find(|row| row.id == id)
    }

    fn rank_of(&self, id: FrameId) -> Option<u16> {
        self.row_of(id).map(|row| row.rank)
    }

    fn row_counted(&self, id: FrameId) -> (Option<&Row>, u32) {
        first_of(self.rows.as_slice(), id)
    }

    fn most(&self) -> u32 {
        self.len() as u32
    }

    ghost few = { few_up_to };

    ghost some = { some_up_to };

    ghost most_is_small = { λ n small. small };
}
