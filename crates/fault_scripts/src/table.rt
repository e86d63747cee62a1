ghost use Rattle.std.specs.Prelude.{◌≡◌, ◌++◌, [], OnOk, max, unwrap_or};
ghost use Rattle.fault_scripts.specs.Loops.{row_if_clean};

use abstract_paint::Painted;
use cert_table::Row;
use frame_records::Pence;
use page_ids::FrameId;
use std::alloc::{AllocError, Global};

// The rows of a certificate as they are gathered, with the greatest price and the greatest rank so far.
#[derive(Drop)]
pub struct GatheredRows {
    pub rows: Vec<Row>,
    pub ceiling: Pence,
    pub keyings: u16,
}

// The greater of two prices.
fn dearer(a: Pence, b: Pence) -> Pence
    ensures { result ≡ max a b }
{
    if a < b { b } else { a }
}

// The greater of the rank so far and another, if there is one.
fn farther(keyings: u16, rank: Option<u16>) -> u16
    ensures { result ≡ max keyings (unwrap_or rank 0) }
{
    match rank {
        Some(rank) if keyings < rank => rank,
        _ => keyings,
    }
}

// Adds the row of a frame that has a rank and is clean.
fn push_row(
    rows: &mut Vec<Row>,
    id: FrameId,
    rank: Option<u16>,
    painted: Painted,
) -> Result<(), AllocError>
    ensures { OnOk result (rows.new.items ≡ rows.old.items ++ row_if_clean id rank painted) }
{
    match (rank, painted) {
        (Some(rank), Painted::Clean(cursor)) => {
            rows.push(Row { id, rank, cursor })?;
            Ok(())
        }
        _ => Ok(()),
    }
}

impl GatheredRows {
    // An empty table.
    pub fn new(alloc: Global) -> GatheredRows
        ensures rows { result.rows.items ≡ [] }
        ensures ceiling { result.ceiling ≡ 0 }
        ensures keyings { result.keyings ≡ 0 }
    {
        GatheredRows {
            rows: Vec::new(alloc),
            ceiling: Pence::FREE,
            keyings: 0,
        }
    }

    // With one frame more.
    pub fn add(
        &mut self,
        id: FrameId,
        rank: Option<u16>,
        price: Pence,
        painted: Painted,
    ) -> Result<(), AllocError>
        ensures rows { OnOk result (self.new.rows.items ≡ self.old.rows.items ++ row_if_clean id rank painted) }
        ensures ceiling { OnOk result (self.new.ceiling ≡ max self.old.ceiling price) }
        ensures keyings { OnOk result (self.new.keyings ≡ max self.old.keyings (unwrap_or rank 0)) }
    {
        push_row(&mut self.rows, id, rank, painted)?;
        self.ceiling = dearer(self.ceiling, price);
        self.keyings = farther(self.keyings, rank);
        Ok(())
    }
}
