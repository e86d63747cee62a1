//! The ways on from a frame: each is sought once among the rows, and the row that was found serves the way down too.

ghost use Rattle.std.specs.Prelude.{◌≡◌, ◌≤◌, ◌+◌, ◌||◌, Some, None, length, is_some, if◌then◌else◌};
ghost use Rattle.page_ids.specs.Ways.{way_at};
ghost use Rattle.frame_records.specs.Bases.{IsBase};
ghost use Rattle.cert_table.specs.declared.limits.TheConstants.{MOST_ROWS};
ghost use Rattle.checker.specs.Loops.{IsAbsent, IsWayCheck, AreWayChecks};

use crate::cover::seek_row;
use cert_table::{Certificate, Cover};
use frame_records::{Base, Frame};
use page_ids::{PageNo, Way};

// The result of a way: whether it leads outside or to a row, whether to a row of lower rank, and how much was compared.
#[derive(Clone, Copy)]
pub struct WayCheck {
    pub leads_on: bool,
    pub down: bool,
    pub asked: u64,
}

// The result of the ways of a frame: the first that leads nowhere, whether one leads down, and how much was compared.
#[derive(Clone, Copy)]
pub struct WayChecks {
    pub lost: Option<Way>,
    pub down: bool,
    pub asked: u64,
}

// A way whose frame has no row: a route may lead to an outside page.
fn over_absent(base: &Base, way: &Way, page: PageNo, asked: u32) -> WayCheck
    ensures { IsAbsent base.now way.now page asked result }
{
    match way {
        Way::Route(_) => {
            let (leads_on, more) = base.is_outside_counted(page);
            WayCheck {
                leads_on,
                down: false,
                asked: u64::from(asked) + u64::from(more),
            }
        }
        Way::Next => WayCheck {
            leads_on: false,
            down: false,
            asked: u64::from(asked),
        },
    }
}

// A way of a frame, for a row of this rank.
fn over_way<C: Cover + Drop>(
    base: &Base,
    cert: &Certificate<C>,
    rank: u16,
    frame: &Frame,
    way: &Way,
) -> WayCheck
    ensures { IsWayCheck C.compared base.now cert.now.rows rank frame.now way.now result }
{
    let Some(to) = frame.sought(*way) else {
        return WayCheck {
            leads_on: true,
            down: false,
            asked: 0,
        };
    };
    let (row, asked) = seek_row(cert, to);
    match row {
        Some(row) => WayCheck {
            leads_on: true,
            down: row.rank < rank,
            asked: u64::from(asked),
        },
        None => over_absent(base, way, to.page, asked),
    }
}

// The ways so far, and the one at the next place.
fn with_check(seen: WayChecks, place: u8, check: WayCheck) -> WayChecks
    ensures lost { result.lost ≡ (if is_some seen.lost then seen.lost
        else if check.leads_on then None else Some (way_at place)) }
    ensures down { result.down ≡ (seen.down || check.down) }
    ensures asked { seen.asked + check.asked ≤ 18446744073709551615 → result.asked ≡ seen.asked + check.asked }
{
    WayChecks {
        lost: match seen.lost {
            None if !check.leads_on => Some(Way::at(place)),
            lost => lost,
        },
        down: seen.down || check.down,
        asked: seen.asked.saturating_add(check.asked),
    }
}

// All ways of a frame, for a row of this rank.
pub fn over_ways<C: Cover + Drop>(
    base: &Base,
    cert: &Certificate<C>,
    rank: u16,
    frame: &Frame,
) -> WayChecks
    requires few { length cert.now.rows ≤ MOST_ROWS }
    requires valid { IsBase base.now }
    ensures { AreWayChecks C.compared base.now cert.now.rows rank frame.now 11 result }
{
    let mut seen = WayChecks {
        lost: None,
        down: false,
        asked: 0,
    };
    for place in 0..Way::COUNT {
        let check = over_way(base, cert, rank, frame, &Way::at(place));
        seen = with_check(seen, place, check);
    }
    seen
}
