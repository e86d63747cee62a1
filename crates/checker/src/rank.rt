ghost use Rattle.std.specs.Prelude.{◌≡◌, true, option_map};
ghost use Rattle.checker.specs.Conditions.{◌otherwise◌};
ghost use Rattle.checker.specs.Verdict.{lost_cause, on_rank};

use crate::verdict::Cause;
use frame_records::Base;
use page_ids::{FrameId, Way};

// K13 and K14, by whether some way leads down.
fn rank_cause(base: &Base, id: FrameId, rank: u16, down: bool) -> Option<Cause>
    ensures { result ≡ (on_rank base.now id rank down (down ≡ true)).first_cause }
{
    if rank == 0 {
        if id == base.entry_frame() {
            None
        } else {
            Some(Cause::RankZero(id))
        }
    } else if down {
        None
    } else {
        Some(Cause::NoWayDown(id))
    }
}

// K11 of a route that leads nowhere, K12 of next.
fn lost_cause(id: FrameId, way: &Way) -> Cause
    ensures { result ≡ lost_cause id way.now }
{
    match way {
        Way::Route(digit) => Cause::RouteNotCovered(id, *digit),
        Way::Next => Cause::NextNotCovered(id),
    }
}

// K11 to K14, by the first way that leads nowhere, and whether some way leads down.
pub fn ways_cause(
    base: &Base,
    id: FrameId,
    rank: u16,
    lost: Option<Way>,
    down: bool,
) -> Option<Cause>
    ensures { result ≡ (option_map (lost_cause id) lost otherwise
        (on_rank base.now id rank down (down ≡ true)).first_cause) }
{
    match lost {
        Some(way) => Some(lost_cause(id, &way)),
        None => rank_cause(base, id, rank, down),
    }
}
