//! The frames within a number of keys of a frame.

ghost use Rattle.std.specs.Prelude.{◌≡◌, IfOk, length, option_map};
ghost use Rattle.finder.specs.Finds.{IsNear};
ghost use Rattle.finder.specs.Loops.{AreNear, is_near};

use crate::direction::Direction;
use crate::graph::Graph;
use crate::notes::Notes;
use crate::ranks::{rank_at, ranks_of};
use crate::table::WayTable;
use frame_records::{Base, Groups};
use indexmap::IndexSet;
use page_ids::FrameId;
use std::alloc::{AllocError, Global};

// Whether a rank is at most a number, if one is given.
fn is_near(rank: Option<u16>, most: Option<u16>) -> bool
    ensures { result ≡ is_near rank most }
{
    let Some(rank) = rank else {
        return false;
    };
    match most {
        Some(most) => rank <= most,
        None => true,
    }
}

// The ids of the nodes that are near.
fn near(
    alloc: Global,
    graph: &Graph<'_>,
    ranks: &[Option<u16>],
    most: Option<u16>,
) -> Result<IndexSet<FrameId>, AllocError>
    requires { length ranks.now ≡ graph.now.table.count }
    ensures { IfOk result (λ ids. AreNear graph.now ranks.now most graph.now.table.count ids.keys) }
{
    let mut ids = IndexSet::new(alloc);
    for node in 0..graph.table.count {
        if is_near(rank_at(ranks, node), most) {
            ids.insert(graph.id(node))?;
        }
    }
    Ok(ids)
}

/// The frames that at most `most` keys lead to from a frame, or from which at most this many lead to it, that frame among
/// them; without a number, any number of keys. `None` if the base lacks the frame.
///
/// Only the keys `0` to `9` and `#` are counted, and only ways to frames that a caller of exactly these groups finds; the frame
/// itself may be closed.
pub fn within(
    alloc: Global,
    base: &Base,
    groups: &Groups,
    direction: Direction,
    id: FrameId,
    most: Option<u16>,
) -> Result<Option<IndexSet<FrameId>>, AllocError>
    ensures { IfOk result (λ near. IsNear groups.now base.now direction id most (option_map (λ ids. ids.keys) near)) }
{
    let notes = Notes::of(alloc, base, groups)?;
    let Some(start) = notes.node_by_id(&id) else {
        return Ok(None);
    };
    let graph = Graph {
        table: WayTable::of(alloc, notes)?,
        start,
        direction,
    };
    let ranks = ranks_of(alloc, &graph)?;
    Ok(Some(near(alloc, &graph, ranks.as_slice(), most)?))
}
