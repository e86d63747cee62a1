ghost use Rattle.std.specs.Prelude.{◌≡◌, IfOk};
ghost use Rattle.base_map.specs.Map as spec;
ghost use Rattle.base_map.specs.Map.{IsViewed};
ghost use Rattle.base_map.specs.Loops as loops;

use crate::drawing::MapDrawing;
use finder::{Discovered, Part, View, find, part_of};
use frame_records::{Base, Groups};
use indexmap::IndexSet;
use page_ids::FrameId;
use std::alloc::{AllocError, Global};

// The ids of discovered frames.
fn ids_of(alloc: Global, found: &[Discovered]) -> Result<IndexSet<FrameId>, AllocError>
    ensures { IfOk result (λ ids. ids.keys ≡ loops.discovered_ids found.now) }
{
    let mut ids = IndexSet::with_capacity(alloc, found.len())?;
    for frame in found {
        ids.insert(frame.id)?;
    }
    Ok(ids)
}

// The frames that a caller of the groups reaches.
fn reached(alloc: Global, base: &Base, groups: &Groups) -> Result<IndexSet<FrameId>, AllocError>
    ensures { IfOk result (λ ids. spec.AreReached groups.now base.now ids.keys) }
{
    let found = find(alloc, base, groups)?;
    ids_of(alloc, found.as_slice())
}

/// The graph of the frames of a base that a part shows, for a caller of exactly these groups, as a DOT file for Graphviz.
///
/// First come the nodes of the frames in the order of their ids, each page's in a cluster; then the entry frame's if the part
/// is the whole and the base lacks it; then the nodes of what ways seek and the base lacks, in the order in which it is first
/// sought; then the edges of each frame in turn. A line has one node or one edge. An edge leads to what a way seeks if the
/// part shows it or the base lacks it.
pub fn map_text(
    alloc: Global,
    base: &Base,
    groups: &Groups,
    part: &Part,
) -> Result<Vec<u8>, AllocError>
    ensures { IfOk result (λ text. spec.IsMap base.now groups.now part.now text.items) }
{
    let drawing = MapDrawing {
        base,
        groups,
        reached: reached(alloc, base, groups)?,
        part,
    };
    let frames = base.frames();
    let mut out = Vec::new(alloc);
    out.extend_from_slice(b"digraph {\n  rankdir=LR\n  newrank=true\n  node [shape=box]\n")?;
    drawing.push_clusters(alloc, &mut out, frames)?;
    drawing.push_lost(alloc, &mut out, frames)?;
    drawing.push_edges(alloc, &mut out, frames)?;
    out.extend_from_slice(b"}\n")?;
    Ok(out)
}

/// The map of a view of a base, as `map_text` gives it; `None` if the base lacks the frame `a` of the view's page.
pub fn map_view(
    alloc: Global,
    base: &Base,
    groups: &Groups,
    view: &View,
) -> Result<Option<Vec<u8>>, AllocError>
    ensures { IfOk result (λ map. IsViewed groups.now base.now view.now map) }
{
    match part_of(alloc, base, groups, view)? {
        Some(part) => Ok(Some(map_text(alloc, base, groups, &part)?)),
        None => Ok(None),
    }
}
