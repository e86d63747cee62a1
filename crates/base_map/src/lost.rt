//! What ways seek and the base lacks.

ghost use Rattle.std.specs.Prelude.{◌≡◌, ◌++◌, OnOk, IfOk, filter};
ghost use Rattle.std.specs.List.{flat_map};
ghost use Rattle.indexmap.specs.IndexSet.{insert_all};
ghost use Rattle.page_ids.specs.Ids.{id_eq};
ghost use Rattle.base_map.specs.Edges.{is_lacked, frames_shown};
ghost use Rattle.base_map.specs.Edges as spec;

use crate::drawing::MapDrawing;
use crate::targets::targets_of;
use frame_records::{Base, Frame};
use indexmap::IndexSet;
use page_ids::{FrameId, push_id, push_page};
use std::alloc::{AllocError, Global};

// The name of a node: an outside page's number, or an id.
pub fn push_name(out: &mut Vec<u8>, base: &Base, id: FrameId) -> Result<(), AllocError>
    ensures { OnOk result (out.new.items ≡ out.old.items ++ spec.node_name base.now id) }
{
    if base.is_outside(id.page) {
        push_page(out, id.page)
    } else {
        push_id(out, id)
    }
}

// Two lines round the entry frame, the shape of an outside page, and red for what is missing.
fn push_lost_mark(out: &mut Vec<u8>, base: &Base, id: FrameId) -> Result<(), AllocError>
    ensures { OnOk result (out.new.items ≡ out.old.items ++ spec.lost_mark base.now id) }
{
    if id == base.entry_frame() {
        out.extend_from_slice(b"peripheries=2 color=red")
    } else if base.is_outside(id.page) {
        out.extend_from_slice(b"shape=ellipse")
    } else {
        out.extend_from_slice(b"color=red")
    }
}

fn push_lost_node(out: &mut Vec<u8>, base: &Base, id: FrameId) -> Result<(), AllocError>
    ensures { OnOk result (out.new.items ≡ out.old.items ++ spec.lost_line base.now id) }
{
    out.extend_from_slice(b"  \"")?;
    push_name(out, base, id)?;
    out.extend_from_slice(b"\" [")?;
    push_lost_mark(out, base, id)?;
    out.extend_from_slice(b"]\n")
}

fn push_lost_nodes(out: &mut Vec<u8>, base: &Base, ids: &[FrameId]) -> Result<(), AllocError>
    ensures { OnOk result (out.new.items ≡ out.old.items ++ flat_map (spec.lost_line base.now) ids.now) }
{
    for id in ids {
        push_lost_node(out, base, *id)?;
    }
    Ok(())
}

impl<'a> MapDrawing<'a> {
    fn add_lost(&self, targets: &[FrameId], lost: &mut IndexSet<FrameId>) -> Result<(), AllocError>
        ensures { OnOk result
            (lost.new.keys ≡ insert_all id_eq lost.old.keys (filter (is_lacked self.now.base) targets.now)) }
    {
        for to in targets {
            if self.lacks(*to) {
                lost.insert(*to)?;
            }
        }
        Ok(())
    }

    // The entry frame, if it is shown and the base lacks it.
    fn lost_entry(&self, alloc: Global) -> Result<IndexSet<FrameId>, AllocError>
        ensures { IfOk result (λ lost. lost.keys ≡ spec.lost_entry self.now) }
    {
        let mut lost = IndexSet::new(alloc);
        let entry = self.base.entry_frame();
        if self.part.shows(entry) && self.lacks(entry) {
            lost.insert(entry)?;
        }
        Ok(lost)
    }

    // These ids, and what the ways of the frames that are shown seek and the base lacks, each once, in the order in which it
    // is first sought.
    fn with_lost(
        &self,
        alloc: Global,
        frames: &[Frame],
        first: IndexSet<FrameId>,
    ) -> Result<IndexSet<FrameId>, AllocError>
        ensures { IfOk result (λ lost. lost.keys ≡
            insert_all id_eq first.keys (flat_map (spec.lost_of self.now.base) (frames_shown self.now frames.now))) }
    {
        let mut lost = first;
        for frame in frames {
            if self.part.shows(frame.id) {
                self.add_lost(targets_of(alloc, frame)?.as_slice(), &mut lost)?;
            }
        }
        Ok(lost)
    }

    // Writes the nodes of the entry frame and of what ways seek.
    pub fn push_lost(
        &self,
        alloc: Global,
        out: &mut Vec<u8>,
        frames: &[Frame],
    ) -> Result<(), AllocError>
        ensures { OnOk result (out.new.items
            ≡ out.old.items ++ spec.lost_lines self.now (frames_shown self.now frames.now)) }
    {
        let first = self.lost_entry(alloc)?;
        let lost = self.with_lost(alloc, frames, first)?;
        push_lost_nodes(out, self.base, lost.as_slice())
    }
}
