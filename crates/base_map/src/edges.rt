//! An edge for each pair of a frame and what its ways seek.

ghost use Rattle.std.specs.Prelude.{◌≡◌, ◌++◌, true, OnOk};
ghost use Rattle.std.specs.List.{flat_map};
ghost use Rattle.base_map.specs.Edges.{frames_shown};
ghost use Rattle.base_map.specs.Edges as spec;

use crate::drawing::MapDrawing;
use crate::lost::push_name;
use crate::targets::targets_of;
use frame_records::Frame;
use page_ids::{FrameId, Way, push_id, push_key};
use std::alloc::{AllocError, Global};

// The keys of a frame's ways that seek an id, with a space between them.
fn push_keys_to(out: &mut Vec<u8>, frame: &Frame, to: FrameId) -> Result<(), AllocError>
    ensures { OnOk result (out.new.items ≡ out.old.items ++ spec.spaced_keys true (spec.keys_to frame.now to)) }
{
    let mut is_first = true;
    for place in 0..Way::COUNT {
        if frame.sought(Way::at(place)) == Some(to) {
            if !is_first {
                out.push(b' ')?;
            }
            push_key(out, Way::at(place).key())?;
            is_first = false;
        }
    }
    Ok(())
}

impl<'a> MapDrawing<'a> {
    fn push_edge(&self, out: &mut Vec<u8>, frame: &Frame, to: FrameId) -> Result<(), AllocError>
        ensures { OnOk result (out.new.items ≡ out.old.items ++ spec.edge_line self.now frame.now to) }
    {
        out.extend_from_slice(b"  \"")?;
        push_id(out, frame.id)?;
        out.extend_from_slice(b"\" -> \"")?;
        push_name(out, self.base, to)?;
        out.extend_from_slice(b"\" [label=\"")?;
        push_keys_to(out, frame, to)?;
        out.extend_from_slice(b"\"]\n")
    }

    fn push_edges_to(
        &self,
        out: &mut Vec<u8>,
        frame: &Frame,
        targets: &[FrameId],
    ) -> Result<(), AllocError>
        ensures { OnOk result (out.new.items ≡ out.old.items ++ spec.lines_to self.now frame.now targets.now) }
    {
        for to in targets {
            if self.has_node(*to) {
                self.push_edge(out, frame, *to)?;
            }
        }
        Ok(())
    }

    // Writes the edges of the frames that are shown.
    pub fn push_edges(
        &self,
        alloc: Global,
        out: &mut Vec<u8>,
        frames: &[Frame],
    ) -> Result<(), AllocError>
        ensures { OnOk result (out.new.items ≡ out.old.items
            ++ flat_map (spec.edge_lines_of self.now) (frames_shown self.now frames.now)) }
    {
        for frame in frames {
            if self.part.shows(frame.id) {
                self.push_edges_to(out, frame, targets_of(alloc, frame)?.as_slice())?;
            }
        }
        Ok(())
    }
}
