//! The nodes of frames, by pages.

ghost use Rattle.std.specs.Prelude.{◌≡◌, ◌++◌, OnOk, Some, None};
ghost use Rattle.base_map.specs.Edges.{frames_shown};
ghost use Rattle.base_map.specs.Nodes as spec;

use crate::drawing::MapDrawing;
use crate::title::push_title;
use frame_records::Frame;
use page_ids::{PageNo, push_id, push_number, push_page};
use std::alloc::{AllocError, Global};

// The id, the title and the price.
fn push_label(alloc: Global, out: &mut Vec<u8>, frame: &Frame) -> Result<(), AllocError>
    ensures { OnOk result (out.new.items ≡ out.old.items ++ spec.label frame.now) }
{
    push_id(out, frame.id)?;
    push_title(alloc, out, frame.body.as_slice())?;
    out.extend_from_slice(b"\\nPRICE ")?;
    push_number(out, frame.price.get() as u64)
}

// Begins the cluster of a page.
fn push_open(out: &mut Vec<u8>, page: PageNo) -> Result<(), AllocError>
    ensures { OnOk result (out.new.items ≡ out.old.items ++ spec.opened page) }
{
    out.extend_from_slice(b"  subgraph cluster_")?;
    push_page(out, page)?;
    out.extend_from_slice(b" {\n    label=")?;
    push_page(out, page)?;
    out.extend_from_slice(b"\n")
}

// Ends the cluster of a page, if there is one.
fn push_close(out: &mut Vec<u8>, page: Option<PageNo>) -> Result<(), AllocError>
    ensures { OnOk result (out.new.items ≡ out.old.items ++ spec.closed page) }
{
    match page {
        Some(_) => out.extend_from_slice(b"  }\n"),
        None => Ok(()),
    }
}

// Ends the cluster of a page, and begins that of the next, if it is another.
fn push_turn(out: &mut Vec<u8>, before: Option<PageNo>, page: PageNo) -> Result<(), AllocError>
    ensures { OnOk result (out.new.items ≡ out.old.items ++ spec.page_turned before page) }
{
    if before == Some(page) {
        return Ok(());
    }
    push_close(out, before)?;
    push_open(out, page)
}

impl<'a> MapDrawing<'a> {
    // How a frame's node is drawn: the entry frame has two lines round it, what is closed is red, what isn't reached is
    // dashed.
    fn push_marks(&self, out: &mut Vec<u8>, frame: &Frame) -> Result<(), AllocError>
        ensures { OnOk result (out.new.items ≡ out.old.items ++ spec.node_marks self.now frame.now) }
    {
        if frame.id == self.base.entry_frame() {
            out.extend_from_slice(b" peripheries=2")?;
        }
        if !frame.is_open(self.groups) {
            out.extend_from_slice(b" color=red")?;
        }
        if !self.reaches(frame.id) {
            out.extend_from_slice(b" style=dashed")?;
        }
        Ok(())
    }

    fn push_node(&self, alloc: Global, out: &mut Vec<u8>, frame: &Frame) -> Result<(), AllocError>
        ensures { OnOk result (out.new.items ≡ out.old.items ++ spec.node_line self.now frame.now) }
    {
        out.extend_from_slice(b"    \"")?;
        push_id(out, frame.id)?;
        out.extend_from_slice(b"\" [label=\"")?;
        push_label(alloc, out, frame)?;
        out.extend_from_slice(b"\"")?;
        self.push_marks(out, frame)?;
        out.extend_from_slice(b"]\n")
    }

    // Writes the nodes of the frames that are shown, each page's in a cluster.
    pub fn push_clusters(
        &self,
        alloc: Global,
        out: &mut Vec<u8>,
        frames: &[Frame],
    ) -> Result<(), AllocError>
        ensures { OnOk result (out.new.items ≡ out.old.items
            ++ spec.cluster_lines self.now None (frames_shown self.now frames.now)) }
    {
        let mut page = None;
        for frame in frames {
            if self.part.shows(frame.id) {
                push_turn(out, page, frame.id.page)?;
                self.push_node(alloc, out, frame)?;
                page = Some(frame.id.page);
            }
        }
        push_close(out, page)
    }
}
