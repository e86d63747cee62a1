//! The result of each way of each frame of a base. Each is looked up once.

ghost use Rattle.std.specs.Prelude.{◌≡◌, ◌<◌, ◌≤◌, ◌+◌, ◌*◌, Some, OnOk, IfOk, map, length, get_or, slice_get};
ghost use Rattle.page_ids.specs.Ways.{way_at};
ghost use Rattle.frame_records.specs.Bases.{IsBase};
ghost use Rattle.frame_records.specs.Ways.{destination_of};
ghost use Rattle.frame_records.specs.declared.frame.Frame.{Frame};
ghost use Rattle.finder.specs.Loops.WayTargets.{lost_to, AreTargets, IsAdded};

use crate::aim::Aim;
use crate::notes::Notes;
use crate::target::WayTarget;
use frame_records::{Base, Destination, Groups};
use page_ids::{FrameId, Way};
use std::alloc::{AllocError, Global};

// The results of ways: the node that each finds, and the aim of each that finds none.
#[derive(Drop)]
pub struct Targets {
    pub nodes: Vec<u16>,
    pub aims: Vec<Aim>,
}

// No node, since a base has at most this many frames.
const NOWHERE: u16 = u16::MAX;

// A way's number in the order of the ways.
fn number_of(way: &Way) -> u8
    ensures way { way_at result ≡ way.now }
    ensures within { result < 11 }
{
    match way {
        Way::Route(digit) => digit.get(),
        Way::Next => 10,
    }
}

// The slot of a way of a node in a table.
fn way_slot(node: u16, way: u8) -> usize
    ensures { result ≡ node * 11 + way }
{
    node as usize * Way::COUNT as usize + way as usize
}

// The destination of a way that finds no frame, by its aim and the frame that it seeks.
fn lost_to(aim: Aim, sought: Option<FrameId>) -> Destination
    ensures { result ≡ lost_to aim sought }
{
    let Some(to) = sought else {
        return Destination::NotOffered;
    };
    match aim {
        Aim::Closed => Destination::Closed(to),
        Aim::Missing => Destination::Missing(to),
        Aim::Outside => Destination::Outside(to.page),
        Aim::NotOffered | Aim::Found => Destination::NotOffered,
    }
}

impl Targets {
    // Adds the result of the next way.
    fn add(&mut self, target: WayTarget) -> Result<(), AllocError>
        requires { length self.old.nodes.items < length self.old.aims.items }
        ensures { OnOk result (IsAdded self.old self.new target) }
    {
        match target.node() {
            Some(node) => self.nodes.push(node)?,
            None => {
                let slot = self.nodes.len();
                self.aims[slot] = target.aim();
                self.nodes.push(NOWHERE)?;
            }
        }
        Ok(())
    }

    // Adds the result of each way of a node.
    fn add_frame(&mut self, notes: &Notes<'_>, node: u16) -> Result<(), AllocError>
        requires few { length notes.now.base.now.frames ≤ 65535 }
        requires inside { node < length notes.now.base.now.frames }
        requires targets { AreTargets notes.now.groups.now notes.now.base.now (node * 11) self.old }
        ensures { OnOk result (AreTargets notes.now.groups.now notes.now.base.now ((node + 1) * 11) self.new) }
    {
        let frame = &notes.base.frames()[node as usize];
        for way in 0..Way::COUNT {
            self.add(notes.target_of(frame, Way::at(way)))?;
        }
        Ok(())
    }
}

/// The result of each way of each frame of a base for a caller of the groups: eleven a frame, in the order of the
/// frames. A node is a frame's position in the base.
#[derive(Drop)]
pub struct WayTable<'a> {
    pub base: &'a Base,
    pub groups: &'a Groups,
    pub count: u16,
    // The id of each frame, close together.
    pub ids: Vec<FrameId>,
    pub targets: Targets,
    pub ghost nodes: { count ≡ length base.now.frames },
    pub ghost named: { ids.items ≡ map (λ f. f.id) base.now.frames },
    pub ghost valid: { IsBase base.now },
    pub ghost whole: { AreTargets groups.now base.now (count * 11) targets },
}

impl<'a> WayTable<'a> {
    // The table of a base.
    pub fn of(alloc: Global, notes: Notes<'a>) -> Result<WayTable<'a>, AllocError>
        ensures base { IfOk result (λ t. t.base.now ≡ notes.entry.base.now) }
        ensures groups { IfOk result (λ t. t.groups.now ≡ notes.entry.groups.now) }
    {
        let count = notes.base.frames().len() as u16;
        let ways = count as usize * Way::COUNT as usize;
        let mut targets = Targets {
            nodes: Vec::with_capacity(alloc, ways)?,
            aims: vec![in alloc; Aim::NotOffered; ways]?,
        };
        for node in 0..count {
            targets.add_frame(&notes, node)?;
        }
        let Notes {
            base,
            groups,
            ids,
            ..
        } = notes;
        Ok(WayTable {
            base,
            groups,
            count,
            ids,
            targets,
        })
    }

    // The node to which a way of a node leads; `NOWHERE` if it leads to none.
    pub fn node_to(&self, from: u16, way: u8) -> u16
        requires is_node { from < self.now.count }
        requires is_way { way < 11 }
        ensures { result ≡ get_or self.now.targets.nodes.items (from * 11 + way) 0 }
    {
        self.targets.nodes[way_slot(from, way)]
    }

    // The destination of a way of a node. Nothing is sought.
    pub fn follow(&self, from: u16, way: &Way) -> Destination
        requires { from < self.now.count }
        ensures { (f : Frame) → slice_get self.now.base.now.frames from ≡ Some f →
            result ≡ destination_of self.now.groups.now self.now.base.now f way.now }
    {
        let number = number_of(way);
        let node = self.node_to(from, number);
        let frames = self.base.frames();
        if node < self.count {
            let frame = &frames[node as usize];
            Destination::Found(frame.id, frame.price)
        } else {
            let aim = self.targets.aims[way_slot(from, number)];
            lost_to(aim, frames[from as usize].sought(*way))
        }
    }
}
