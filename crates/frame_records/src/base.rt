ghost use Rattle.std.specs.Prelude.{◌≡◌, ◌<◌, ◌≤◌, length};
ghost use Rattle.std.specs.Option.{option_copied};
ghost use Rattle.frame_records.specs.Bases.{IsBase, frame_at, frames_compared, lists_outside, pages_compared, IsBuilt, BasesAreOne};
ghost use Rattle.frame_records.specs.Seek.{seek, entry_of};

use crate::build::{BuildFault, are_too_many, first_fault, sort};
use crate::frame::Frame;
use crate::groups::Groups;
use crate::numbers::Pence;
use crate::sorted::{find_among, is_among};
use page_ids::{FrameId, PageNo};
use std::marker::Model;

/// The result of seeking an id, for a caller.
#[derive(Debug, Clone, Copy, PartialEq, Eq)]
pub enum Sought {
    /// The base has the frame and it is open to the caller; its price.
    Found(Pence),
    /// The base has the frame and it isn't open to the caller.
    Closed,
    /// The base lacks the frame.
    Missing,
}

/// A page base. Contracts see its entry page, its outside pages and its frames, both ascending.
#[derive(Debug, Drop)]
pub struct Base {
    entry: PageNo,
    outside: Vec<PageNo>,
    frames: Vec<Frame>,
}

impl Model for Base {
    ghost use Rattle.frame_records.specs.Bases.{BaseView, IsBase};

    ghost Value = { BaseView };

    ghost view = { λ b. record { entry = b.entry; outside = b.outside.items; frames = b.frames.items } };

    ghost invariant = { λ b. IsBase (record { entry = b.entry; outside = b.outside.items; frames = b.frames.items }) };
}

impl Base {
    /// The base of these frames and outside pages, in any order; an outside page that is listed twice counts once.
    ///
    /// Takes no memory: both lists are sorted in place, and after a refusal they are dropped.
    pub fn build(
        entry: PageNo,
        mut outside: Vec<PageNo>,
        mut frames: Vec<Frame>,
    ) -> Result<Base, BuildFault>
        ensures { IsBuilt entry outside.items frames.items result }
    {
        if are_too_many(outside.as_slice(), frames.as_slice()) {
            return Err(BuildFault::TooMany);
        }
        sort(&mut outside, &mut frames);
        match first_fault(outside.as_slice(), frames.as_slice()) {
            Some(fault) => Err(fault),
            None => Ok(Base {
                entry,
                outside,
                frames,
            }),
        }
    }

    /// The base of outside pages and frames that are in order and of which none is refused. Takes no memory.
    pub fn of_sorted(entry: PageNo, outside: Vec<PageNo>, frames: Vec<Frame>) -> Base
        requires { IsBase (record { entry = entry; outside = outside.items; frames = frames.items }) }
        ensures entry { result.entry ≡ entry }
        ensures outside { result.outside ≡ outside.items }
        ensures frames { result.frames ≡ frames.items }
    {
        Base {
            entry,
            outside,
            frames,
        }
    }

    /// The frame of an id; `None` if the base lacks it.
    pub fn find(&self, id: FrameId) -> Option<&Frame>
        ensures { option_copied result ≡ frame_at self.now id }
    {
        self.find_counted(id).0
    }

    /// The frame of an id, `None` if the base lacks it, and how many frames were compared with it: at most 16. Takes no
    /// memory.
    pub fn find_counted(&self, id: FrameId) -> (Option<&Frame>, u32)
        ensures value { option_copied result.0 ≡ frame_at self.now id }
        ensures exact { result.1 ≡ frames_compared self.now.frames id }
        ensures most { result.1 ≤ 16 }
        ensures least { 0 < length self.now.frames → 1 ≤ result.1 }
        ensures valid { IsBase self.now }
    {
        find_among(self.frames.as_slice(), id)
    }

    /// Seeks a frame for a caller of these groups.
    pub fn seek(&self, id: FrameId, groups: &Groups) -> Sought
        ensures { result ≡ seek groups.now self.now id }
    {
        let Some(frame) = self.find(id) else {
            return Sought::Missing;
        };
        if frame.is_open(groups) {
            Sought::Found(frame.price)
        } else {
            Sought::Closed
        }
    }

    /// Whether a page is listed as outside.
    pub fn is_outside(&self, page: PageNo) -> bool
        ensures { result ≡ lists_outside self.now page }
    {
        self.is_outside_counted(page).0
    }

    /// Whether a page is listed as outside, and how many pages were compared with it: at most 16. Takes no memory.
    pub fn is_outside_counted(&self, page: PageNo) -> (bool, u32)
        ensures value { result.0 ≡ lists_outside self.now page }
        ensures exact { result.1 ≡ pages_compared self.now.outside page }
        ensures most { result.1 ≤ 16 }
        ensures least { 0 < length self.now.outside → 1 ≤ result.1 }
    {
        is_among(self.outside.as_slice(), page)
    }

    /// The frames, in the order of their ids.
    pub fn frames(&self) -> &[Frame]
        ensures all { result.now ≡ self.now.frames }
        ensures valid { IsBase self.now }
    {
        self.frames.as_slice()
    }

    /// The entry page.
    pub fn entry(&self) -> PageNo
        ensures value { result ≡ self.now.entry }
        ensures valid { IsBase self.now }
    {
        self.entry
    }

    /// The frame at which every session begins: the entry page's frame `a`.
    pub fn entry_frame(&self) -> FrameId
        ensures value { result ≡ entry_of self.now }
        ensures valid { IsBase self.now }
    {
        FrameId::first(self.entry)
    }
}

/// An entry and two lists make one base.
pub fn bases_are_one()
    ensures { BasesAreOne }
{}
