//! The ways on from a frame: what each seeks, and where it leads.

ghost use Rattle.std.specs.Prelude.{◌≡◌};
ghost use Rattle.frame_records.specs.Ways.{next_sought, sought, missing_by, destination_of};

use crate::base::{Base, Sought};
use crate::frame::Frame;
use crate::groups::Groups;
use crate::numbers::Pence;
use page_ids::{FrameId, PageNo, Way};

/// Where a way of a frame leads, for a caller.
#[derive(Debug, Clone, Copy, PartialEq, Eq)]
pub enum Destination {
    /// The frame doesn't offer the way.
    NotOffered,
    /// The base has the frame that is sought and it is open to the caller; its price.
    Found(FrameId, Pence),
    /// The base has the frame and it isn't open to the caller.
    Closed(FrameId),
    /// The base lacks the frame.
    Missing(FrameId),
    /// The base lacks the frame of a route's page, and the page is listed as outside.
    Outside(PageNo),
}

impl Frame {
    // The frame of the following letter, if `next` offers it.
    fn following(&self) -> Option<FrameId>
        ensures { result ≡ next_sought self.now }
    {
        if self.next { self.id.following() } else { None }
    }

    /// The frame that a way seeks, if the frame offers it: a route its page's frame `a`, `#` that of the following
    /// letter.
    pub fn sought(&self, way: Way) -> Option<FrameId>
        ensures { result ≡ sought self.now way }
    {
        match way {
            Way::Route(digit) => self.routes[digit.get() as usize].map(FrameId::first),
            Way::Next => self.following(),
        }
    }
}

impl Base {
    // A frame that a way seeks and the base lacks.
    fn missing(&self, way: &Way, id: FrameId) -> Destination
        ensures { result ≡ missing_by self.now way.now id }
    {
        match way {
            Way::Route(_) if self.is_outside(id.page) => Destination::Outside(id.page),
            _ => Destination::Missing(id),
        }
    }

    /// Where a way of a frame leads, for a caller of these groups.
    pub fn follow(&self, frame: &Frame, way: Way, groups: &Groups) -> Destination
        ensures { result ≡ destination_of groups.now self.now frame.now way }
    {
        let Some(id) = frame.sought(way) else {
            return Destination::NotOffered;
        };
        match self.seek(id, groups) {
            Sought::Found(price) => Destination::Found(id, price),
            Sought::Closed => Destination::Closed(id),
            Sought::Missing => self.missing(&way, id),
        }
    }
}
