ghost use Rattle.std.specs.Prelude.{◌≡◌, ◌∷◌, [], ◌++◌, Some, IfOk, OnOk, reverse};
ghost use Rattle.frame_screens.specs.Frames.{last_frame, sent_by};

use page_ids::FrameId;
use session_machine::Reply;
use std::alloc::{AllocError, Global};
use std::marker::Model;

/// Frames in the order in which they are sent; at least one. Contracts see the list.
#[derive(Debug, Drop)]
pub struct FrameList {
    ids: Vec<FrameId>,
}

impl Model for FrameList {
    ghost use Rattle.std.specs.Prelude.{List, ◌<◌, length};
    ghost use Rattle.page_ids.specs.Ids.{Id};

    ghost Value = { List Id };

    ghost view = { λ l. l.ids.items };

    ghost invariant = { λ l. 0 < length l.ids.items };
}

impl FrameList {
    /// One frame.
    pub fn of(alloc: Global, id: FrameId) -> Result<FrameList, AllocError>
        ensures { IfOk result (λ list. list ≡ id ∷ []) }
    {
        let mut ids = Vec::new(alloc);
        ids.push(id)?;
        Ok(FrameList { ids })
    }

    // Adds a frame at the end.
    pub(crate) fn push(&mut self, id: FrameId) -> Result<(), AllocError>
        ensures { OnOk result (self.new ≡ self.old ++ id ∷ []) }
    {
        self.ids.push(id)?;
        Ok(())
    }

    // Reverses the order.
    pub(crate) fn reverse(&mut self)
        ensures { self.new ≡ reverse self.old }
    {
        self.ids.reverse();
    }

    // Adds the frame that a reply sends, if it sends one.
    pub(crate) fn push_sent(&mut self, reply: &Reply) -> Result<(), AllocError>
        ensures { OnOk result (self.new ≡ self.old ++ sent_by reply.now) }
    {
        match reply {
            Reply::Shown(id, _) | Reply::Again(id) => self.push(*id),
            Reply::NotOffered | Reply::Missing(_) | Reply::Closed(_) | Reply::Gone(_) => Ok(()),
        }
    }

    /// The frames, in order.
    pub fn as_slice(&self) -> &[FrameId]
        ensures { result.now ≡ self.now }
    {
        self.ids.as_slice()
    }

    /// The frame that is sent last.
    pub fn last(&self) -> FrameId
        ensures { last_frame self.now ≡ Some result }
    {
        self.ids[self.ids.len() - 1]
    }
}
