ghost use Rattle.std.specs.Prelude.{◌≡◌, length, slice_get};
ghost use Rattle.page_ids.specs.declared.key.Key.TheVariants.{Prev, Reprint, Update};
ghost use Rattle.page_ids.specs.Ways.{way_key};
ghost use Rattle.frame_records.specs.Bases.{BaseView};
ghost use Rattle.session_machine.specs.Sessions.{IsOpened, present, left_for, remembered_of, key_step};

use crate::reply::Reply;
use circular_buffer::HeapCircularBuffer;
use frame_records::{Base, Destination, Groups, Sought};
use page_ids::{FrameId, Key, PageNo, Way};
use std::alloc::Global;
use std::marker::Model;
use thiserror::Error;

/// Why no session is opened.
#[derive(Debug, Clone, Copy, PartialEq, Eq, Error)]
pub enum OpenFault {
    /// S1: the base lacks the entry page's frame `a`.
    #[error("the entry frame is missing")]
    EntryMissing,
    /// S2: the entry page's frame `a` isn't open to the caller.
    #[error("the entry frame is closed")]
    EntryClosed,
    /// A growth was refused.
    #[error("memory refused")]
    Memory,
}

#[derive(Clone, Copy)]
enum Whereabouts {
    At(FrameId),
    Left(PageNo),
}

/// The session of a caller. Contracts see the caller's closed user groups, and where the caller is.
///
/// The groups are those that it was opened with, for all its keys. The three frames left last are remembered; the room
/// for them is taken when the session is opened, and no key takes memory.
#[derive(Drop)]
pub struct Session {
    groups: Groups,
    whereabouts: Whereabouts,
    // The latest at the front.
    remembered: HeapCircularBuffer<FrameId>,
}

impl Model for Session {
    ghost use Rattle.session_machine.specs.Sessions.{SessionView};

    ghost Value = { SessionView };

    ghost use Rattle.session_machine.specs.Sessions.{session_view, IsRing};

    ghost view = { session_view };

    ghost invariant = { IsRing };
}

impl Session {
    /// Begins the session of a caller of these groups at the entry page's frame `a`, with the reply that shows it.
    pub fn open(alloc: Global, base: &Base, groups: &Groups) -> Result<(Session, Reply), OpenFault>
        ensures { IsOpened groups.now base.now result }
    {
        let entry = base.entry_frame();
        match base.seek(entry, groups) {
            Sought::Missing => Err(OpenFault::EntryMissing),
            Sought::Closed => Err(OpenFault::EntryClosed),
            Sought::Found(price) => {
                let remembered = HeapCircularBuffer::with_capacity(alloc, 3).map_err(
                    |_| OpenFault::Memory,
                )?;
                let session = Session {
                    groups: groups.copy(),
                    whereabouts: Whereabouts::At(entry),
                    remembered,
                };
                Ok((session, Reply::Shown(entry, price)))
            }
        }
    }

    /// Handles a key against a base, which may be another one than before. Takes no memory.
    pub fn key(&mut self, base: &Base, key: Key) -> Reply
        ensures step { (self.new.state, result) ≡ key_step self.old.groups base.now self.old.state key }
        ensures groups { self.new.groups ≡ self.old.groups }
    {
        match key {
            Key::Route(digit) => self.go(base, Way::Route(digit)),
            Key::Next => self.go(base, Way::Next),
            Key::Prev => self.previous(base),
            Key::Reprint => self.reprint(),
            Key::Update => self.update(base),
        }
    }

    /// The present frame; `None` if the caller left.
    pub fn at(&self) -> Option<FrameId>
        ensures { result ≡ present self.now.state }
    {
        match self.whereabouts {
            Whereabouts::At(id) => Some(id),
            Whereabouts::Left(_) => None,
        }
    }

    /// The outside page for which the caller left; `None` while the caller is at a frame.
    pub fn left(&self) -> Option<PageNo>
        ensures { result ≡ left_for self.now.state }
    {
        match self.whereabouts {
            Whereabouts::At(_) => None,
            Whereabouts::Left(page) => Some(page),
        }
    }

    /// How many frames are remembered, 0 to 3; none if the caller left.
    pub fn remembered(&self) -> usize
        ensures { result ≡ length (remembered_of self.now.state) }
    {
        match self.whereabouts {
            Whereabouts::At(_) => self.remembered.len(),
            Whereabouts::Left(_) => 0,
        }
    }

    /// A remembered frame, the latest at 0; `None` after the last, and if the caller left.
    pub fn remembered_at(&self, i: usize) -> Option<FrameId>
        ensures { result ≡ slice_get (remembered_of self.now.state) i }
    {
        match self.whereabouts {
            Whereabouts::At(_) => self.remembered.get(i).copied(),
            Whereabouts::Left(_) => None,
        }
    }

    // A way of the present frame: a digit's route, or `#`.
    fn go(&mut self, base: &Base, way: Way) -> Reply
        ensures step { (self.new.state, result) ≡ key_step self.old.groups base.now self.old.state (way_key way) }
        ensures groups { self.new.groups ≡ self.old.groups }
    {
        let Some(id) = self.at() else {
            return Reply::NotOffered;
        };
        let Some(frame) = base.find(id) else {
            return Reply::NotOffered;
        };
        match base.follow(frame, way, &self.groups) {
            Destination::NotOffered => Reply::NotOffered,
            Destination::Found(to, price) => {
                self.remembered.push_front(id);
                self.whereabouts = Whereabouts::At(to);
                Reply::Shown(to, price)
            }
            Destination::Closed(to) => Reply::Closed(to),
            Destination::Missing(to) => Reply::Missing(to),
            Destination::Outside(page) => {
                self.whereabouts = Whereabouts::Left(page);
                Reply::Gone(page)
            }
        }
    }

    // `*#`
    fn previous(&mut self, base: &Base) -> Reply
        ensures step { (self.new.state, result) ≡ key_step self.old.groups base.now self.old.state Prev }
        ensures groups { self.new.groups ≡ self.old.groups }
    {
        let Whereabouts::At(_) = self.whereabouts else {
            return Reply::NotOffered;
        };
        let Some(latest) = self.remembered.front().copied() else {
            return Reply::NotOffered;
        };
        match base.seek(latest, &self.groups) {
            Sought::Found(price) => {
                self.remembered.pop_front();
                self.whereabouts = Whereabouts::At(latest);
                Reply::Shown(latest, price)
            }
            Sought::Closed => Reply::Closed(latest),
            Sought::Missing => Reply::Missing(latest),
        }
    }

    // `*00`
    fn reprint(&self) -> Reply
        ensures { (base : BaseView) → (self.now.state, result) ≡ key_step self.now.groups base self.now.state Reprint }
    {
        match self.at() {
            Some(id) => Reply::Again(id),
            None => Reply::NotOffered,
        }
    }

    // `*09`
    fn update(&self, base: &Base) -> Reply
        ensures { (self.now.state, result) ≡ key_step self.now.groups base.now self.now.state Update }
    {
        let Whereabouts::At(id) = self.whereabouts else {
            return Reply::NotOffered;
        };
        match base.seek(id, &self.groups) {
            Sought::Found(price) => Reply::Shown(id, price),
            Sought::Closed => Reply::Closed(id),
            Sought::Missing => Reply::Missing(id),
        }
    }
}
