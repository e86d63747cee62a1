ghost use Rattle.std.specs.Prelude.{◌≡◌, ◌++◌, ◌∷◌, [], OnOk, IfOk, option_map};
ghost use Rattle.page_ids.specs.Ways.{way_at, way_key};
ghost use Rattle.finder.specs.Loops.Entries.{discovered_of};

use page_ids::{FrameId, Key, Way};
use std::alloc::{AllocError, Global};
use std::marker::Model;

/// A frame that a caller can reach.
#[derive(Debug, Clone, Copy, PartialEq, Eq)]
pub struct Discovered {
    pub id: FrameId,
    /// The least number of route and next keys that leads from the frame to the entry frame through open frames; `None`
    /// if there is no such walk.
    pub rank: Option<u16>,
    /// The index of the frame from which it was discovered; `None` for the entry frame.
    pub parent: Option<u32>,
    /// The key that led to it from there.
    pub key: Option<Key>,
}

/// The discovered frames, in order. Contracts see the list.
#[derive(Debug, Drop)]
pub struct Found {
    frames: Vec<Discovered>,
}

impl Model for Found {
    ghost use Rattle.std.specs.Prelude.{List};
    ghost use Rattle.finder.specs.declared.found.Discovered.{Discovered};

    ghost Value = { List Discovered };

    ghost view = { λ f. f.frames.items };
}

// The index of the frame from which a frame was discovered.
fn parent(origin: Option<(u16, u8)>) -> Option<u32>
    ensures { result ≡ option_map (λ o. o.0) origin }
{
    let (parent, _) = origin?;
    Some(parent as u32)
}

// The key that led to it from there.
fn key(origin: Option<(u16, u8)>) -> Option<Key>
    ensures { result ≡ option_map (λ o. way_key (way_at o.1)) origin }
{
    let (_, way) = origin?;
    Some(Way::at(way).key())
}

impl Found {
    // No frame.
    pub(crate) fn empty(alloc: Global) -> Found
        ensures { result ≡ [] }
    {
        Found {
            frames: Vec::new(alloc),
        }
    }

    // An empty list with this capacity.
    pub(crate) fn with_capacity(alloc: Global, most: usize) -> Result<Found, AllocError>
        ensures { IfOk result (λ found. found ≡ []) }
    {
        Ok(Found {
            frames: Vec::with_capacity(alloc, most)?,
        })
    }

    // Adds a frame, with the index of the frame from which it was discovered and the number of the way that led to it.
    pub(crate) fn push(
        &mut self,
        id: FrameId,
        rank: Option<u16>,
        origin: Option<(u16, u8)>,
    ) -> Result<(), AllocError>
        ensures { OnOk result (self.new ≡ self.old ++ discovered_of id rank origin ∷ []) }
    {
        self.frames.push(Discovered {
            id,
            rank,
            parent: parent(origin),
            key: key(origin),
        })?;
        Ok(())
    }

    /// The frames, in the order of discovery.
    pub fn as_slice(&self) -> &[Discovered]
        ensures { result.now ≡ self.now }
    {
        self.frames.as_slice()
    }
}
