//! The result of seeking a frame. A frame is noted near the slot of its id, if there is a blank; the others are found by
//! binary search. A look-up relies on each note being true, not on its slot.

ghost use Rattle.std.specs.Prelude.{◌≡◌, ◌<◌, None, Some, IsTrue, IfSome, IfNone, IfOk, map, length};
ghost use Rattle.frame_records.specs.Bases.{IsBase, frame_among};
ghost use Rattle.frame_records.specs.Seek.{is_open};
ghost use Rattle.frame_records.specs.Ways.{missing_by};
ghost use Rattle.finder.specs.Loops.Noted.{target_at, IsOf, AreNotes, IsSought};
ghost use Rattle.finder.specs.Loops.WayTargets.{aim_of, aim_at, node_of, IsTarget};
ghost use Rattle.finder.specs.Survey.{id_at};

use crate::target::WayTarget;
use frame_records::{Base, Frame, Groups};
use page_ids::{FrameId, Way};
use std::alloc::{AllocError, Global};

// A frame that is noted; a blank has the letter 0.
#[derive(Clone, Copy)]
pub struct Note {
    pub page: u32,
    // Its position in the base.
    pub node: u16,
    pub letter: u8,
    pub is_open: bool,
}

// How many slots are tried, from the slot of an id.
const TRIES: usize = 8;

impl Note {
    const BLANK: Note = Note {
        page: 0,
        node: 0,
        letter: 0,
        is_open: false,
    };

    // The frame of a node, as a caller of the groups finds it.
    fn of(frame: &Frame, node: u16, groups: &Groups) -> Note
        ensures page { result.page ≡ frame.now.id.page }
        ensures letter { result.letter ≡ frame.now.id.letter }
        ensures node { result.node ≡ node }
        ensures is_open { result.is_open ≡ is_open groups.now frame.now }
    {
        Note {
            page: frame.id.page.get(),
            node,
            letter: frame.id.letter.get(),
            is_open: frame.is_open(groups),
        }
    }

    // Whether it notes the frame of an id.
    fn is_of(&self, id: &FrameId) -> bool
        ensures { IsTrue result → IsOf self.now id.now }
    {
        self.page == id.page.get() && self.letter == id.letter.get()
    }

    // The result of seeking its frame.
    fn target(&self) -> WayTarget
        ensures { result ≡ target_at self.now.node self.now.is_open }
    {
        if self.is_open {
            WayTarget::Found(self.node)
        } else {
            WayTarget::Closed
        }
    }
}

// The slot of an id, among a power of two of them: pages in a row are noted in a row, each letter elsewhere.
fn slot_of(id: &FrameId, slots: usize) -> usize {
    let apart = (id.letter.get() as u32).wrapping_mul(0x9E37_79B1);
    id.page.get().wrapping_add(apart) as usize & slots.wrapping_sub(1)
}

// A blank near the slot of an id.
fn blank_near(notes: &[Note], id: &FrameId) -> Option<usize>
    ensures { IfSome result (λ i. i < length notes.now) }
{
    let first = slot_of(id, notes.len());
    for slot in first..first.saturating_add(TRIES) {
        if notes.get(slot)?.letter == 0 {
            return Some(slot);
        }
    }
    None
}

// Notes the frame of a node, if there is a blank for it.
fn add_note(notes: &mut Vec<Note>, frames: &[Frame], groups: &Groups, node: u16)
    requires inside { node < length frames.now }
    requires noted { AreNotes groups.now frames.now notes.old.items }
    ensures { AreNotes groups.now frames.now notes.new.items }
{
    let frame = &frames[node as usize];
    if let Some(slot) = blank_near(notes.as_slice(), &frame.id) {
        notes[slot] = Note::of(frame, node, groups);
    }
}

// The noted frames of a base, as a caller of the groups finds them.
#[derive(Drop)]
pub struct Notes<'a> {
    pub base: &'a Base,
    pub groups: &'a Groups,
    // The id of each frame, close together.
    pub ids: Vec<FrameId>,
    pub notes: Vec<Note>,
    pub ghost named: { ids.items ≡ map (λ f. f.id) base.now.frames },
    pub ghost valid: { IsBase base.now },
    pub ghost noted: { AreNotes groups.now base.now.frames notes.items },
}

impl<'a> Notes<'a> {
    // Notes the frames of a base, as far as there are blanks near their slots. There are at least twice as many slots as
    // frames.
    pub fn of(alloc: Global, base: &'a Base, groups: &'a Groups) -> Result<Notes<'a>, AllocError>
        ensures base { IfOk result (λ m. m.base.now ≡ base.now) }
        ensures groups { IfOk result (λ m. m.groups.now ≡ groups.now) }
    {
        let frames = base.frames();
        let slots = (frames.len() * 2).next_power_of_two();
        let mut notes = vec![in alloc; Note::BLANK; slots]?;
        let mut ids = Vec::with_capacity(alloc, frames.len())?;
        for node in 0..frames.len() as u16 {
            add_note(&mut notes, frames, groups, node);
            ids.push(frames[node as usize].id)?;
        }
        Ok(Notes {
            base,
            groups,
            ids,
            notes,
        })
    }

    // The target of an id, if it is noted in a slot.
    #[inline(always)]
    fn target_in(&self, slot: usize, id: &FrameId) -> Option<WayTarget>
        ensures { IfSome result (λ t. IsSought self.now.groups.now self.now.base.now.frames id.now (Some t)) }
    {
        let note = self.notes.get(slot)?;
        if note.is_of(id) {
            Some(note.target())
        } else {
            None
        }
    }

    // The target of an id, if it is noted near its slot.
    fn noted_target(&self, id: &FrameId) -> Option<WayTarget>
        ensures { IfSome result (λ t. IsSought self.now.groups.now self.now.base.now.frames id.now (Some t)) }
    {
        let first = slot_of(id, self.notes.len());
        for slot in first..first.saturating_add(TRIES) {
            if let Some(target) = self.target_in(slot, id) {
                return Some(target);
            }
        }
        None
    }

    // The node of the frame of an id, by binary search.
    pub fn node_by_id(&self, id: &FrameId) -> Option<u16>
        ensures some { IfSome result (λ node. id_at self.now.base.now.frames node ≡ Some id.now) }
        ensures none { IfNone result (frame_among self.now.base.now.frames id.now ≡ None) }
    {
        match self
            .base
            .frames()
            .binary_search_by_key(id, |frame| frame.id)
        {
            Ok(node) => Some(node as u16),
            Err(_) => None,
        }
    }

    // The target of an id, by binary search.
    #[cold]
    fn searched_target(&self, id: &FrameId) -> Option<WayTarget>
        ensures { IsSought self.now.groups.now self.now.base.now.frames id.now result }
    {
        let node = self.node_by_id(id)?;
        let frame = &self.base.frames()[node as usize];
        Some(Note::of(frame, node, self.groups).target())
    }

    // The target of an id that isn't noted in its own slot.
    #[cold]
    #[inline(never)]
    fn further_target(&self, id: &FrameId) -> Option<WayTarget>
        ensures { IsSought self.now.groups.now self.now.base.now.frames id.now result }
    {
        match self.noted_target(id) {
            Some(target) => Some(target),
            None => self.searched_target(id),
        }
    }

    // The target of an id; `None` if the base lacks it.
    #[inline(always)]
    pub fn target_by_id(&self, id: &FrameId) -> Option<WayTarget>
        ensures { IsSought self.now.groups.now self.now.base.now.frames id.now result }
    {
        match self.target_in(slot_of(id, self.notes.len()), id) {
            Some(target) => Some(target),
            None => self.further_target(id),
        }
    }

    // A frame that a way seeks and the base lacks.
    fn missing(&self, way: &Way, id: &FrameId) -> WayTarget
        ensures aim { aim_at result ≡ aim_of (missing_by self.now.base.now way.now id.now) }
        ensures nowhere { node_of result ≡ None }
    {
        match way {
            Way::Route(_) if self.base.is_outside(id.page) => WayTarget::Outside,
            _ => WayTarget::Missing,
        }
    }

    // The result of a way of a frame.
    pub fn target_of(&self, frame: &Frame, way: Way) -> WayTarget
        ensures { IsTarget self.now.groups.now self.now.base.now frame.now way result }
    {
        let Some(id) = frame.sought(way) else {
            return WayTarget::NotOffered;
        };
        match self.target_by_id(&id) {
            Some(target) => target,
            None => self.missing(&way, &id),
        }
    }
}
