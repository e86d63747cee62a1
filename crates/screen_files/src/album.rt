//! The frames of some files, and the text of the base that is made of them.

ghost use Rattle.std.specs.Prelude.{◌≡◌, ◌++◌, ◌+◌, ◌≤◌, [], None, OnOk, IfOk, IfErr, length, nat_lt};
ghost use Rattle.frame_records.specs.declared.limits.TheConstants.{MOST_LISTED};
ghost use Rattle.screen_files.specs.Settling.{IsSettled};
ghost use Rattle.screen_files.specs.Album as spec;

use crate::filed::Filed;
use crate::routes::Known;
use crate::settling::{Settled, settle};
use crate::texts::{push_entry, push_frame};
use base_text::MOST_TEXT;
use frame_records::MOST_LISTED;
use page_ids::{FrameId, PageNo};
use std::alloc::{AllocError, Global};
use std::marker::Model;

/// Why frames aren't added.
#[derive(Debug, Clone, Copy, PartialEq, Eq)]
pub enum AddFault {
    /// With them there are more than a base may have.
    TooMany,
    /// A growth was refused.
    Memory,
}

/// Why there is no text of a base.
#[derive(Debug, Clone, Copy, PartialEq, Eq)]
pub enum BaseTextFault {
    /// It is longer than a base may be: the file of the first frame that ends too late.
    TooLong(usize),
    /// A growth was refused.
    Memory,
}

/// The frames of some files. Contracts see the list.
#[derive(Drop)]
pub struct Album {
    frames: Vec<Filed>,
}

impl Model for Album {
    ghost use Rattle.std.specs.Prelude.{List};
    ghost use Rattle.screen_files.specs.declared.filed.Filed.{Filed};

    ghost Value = { List Filed };

    ghost view = { λ a. a.frames.items };
}

impl Album {
    /// No frames.
    pub fn new(alloc: Global) -> Album
        ensures { result ≡ [] }
    {
        Album {
            frames: Vec::new(alloc),
        }
    }

    // Whether there are with some more frames more than a base may have.
    fn is_over(&self, more: usize) -> bool
        ensures { result ≡ nat_lt MOST_LISTED (length self.now + more) }
    {
        self.frames.len() > MOST_LISTED || more > MOST_LISTED - self.frames.len()
    }

    /// Adds frames. After a fault the album is as it was.
    pub fn add(&mut self, frames: &[Filed]) -> Result<(), AddFault>
        ensures filed { spec.AreFramesFiled self.old self.new frames.now result }
        ensures within { OnOk result (length self.new ≤ MOST_LISTED) }
    {
        if self.is_over(frames.len()) {
            return Err(AddFault::TooMany);
        }
        self.frames
            .extend_from_slice(frames)
            .map_err(|_| AddFault::Memory)
    }

    /// The frames, in the order in which they were added.
    pub fn as_slice(&self) -> &[Filed]
        ensures { result.now ≡ self.now }
    {
        self.frames.as_slice()
    }

    /// Keeps one frame of each id, as [`settle`] does.
    pub fn settle(self, alloc: Global) -> Result<Settled, AllocError>
        ensures { IfOk result (IsSettled self) }
    {
        settle(alloc, self.frames)
    }
}

fn is_first(id: FrameId, frames: &[Filed]) -> bool
    ensures { result ≡ spec.is_first id frames.now }
{
    match frames.first() {
        Some(filed) => filed.frame.id == id,
        None => false,
    }
}

// Whether the first of some frames has the letter after that of an id.
fn leads_on(id: FrameId, rest: &[Filed]) -> bool
    ensures { result ≡ spec.leads_on id rest.now }
{
    match id.following() {
        Some(next) => is_first(next, rest),
        None => false,
    }
}

// Writes a frame that comes before these.
fn push_filed(
    out: &mut Vec<u8>,
    known: &Known,
    filed: &Filed,
    rest: &[Filed],
) -> Result<(), AllocError>
    ensures { OnOk result (out.new.items ≡ out.old.items ++ spec.filed_lines known.now filed.now rest.now) }
{
    push_frame(out, known, &filed.frame, leads_on(filed.frame.id, rest))
}

/// Writes frames as [`base_text`] does, up to the first that ends after the most bytes that a base may have; its file is in the fault.
pub fn push_frames(out: &mut Vec<u8>, known: &Known, frames: &[Filed]) -> Result<(), BaseTextFault>
    ensures text { OnOk result (out.new.items ≡ out.old.items ++ spec.frames_text known.now frames.now) }
    ensures within { OnOk result (spec.first_over known.now (length out.old.items) frames.now ≡ None) }
    ensures fault { IfErr result (spec.IsNoText (spec.first_over known.now (length out.old.items) frames.now)) }
{
    let mut rest = frames;
    while let Some((filed, more)) = rest.split_first() {
        match push_filed(out, known, filed, more) {
            Ok(()) => {}
            Err(_) => return Err(BaseTextFault::Memory),
        }
        if out.len() > MOST_TEXT {
            return Err(BaseTextFault::TooLong(filed.origin.file));
        }
        rest = more;
    }
    Ok(())
}

/// The text of the base of some frames: no frames make no text. The entry page is the one that is asked for, else that of the first
/// frame. A frame has `next` if the one after it has the following letter. If routes are guessed, it has those to frames of the base that
/// the numbers of their pages suggest.
pub fn base_text(
    alloc: Global,
    asked: Option<PageNo>,
    guesses: bool,
    settled: &Settled,
) -> Result<Vec<u8>, BaseTextFault>
    ensures text { IfOk result (λ text. spec.IsBaseText asked guesses settled.now.frames text.items) }
    ensures fault { IfErr result (spec.IsNoBaseText asked guesses settled.now.frames) }
{
    let frames = settled.frames();
    let Ok(known) = Known::of(alloc, guesses, frames) else {
        return Err(BaseTextFault::Memory);
    };
    let mut out = Vec::new(alloc);
    let Some(first) = frames.first() else {
        return Ok(out);
    };
    push_entry(&mut out, asked.unwrap_or(first.frame.id.page)).map_err(|_| BaseTextFault::Memory)?;
    push_frames(&mut out, &known, frames)?;
    Ok(out)
}
