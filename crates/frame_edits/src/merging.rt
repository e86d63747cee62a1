//! A base's text with frames in it.

ghost use Rattle.std.specs.Prelude.{◌≡◌, ◌++◌, ◌∷◌, [], ◌||◌, IfOk, IfErr, OnOk, IsSome};
ghost use Rattle.page_ids.specs.Ids.{Id};
ghost use Rattle.screen_files.specs.Routes.{knows_frame};
ghost use Rattle.toml.specs.Parse.{parse_document};
ghost use Rattle.base_text.specs.Whole.{IsTextBase, tree_of};
ghost use Rattle.frame_edits.specs.Merging as spec;
ghost use Rattle.frame_edits.specs.Loops.{IsRefusal, IsRefusalIn};

use crate::additions::additions;
use crate::intake::Intake;
use base_text::{BaseFault, Draft, Listed, base_read, draft_of, tree};
use frame_records::Base;
use lint::picture_places;
use page_ids::FrameId;
use screen_files::{BaseTextFault, Filed, Known, Settled};
use std::alloc::{AllocError, Global};
use std::marker::Model;
use text_edits::{Replacement, edited};

/// A base's text after frames went into it. Each list of frames is in the order of their ids.
#[derive(Debug, Drop)]
pub struct Merged {
    pub text: Vec<u8>,
    /// What the old text was edited by, in order; the last edit is at its end.
    pub edits: Vec<Replacement>,
    /// The frames whose rows are new.
    pub replaced: Vec<FrameId>,
    /// The frames that the base didn't have.
    pub added: Vec<FrameId>,
    /// The frames that stay as they are, since the rows aren't all that a caller sees.
    pub left: Vec<FrameId>,
    /// The frames that stay as they are, since they show the screens.
    pub same: Vec<FrameId>,
}

impl Model for Merged {
    ghost use Rattle.frame_edits.specs.Merging.{MergedView};

    ghost Value = { MergedView };

    ghost view = { λ m.
        record {
          text = m.text.items;
          edits = m.edits.items;
          replaced = m.replaced.items;
          added = m.added.items;
          left = m.left.items;
          same = m.same.items;
        } };
}

/// Why frames don't go into a text.
#[derive(Debug, Clone, Copy, PartialEq, Eq)]
pub enum MergeFault {
    /// The text is no base: its first fault. Its cause may be `Memory`.
    Unread(BaseFault),
    /// What would come of it is no base: its first fault. Its cause may be `Memory`.
    Spoilt(BaseFault),
    /// The added frames alone are longer than a base may be: the file of the first that ends too late.
    TooLong(usize),
    /// What two frames show is written in one place.
    Overlap,
    /// A growth was refused.
    Memory,
}

// In the order of where they begin.
fn put_in_order(edits: &mut Vec<Replacement>) -> Result<(), AllocError>
    ensures { OnOk result (spec.AreEditsInOrder edits.old.items edits.new.items) }
{
    edits.sort_by_key(|edit| edit.begin)
}

// The ids of frames.
fn filed_ids(alloc: Global, frames: &[Filed]) -> Result<Vec<FrameId>, AllocError>
    ensures { IfOk result (λ ids. ids.items ≡ spec.filed_ids frames.now) }
{
    frames.iter().map(|filed| filed.frame.id).collect(alloc)
}

// What the frames come to in the text of a base that lists these.
fn taken(
    alloc: Global,
    text: &str,
    base: &Base,
    listed: &[Listed],
    frames: &[Filed],
) -> Result<Intake, AllocError>
    requires { IsSome (parse_document text.now) }
    ensures { IfOk result (λ intake. intake ≡ spec.intake_in text.now base.now listed.now frames.now) }
{
    let ids = filed_ids(alloc, frames)?;
    let places = picture_places(alloc, text, listed, ids.as_slice())?;
    Intake::of(alloc, base, places.as_slice(), frames)
}

// Adds the edit that comes after all of a text of this length.
fn push_last(edits: &mut Vec<Replacement>, end: usize, text: Vec<u8>) -> Result<(), AllocError>
    ensures { OnOk result (edits.new.items ≡ edits.old.items
        ++ record { begin = end; end = end; text = text.items } ∷ []) }
{
    let begin = end;
    edits.push(Replacement { begin, end, text })?;
    Ok(())
}

// The edits in order with the one that adds these frames, and the text with all of them made.
fn edited_text(
    alloc: Global,
    text: &[u8],
    mut edits: Vec<Replacement>,
    known: &Known,
    added: &[Filed],
) -> Result<(Vec<Replacement>, Vec<u8>), MergeFault>
    ensures text { IfOk result (λ done.
        spec.IsEdited text.now edits.items known.now added.now done.0.items done.1.items) }
    ensures fault { IfErr result (spec.IsUnedited text.now edits.items known.now added.now) }
{
    let addition = match additions(alloc, text, known, added) {
        Ok(addition) => addition,
        Err(BaseTextFault::TooLong(file)) => return Err(MergeFault::TooLong(file)),
        Err(BaseTextFault::Memory) => return Err(MergeFault::Memory),
    };
    if put_in_order(&mut edits).is_err() || push_last(&mut edits, text.len(), addition).is_err() {
        return Err(MergeFault::Memory);
    }
    match edited(alloc, text, edits.as_slice()) {
        Ok(Some(text)) => Ok((edits, text)),
        Ok(None) => Err(MergeFault::Overlap),
        Err(_) => Err(MergeFault::Memory),
    }
}

// Adds the frames of a list.
fn add_listed(known: &mut Known, listed: &[Listed]) -> Result<(), AllocError>
    ensures { OnOk result ((id : Id) → knows_frame known.new id
        ≡ (spec.lists_frame listed.now id || knows_frame known.old id)) }
{
    let mut rest = listed;
    while let Some((one, more)) = rest.split_first() {
        known.add(one.frame.id)?;
        rest = more;
    }
    Ok(())
}

// The frames to which guessed routes may lead.
fn known_frames(
    alloc: Global,
    guesses: bool,
    listed: &[Listed],
    frames: &[Filed],
) -> Result<Known, AllocError>
    ensures { IfOk result (spec.KnowsBoth guesses listed.now frames.now) }
{
    let mut known = Known::of(alloc, guesses, frames)?;
    if guesses {
        add_listed(&mut known, listed)?;
    }
    Ok(known)
}

// The text that a base's text becomes.
fn merged_with(
    alloc: Global,
    text: &[u8],
    intake: Intake,
    known: &Known,
) -> Result<Merged, MergeFault>
    ensures merged { IfOk result (spec.IsMergeOf text.now intake known.now) }
    ensures fault { IfErr result (spec.IsUnedited text.now intake.edits known.now intake.added) }
{
    let Intake {
        edits,
        replaced,
        added,
        left,
        same,
    } = intake;
    let (edits, text) = edited_text(alloc, text, edits, known, added.as_slice())?;
    match filed_ids(alloc, added.as_slice()) {
        Ok(added) => Ok(Merged {
            text,
            edits,
            replaced,
            added,
            left,
            same,
        }),
        Err(_) => Err(MergeFault::Memory),
    }
}

// The text that comes of that of a base that lists these frames.
fn merged_text(
    alloc: Global,
    text: &str,
    base: &Base,
    listed: &[Listed],
    guesses: bool,
    frames: &[Filed],
) -> Result<Merged, MergeFault>
    requires { IsSome (parse_document text.now) }
    ensures merged { IfOk result (spec.IsTextMerged text.now base.now listed.now guesses frames.now) }
    ensures fault { IfErr result (IsRefusalIn text.now base.now listed.now guesses frames.now) }
{
    let Ok(intake) = taken(alloc, text, base, listed, frames) else {
        return Err(MergeFault::Memory);
    };
    match known_frames(alloc, guesses, listed, frames) {
        Ok(known) => merged_with(alloc, text.as_bytes(), intake, &known),
        Err(_) => Err(MergeFault::Memory),
    }
}

// The text that comes of that of a base.
fn merged_base(
    alloc: Global,
    text: &[u8],
    base: &Base,
    guesses: bool,
    frames: &[Filed],
) -> Result<Merged, MergeFault>
    requires tree { IsSome (tree_of text.now) }
    requires read { IsTextBase text.now base.now }
    ensures merged { IfOk result (spec.AreMerged text.now guesses frames.now) }
    ensures fault { IfErr result (IsRefusal text.now guesses frames.now) }
{
    let table = match tree(alloc, text) {
        Ok(Ok(table)) => table,
        Ok(Err(_)) => unreachable!(),
        Err(_) => return Err(MergeFault::Memory),
    };
    let Ok(Draft { frames: listed, .. }) = draft_of(alloc, table) else {
        return Err(MergeFault::Memory);
    };
    match str::from_utf8(text) {
        Ok(text) => merged_text(alloc, text, base, listed.as_slice(), guesses, frames),
        Err(_) => unreachable!(),
    }
}

/// A base's text with frames of one id each in it. On every fault there is no new text.
///
/// The rows of each frame that the base has, and whose lead isn't `keep`, take the place of what the text writes as its `rows` or
/// `body`, the key included, unless the frame shows them already. The frames that the base doesn't have are added after the text; if
/// routes are guessed, they have those that the numbers of pages suggest, to frames of the new base. Each byte outside of those
/// places is kept, in order. The text is read twice, and what comes of it once.
pub fn merge_frames(
    alloc: Global,
    text: &[u8],
    guesses: bool,
    settled: &Settled,
) -> Result<Merged, MergeFault>
    ensures merged { IfOk result (spec.IsMerged text.now guesses settled.now.frames) }
    ensures fault { IfErr result (spec.IsNotMerged text.now guesses settled.now.frames) }
{
    let base = match base_read(alloc, text) {
        Ok(base) => base,
        Err(fault) => return Err(MergeFault::Unread(fault)),
    };
    let merged = merged_base(alloc, text, &base, guesses, settled.frames())?;
    match base_read(alloc, merged.text.as_slice()) {
        Ok(_) => Ok(merged),
        Err(fault) => Err(MergeFault::Spoilt(fault)),
    }
}
