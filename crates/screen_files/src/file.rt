//! The frames that a file gives.

ghost use Rattle.std.specs.Prelude.{◌≡◌, ◌++◌, IfOk, OnOk, map};
ghost use Rattle.std.specs.List.{list_any};
ghost use Rattle.screen_files.specs.declared.file.FramesFault.TheVariants as fault;
ghost use Rattle.screen_files.specs.Files as spec;
ghost use Rattle.screen_files.specs.Loops as loops;

use crate::capture::{CaptureFault, Shot, capture_screens};
use crate::codes::{begins_ep1, saved_codes};
use crate::filed::{Filed, Origin, ScreenPlace};
use crate::frame::ScreenFrame;
use crate::head::{name_id, screen_head};
use crate::settling::{Settled, settle};
use crate::text_screens::{found_links, found_pages};
use screen_forms::{FaultyLine, has_address, is_sheet};
use std::alloc::{AllocError, Global};

/// What a file holds.
#[derive(Debug, Clone, Copy, PartialEq, Eq)]
pub enum FileKind {
    /// The cells of a screen, or a text with screens: TTI, or addresses.
    Cells,
    /// What a centre sent: a capture of screens.
    Stream,
}

/// The most bytes that a file may have.
pub const MOST_SCREEN: usize = 16_777_216;

/// Why a file gives no frames.
#[derive(Debug, Clone, Copy, PartialEq, Eq)]
pub enum ScreenFault {
    /// It has no bytes.
    Empty,
    /// It has over 16,777,216 bytes.
    TooLong,
    /// No screen has this number of bytes.
    Size(usize),
    /// Neither the name of the file nor row 0 has a frame's id.
    NoId,
    /// The screen of this line has no id: none is beside an address, row 0 shows none, and no other gives one.
    NoIdAt(usize),
    /// What is wrong with a line of a text.
    Text(FaultyLine),
    /// It has more than 65,535 screens.
    TooManyScreens,
}

/// Why there are no frames.
#[derive(Debug, Clone, Copy, PartialEq, Eq)]
pub enum FramesFault {
    /// What is wrong with the file.
    Screen(ScreenFault),
    /// A growth was refused.
    Memory,
}

impl From<AllocError> for FramesFault {
    ghost from_gives = { λ _ e. e ≡ fault.Memory };

    fn from(_e: AllocError) -> FramesFault {
        FramesFault::Memory
    }
}

/// The frames that a file gives.
#[derive(Drop)]
pub struct FileFrames {
    /// One of each id.
    pub frames: Settled,
    /// The offsets of the screens that are left out, since their row 0 shows no id, ascending.
    pub unnamed: Vec<usize>,
}

// The frames of the screens of a file, and the offsets of those that are left out.
#[derive(Drop)]
pub struct FoundScreens {
    pub filed: Vec<Filed>,
    pub unnamed: Vec<usize>,
}

// The frame of a screen.
fn named_frame(path: &str, codes: &[u8; 960]) -> Result<ScreenFrame, ScreenFault>
    ensures { result ≡ spec.named_frame path.now codes.now }
{
    let head = screen_head(codes);
    match name_id(path).or(head.id) {
        Some(id) => Ok(ScreenFrame {
            id,
            price: head.price,
            codes: *codes,
        }),
        None => Err(ScreenFault::NoId),
    }
}

// Why bytes are no saved screen.
fn no_screen(size: usize) -> ScreenFault
    ensures { result ≡ spec.no_screen size }
{
    if size == 0 {
        ScreenFault::Empty
    } else {
        ScreenFault::Size(size)
    }
}

// The frame of a saved screen.
fn saved_frame(path: &str, bytes: &[u8]) -> Result<ScreenFrame, ScreenFault>
    ensures { result ≡ spec.saved_frame path.now bytes.now }
{
    match saved_codes(bytes) {
        Some(codes) => named_frame(path, &codes),
        None => Err(no_screen(bytes.len())),
    }
}

// What was found, if a frame was.
fn found_one(
    alloc: Global,
    file: usize,
    place: ScreenPlace,
    unnamed: Vec<usize>,
    frame: &Result<ScreenFrame, ScreenFault>,
) -> Result<FoundScreens, FramesFault>
    ensures { loops.IsFound (spec.found_one file place unnamed.items frame.now) result }
{
    let frame = match frame {
        Ok(frame) => *frame,
        Err(fault) => return Err(FramesFault::Screen(*fault)),
    };
    let mut filed = Vec::new(alloc);
    let origin = Origin { file, place };
    filed.extend_from_slice(&[Filed { origin, frame }])?;
    Ok(FoundScreens { filed, unnamed })
}

fn shows_id(shot: &Shot) -> bool
    ensures { result ≡ spec.shows_id shot.now }
{
    screen_head(&shot.codes).id.is_some()
}

// Adds the frame of a screen, if its row 0 shows an id.
fn push_filed_shot(filed: &mut Vec<Filed>, file: usize, shot: &Shot) -> Result<(), AllocError>
    ensures { OnOk result (filed.new.items ≡ filed.old.items ++ spec.filed_shot file shot.now) }
{
    let head = screen_head(&shot.codes);
    let Some(id) = head.id else {
        return Ok(());
    };
    let frame = ScreenFrame {
        id,
        price: head.price,
        codes: shot.codes,
    };
    let place = ScreenPlace::Byte(shot.byte);
    let origin = Origin { file, place };
    filed.extend_from_slice(&[Filed { origin, frame }])
}

// Adds the offset of a screen, if its row 0 shows no id.
fn push_unnamed(unnamed: &mut Vec<usize>, shot: &Shot) -> Result<(), AllocError>
    ensures { OnOk result (unnamed.new.items ≡ unnamed.old.items ++ spec.unnamed_shot shot.now) }
{
    if shows_id(shot) {
        return Ok(());
    }
    unnamed.extend_from_slice(&[shot.byte])
}

// The frames of several screens.
fn found_shots(alloc: Global, file: usize, shots: &[Shot]) -> Result<FoundScreens, AllocError>
    ensures { IfOk result (λ found. spec.found_shots file shots.now ≡ record {
      filed = found.filed.items;
      unnamed =
          found.unnamed.items;
    }) }
{
    let mut filed = Vec::new(alloc);
    let mut unnamed = Vec::new(alloc);
    for shot in shots {
        push_filed_shot(&mut filed, file, shot)?;
        push_unnamed(&mut unnamed, shot)?;
    }
    Ok(FoundScreens { filed, unnamed })
}

// The offsets of screens.
fn offsets(alloc: Global, shots: &[Shot]) -> Result<Vec<usize>, AllocError>
    ensures { IfOk result (λ offsets. offsets.items ≡ map (λ s. s.byte) shots.now) }
{
    shots.iter().map(|shot| shot.byte).collect(alloc)
}

// The frame of the last screen alone.
fn found_last(
    alloc: Global,
    path: &str,
    file: usize,
    shots: &[Shot],
) -> Result<FoundScreens, FramesFault>
    ensures { loops.IsFound (spec.found_last path.now file shots.now) result }
{
    let Some((last, before)) = shots.split_last() else {
        return Err(FramesFault::Screen(ScreenFault::NoId));
    };
    let place = ScreenPlace::Byte(last.byte);
    let unnamed = offsets(alloc, before)?;
    found_one(alloc, file, place, unnamed, &named_frame(path, &last.codes))
}

fn show_ids(shots: &[Shot]) -> bool
    ensures { result ≡ list_any spec.shows_id shots.now }
{
    shots.iter().any(|shot| shows_id(shot))
}

// Whether the file's name counts: there is one screen, or none shows an id.
fn is_by_name(shots: &[Shot]) -> bool
    ensures { result ≡ spec.is_by_name shots.now }
{
    shots.len() == 1 || !show_ids(shots)
}

fn found_screens(
    alloc: Global,
    path: &str,
    file: usize,
    shots: &[Shot],
) -> Result<FoundScreens, FramesFault>
    ensures { loops.IsFound (spec.found_screens path.now file shots.now) result }
{
    if is_by_name(shots) {
        return found_last(alloc, path, file, shots);
    }
    Ok(found_shots(alloc, file, shots)?)
}

// The frames of a capture.
fn found_capture(
    alloc: Global,
    path: &str,
    file: usize,
    bytes: &[u8],
) -> Result<FoundScreens, FramesFault>
    ensures { loops.IsFound (spec.found_capture path.now file bytes.now) result }
{
    if bytes.is_empty() {
        return Err(FramesFault::Screen(ScreenFault::Empty));
    }
    match capture_screens(alloc, bytes) {
        Ok(shots) => found_screens(alloc, path, file, shots.as_slice()),
        Err(CaptureFault::TooMany) => Err(FramesFault::Screen(ScreenFault::TooManyScreens)),
        Err(CaptureFault::Memory) => Err(FramesFault::Memory),
    }
}

// Whether a file has addresses, and isn't EP1 of another size.
fn is_link_text(bytes: &[u8]) -> bool
    ensures { result ≡ spec.is_link_text bytes.now }
{
    has_address(bytes) && !begins_ep1(bytes)
}

// The frames of TTI, else of a screen of the right size, else of addresses.
fn found_saved(
    alloc: Global,
    path: &str,
    file: usize,
    bytes: &[u8],
) -> Result<FoundScreens, FramesFault>
    ensures { loops.IsFound (spec.found_saved path.now file bytes.now) result }
{
    if is_sheet(bytes) {
        return found_pages(alloc, path, file, bytes);
    }
    if saved_codes(bytes).is_none() && is_link_text(bytes) {
        return found_links(alloc, path, file, bytes);
    }
    let unnamed = Vec::new(alloc);
    found_one(
        alloc,
        file,
        ScreenPlace::Whole,
        unnamed,
        &saved_frame(path, bytes),
    )
}

fn found_in(
    alloc: Global,
    kind: FileKind,
    path: &str,
    file: usize,
    bytes: &[u8],
) -> Result<FoundScreens, FramesFault>
    ensures { loops.IsFound (spec.found_in kind path.now file bytes.now) result }
{
    if bytes.len() > MOST_SCREEN {
        return Err(FramesFault::Screen(ScreenFault::TooLong));
    }
    match kind {
        FileKind::Cells => found_saved(alloc, path, file, bytes),
        FileKind::Stream => found_capture(alloc, path, file, bytes),
    }
}

/// The frames of a file of these bytes, or why it gives none. `file` is the number that they are filed under.
///
/// A saved screen gives one frame, of the id in the file's name, else of the one that row 0 shows. A text with addresses of edit.tf, or
/// of the form TTI, gives one for each screen: its id is the one beside an address, else the one in the name of a file of one, in
/// row 0 or in its page number. A capture of one screen gives the frame of that screen, and one of several, if none shows an id,
/// that of its last one. Else each screen of a capture gives the frame whose id its row 0 shows, and those without are left out. The
/// price is the one of row 0.
pub fn file_frames(
    alloc: Global,
    kind: FileKind,
    path: &str,
    file: usize,
    bytes: &[u8],
) -> Result<FileFrames, FramesFault>
    ensures { spec.AreFileFrames (spec.found_in kind path.now file bytes.now) result }
{
    let found = found_in(alloc, kind, path, file, bytes)?;
    let frames = settle(alloc, found.filed)?;
    let unnamed = found.unnamed;
    Ok(FileFrames { frames, unnamed })
}
