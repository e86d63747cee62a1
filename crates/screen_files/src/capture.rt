//! The screens of a capture: what a centre sent.

ghost use Rattle.std.specs.Prelude.{◌≡◌, ◌∷◌, [], OnOk, length};
ghost use Rattle.screen_files.specs.Captures as spec;
ghost use Rattle.screen_files.specs.Loops as loops;

use crate::head::screen_head;
use std::alloc::Global;
use terminal_codes::Terminal;

/// A screen of a capture.
#[derive(Debug, Clone, Copy, PartialEq, Eq)]
pub struct Shot {
    /// The offset of the byte that cleared the screen before it; 0 if none did.
    pub byte: usize,
    /// The 960 codes of the screen.
    pub codes: [u8; 960],
}

/// The most screens that a capture may have.
pub const MOST_SHOTS: usize = 65_535;

/// Why there is no list of a capture's screens.
#[derive(Debug, Clone, Copy, PartialEq, Eq)]
pub enum CaptureFault {
    /// There are more than 65,535.
    TooMany,
    /// A growth was refused.
    Memory,
}

// A terminal between two bytes of a capture.
#[derive(Drop)]
struct Reel {
    terminal: Terminal,
    // The offset of the last byte that cleared the screen.
    start: Option<usize>,
}

fn is_clear(byte: u8) -> bool
    ensures { result ≡ spec.clears_screen byte }
{
    byte % 0x80 == 0x0C
}

fn is_blank(codes: &[u8; 960]) -> bool
    ensures { result ≡ spec.is_blank_screen codes.now }
{
    codes.iter().all(|code| *code == b' ')
}

fn push_shot(shots: &mut Vec<Shot>, byte: usize, codes: &[u8; 960]) -> Result<(), CaptureFault>
    ensures { loops.AreShotsAdded shots.old.items shots.new.items (spec.shot_at byte codes.now ∷ []) result }
{
    if shots.len() >= MOST_SHOTS {
        return Err(CaptureFault::TooMany);
    }
    let shot = Shot {
        byte,
        codes: *codes,
    };
    shots.push(shot).map_err(|_| CaptureFault::Memory)
}

// Adds a screen that began at a byte, if it isn't blank.
fn push_shown(shots: &mut Vec<Shot>, byte: usize, codes: &[u8; 960]) -> Result<(), CaptureFault>
    ensures { loops.AreShotsAdded shots.old.items shots.new.items (spec.shot_if_shown byte codes.now) result }
{
    if is_blank(codes) {
        return Ok(());
    }
    push_shot(shots, byte, codes)
}

// Adds what came before the first byte that clears, if its row 0 shows an id.
fn push_first(shots: &mut Vec<Shot>, codes: &[u8; 960]) -> Result<(), CaptureFault>
    ensures { loops.AreShotsAdded shots.old.items shots.new.items (spec.shown_first codes.now) result }
{
    if screen_head(codes).id.is_none() {
        return Ok(());
    }
    push_shot(shots, 0, codes)
}

impl Reel {
    fn new() -> Reel
        ensures { result ≡ spec.unwound }
    {
        Reel {
            terminal: Terminal::new(),
            start: None,
        }
    }

    // Adds the screen that a byte clears.
    fn push_cleared(&self, shots: &mut Vec<Shot>, byte: u8) -> Result<(), CaptureFault>
        ensures { loops.AreShotsAdded shots.old.items shots.new.items (spec.cleared_by self.now byte) result }
    {
        if !is_clear(byte) {
            return Ok(());
        }
        match self.start {
            None => push_first(shots, self.terminal.cells()),
            Some(start) => push_shown(shots, start, self.terminal.cells()),
        }
    }

    // Receives the byte at an offset.
    fn step(&mut self, offset: usize, byte: u8)
        ensures { self.new ≡ spec.reel_after self.old offset byte }
    {
        self.terminal.step(byte % 0x80);
        if is_clear(byte) {
            self.start = Some(offset);
        }
    }

    // Adds what is on the screen at the end.
    fn push_end(&self, shots: &mut Vec<Shot>) -> Result<(), CaptureFault>
        ensures { loops.AreShotsAdded shots.old.items shots.new.items (spec.shown_end self.now) result }
    {
        push_shown(shots, self.start.unwrap_or(0), self.terminal.cells())
    }

    // Adds the last screen, if there are none.
    fn push_if_none(&self, shots: &mut Vec<Shot>) -> Result<(), CaptureFault>
        ensures { loops.AreShotsAdded shots.old.items shots.new.items
            (spec.end_if_none shots.old.items self.now) result }
    {
        if !shots.is_empty() {
            return Ok(());
        }
        push_shot(shots, self.start.unwrap_or(0), self.terminal.cells())
    }
}

// Adds the screens that bytes clear, and receives the bytes.
fn push_all(reel: &mut Reel, shots: &mut Vec<Shot>, bytes: &[u8]) -> Result<(), CaptureFault>
    ensures shots { loops.AreShotsAdded shots.old.items shots.new.items
        (spec.cleared (length bytes.now) reel.old bytes.now) result }
    ensures reel { OnOk result (reel.new ≡ spec.wound (length bytes.now) reel.old bytes.now) }
{
    let mut left = bytes;
    while let Some((byte, rest)) = left.split_first() {
        reel.push_cleared(shots, *byte)?;
        reel.step(bytes.len().saturating_sub(left.len()), *byte);
        left = rest;
    }
    Ok(())
}

/// The screens of a capture, in order. A code 0C, with bit 7 (parity) or without, begins one, and the next 0C or the end ends it: it
/// is what a new terminal then shows. What comes before the first 0C is a screen if its row 0 shows an id, or if there is no 0C.
/// Blank screens are left out; if all are blank, the last is the only one.
///
/// A capture without bytes has one blank screen.
pub fn capture_screens(alloc: Global, bytes: &[u8]) -> Result<Vec<Shot>, CaptureFault>
    ensures { spec.AreCaptureScreens bytes.now result }
{
    let mut shots = Vec::new(alloc);
    let mut reel = Reel::new();
    push_all(&mut reel, &mut shots, bytes)?;
    reel.push_end(&mut shots)?;
    reel.push_if_none(&mut shots)?;
    Ok(shots)
}
