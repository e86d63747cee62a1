//! The least start that shows why a frame isn't clean.

ghost use Rattle.std.specs.Prelude.{◌≡◌, ◌<◌};
ghost use Rattle.abstract_paint.specs.Paint.{paint_of};
ghost use Rattle.abstract_paint.specs.Start.{IsStart, IsStartAt, caret_numbered, start_touches, least_number, start_at, start_of};

use crate::painting::{Painted, paint};
use frame_records::Lead;
use terminal_codes::{Caret, lead_bytes};

/// A start from which a write of the body byte at the offset counts as one in a service row: where a terminal is before
/// the lead.
#[derive(Debug, Clone, Copy, PartialEq, Eq)]
pub struct Start {
    /// The position, 0 to 959.
    pub at: u16,
    /// Whether an escape is pending.
    pub pending: bool,
    /// The body byte that touches.
    pub offset: usize,
}

// The start of a number: position n / 2, pending if n is odd.
fn caret_numbered(n: u16) -> Caret
    requires { n < 1920 }
    ensures { result ≡ caret_numbered n }
{
    Caret {
        at: n / 2,
        pending: n % 2 == 1,
    }
}

// Whether the body byte at the offset writes a service position from the start.
fn touches_from(lead: Lead, body: &[u8], offset: usize, start: Caret) -> bool
    ensures { result ≡ start_touches lead body.now offset start }
{
    if offset >= body.len() {
        return false;
    }
    let caret = start.run(lead_bytes(lead)).run(&body[..offset]);
    caret.touches(body[offset])
}

// The number of the least start that touches at the offset.
fn least_number(lead: Lead, body: &[u8], offset: usize) -> Option<u16>
    ensures { result ≡ least_number lead body.now offset }
{
    (0..1920u16).find(
        |n|
            requires { n.now < 1920 }
        { touches_from(lead, body, offset, caret_numbered(*n)) },
    )
}

/// The least start from which a write of the body byte at the offset counts as one in a service row, or none if no start
/// is one, as after the body's end.
///
/// Starts are ordered by position, not pending before pending. It costs up to 1,920 runs through the body's front.
pub fn start_at(lead: Lead, body: &[u8], offset: usize) -> Option<Start>
    ensures computed { result ≡ start_at lead body.now offset }
    ensures meaning { IsStartAt lead body.now offset result }
{
    match least_number(lead, body, offset) {
        None => None,
        Some(n) => Some(Start {
            at: n / 2,
            pending: n % 2 == 1,
            offset,
        }),
    }
}

/// The least start from which a write at `paint`'s offset counts as one in a service row, or none if the frame is clean.
///
/// A frame that isn't clean costs what `start_at` does beside its painting. Who has painted already calls that.
#[tactic(auto, using(crate::proofs::LeastStart::means))]
pub fn start_for(lead: Lead, body: &[u8]) -> Option<Start>
    ensures computed { result ≡ start_of lead body.now (paint_of lead body.now) }
    ensures meaning { IsStart lead body.now result }
{
    match paint(lead, body) {
        Painted::Clean(_) => None,
        Painted::Touches(offset) => start_at(lead, body, offset),
    }
}
