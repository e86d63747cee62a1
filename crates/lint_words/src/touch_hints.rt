//! Why a body writes into a service row.

use crate::hint::{Hint, said};
use crate::line::Line;
use abstract_paint::Start;
use frame_records::{Frame, Lead};
use std::alloc::{AllocError, Global};
use terminal_codes::{Caret, DOUBLE_HEIGHT, lead_bytes};

// The codes that move back, down, up, to the start of the row and home, and the one that clears the screen.
const BACK: u8 = 0x08;

const LINE_FEED: u8 = 0x0A;

const UP: u8 = 0x0B;

const CLEAR: u8 = 0x0C;

const RETURN: u8 = 0x0D;

const HOME: u8 = 0x1E;

// Home and a line feed: the first position of row 1.
const TO_ROW_1: &[u8] = b"\x1E\x0A";

// The rows from 1 to 22 are free.
const FREE_ROWS: usize = 22;

// How many positions a row has.
const ROW: usize = 40;

// How many rows a body writes that begins at row 1, if no line is longer than a row.
fn rows_of(body: &[u8]) -> usize {
    let body = body.strip_prefix(TO_ROW_1).unwrap_or(body);
    body.iter()
        .filter(|byte| **byte == LINE_FEED)
        .count()
        .saturating_add(1)
}

fn writes(byte: u8) -> bool {
    byte >= b' '
}

// How many characters are written without another code before them, after one more byte.
fn run_after(run: usize, byte: u8) -> usize {
    if writes(byte) {
        run.saturating_add(1)
    } else {
        0
    }
}

// Whether a line end follows a row of 40 characters.
fn ends_full_row(body: &[u8]) -> bool {
    let mut run = 0;
    let mut is_returned = false;
    for byte in body {
        if is_returned && *byte == LINE_FEED {
            return true;
        }
        is_returned = *byte == RETURN && run > 0 && run % ROW == 0;
        run = run_after(run, *byte);
    }
    false
}

// The codes by which a body goes up into row 0: the last of them before the byte there.
fn up_hint(written: &[u8]) -> Option<Hint<'static>> {
    let mut moves = written.iter().rev();
    let last = moves.find(|byte| **byte == BACK || **byte == UP || **byte == HOME)?;
    Some(Hint::Words(match *last {
        BACK => "\\u0008 goes back into row 0",
        UP => "\\u000B goes up into row 0",
        _ => "\\u001E goes to row 0: write \\u001E\\u000A",
    }))
}

// The position of the byte that touches.
fn position(lead: Lead, written: &[u8], start: &Start) -> u16 {
    let start = Caret {
        at: start.at.min(959),
        pending: start.pending,
    };
    start.run(lead_bytes(lead)).run(written).at
}

// A body that goes past row 22, or reaches past it by double height.
fn down_hint(body: &[u8], written: &[u8], byte: u8) -> Option<Hint<'static>> {
    let length = written.iter().filter(|byte| writes(**byte)).count();
    if ends_full_row(written) {
        Some(Hint::Words("leave out \\u000D\\u000A after a row of 40"))
    } else if rows_of(body) > FREE_ROWS {
        Some(Hint::Rows(rows_of(body)))
    } else if byte == DOUBLE_HEIGHT {
        Some(Hint::Words("\\u008D in row 22 reaches into the last row"))
    } else if length == written.len() {
        Some(Hint::Length(length.saturating_add(1)))
    } else {
        None
    }
}

fn moved_hint(lead: Lead, body: &[u8], start: &Start) -> Option<Hint<'static>> {
    let (written, rest) = body.split_at_checked(start.offset)?;
    if position(lead, written, start) < 40 {
        up_hint(written)
    } else {
        down_hint(body, written, *rest.first()?)
    }
}

fn body_hint(lead: Lead, body: &[u8], start: &Start) -> Option<Hint<'static>> {
    let written = body.get(..start.offset.saturating_add(1)).unwrap_or(body);
    if body.first() == Some(&CLEAR) {
        Some(Hint::Words("the body begins with \\u000C, which clears all 24 rows"))
    } else if written.contains(&CLEAR) {
        Some(Hint::Words("\\u000C clears all 24 rows"))
    } else if matches!(lead, Lead::Keep) && !body.starts_with(TO_ROW_1) {
        Some(Hint::Words("a body with lead = \"keep\" must begin with \\u001E\\u000A"))
    } else {
        moved_hint(lead, body, start)
    }
}

// The hint for a frame that is given as a body, from a start that shows its fault.
pub(crate) fn touch_hint(
    alloc: Global,
    frame: &Frame,
    start: &Start,
) -> Result<Option<Line>, AllocError> {
    said(alloc, body_hint(frame.lead, frame.body.as_slice(), start))
}
