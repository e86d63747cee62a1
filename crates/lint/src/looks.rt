//! What may be wrong with what frames show, by their codes alone; how the text writes it decides.

ghost use Rattle.std.specs.Prelude.{◌≡◌, ◌++◌, ◌<◌, OnOk};
ghost use Rattle.lint.specs.Looks as spec;

use frame_records::{Frame, GroupNo};
use lint_words::LineEnd;
use page_ids::FrameId;
use screens::{hides_text, row_codes};
use std::alloc::AllocError;
use terminal_codes::{Caret, Terminal};

// The attribute double height.
const DOUBLE: u8 = 0x8d;

// What may be wrong with what a frame shows.
#[derive(Debug, Clone, Copy)]
pub enum Look {
    // The text of a row, by its number from 1, is hidden, if the frame is given as rows.
    Hidden(usize),
    // A row, by its number, has an escape, which is none in single quotation marks.
    Escape(usize),
    // A line of the body ends so: the code at this index is the line feed, and text goes on after it.
    EndsLine(LineEnd, usize),
    // A row of the screen, by its number, shows an escape, which the code at this index of the body begins; whether the row has one
    // that is none in single quotation marks.
    Shown(usize, Option<usize>, bool),
    // A row of the screen, by its number, offers a key that has no route: the code at this index of the body is the digit.
    Offers(usize, Option<usize>, u8),
    // No way leads to the frame, which is closed, of this group.
    Unsought(GroupNo),
}

// Whether codes begin with \u00.
fn begins_escape(codes: &[u8]) -> bool
    ensures { result ≡ spec.begins_escape codes.now }
{
    match codes {
        [a, b, c, d, ..] => *a == b'\\' && *b == b'u' && *c == b'0' && *d == b'0',
        _ => false,
    }
}

// Whether \u00 is among codes.
pub fn holds_escape(codes: &[u8]) -> bool
    ensures { result ≡ spec.holds_escape codes.now }
{
    match codes {
        [] => false,
        [_, rest @ ..] => begins_escape(codes) || holds_escape(rest),
    }
}

fn add_row(
    frame: FrameId,
    cells: &[u8; 960],
    row: usize,
    looks: &mut Vec<(FrameId, Look)>,
) -> Result<(), AllocError>
    requires { row < 24 }
    ensures { OnOk result (looks.new.items ≡ looks.old.items ++ spec.row_warnings frame cells.now row) }
{
    if hides_text(cells, row) {
        looks.push((frame, Look::Hidden(row)))?;
    }
    if holds_escape(row_codes(cells, row)) {
        looks.push((frame, Look::Escape(row)))?;
    }
    Ok(())
}

// Appends what may be wrong with the rows of a screen, from 1 to 22.
fn add_rows(
    frame: FrameId,
    cells: &[u8; 960],
    looks: &mut Vec<(FrameId, Look)>,
) -> Result<(), AllocError>
    ensures { OnOk result (looks.new.items ≡ looks.old.items ++ spec.rows_up_to frame cells.now 22) }
{
    for above in 0..22 {
        add_row(frame, cells, above + 1, looks)?;
    }
    Ok(())
}

fn add_rows_of(frame: &Frame, looks: &mut Vec<(FrameId, Look)>) -> Result<(), AllocError>
    ensures { OnOk result (looks.new.items ≡ looks.old.items ++ spec.body_warnings frame.now) }
{
    let mut terminal = Terminal::new();
    terminal.run(frame.body.as_slice());
    add_rows(frame.id, terminal.cells(), looks)
}

// Rows have no escapes of the terminal: without the byte 8D none has double height.
fn needs_rows(body: &[u8]) -> bool
    ensures { result ≡ spec.needs_rows body.now }
{
    body.contains(&DOUBLE) || body.contains(&b'\\')
}

pub fn add_rows_if(frame: &Frame, looks: &mut Vec<(FrameId, Look)>) -> Result<(), AllocError>
    ensures { OnOk result (looks.new.items ≡ looks.old.items ++ spec.rows_if frame.now) }
{
    if needs_rows(frame.body.as_slice()) {
        add_rows_of(frame, looks)
    } else {
        Ok(())
    }
}

// Whether a byte leaves another column than the first by this code.
fn leaves_by(code: u8, caret: Caret, byte: u8) -> bool
    ensures { result ≡ spec.leaves_by code caret byte }
{
    byte == code && caret.at % 40 != 0
}

// The index of a byte that is a line feed, either in another column than the first or after a return from one.
fn feed_at(end: LineEnd, caret: Caret, returned: bool, byte: u8, index: usize) -> Option<usize>
    ensures { result ≡ spec.feed_at end caret returned byte index }
{
    let ends = match end {
        LineEnd::Feed => leaves_by(b'\n', caret, byte),
        LineEnd::Return => byte == b'\n' && returned,
    };
    if ends { Some(index) } else { None }
}

// The index of the first such line feed of a body, as it is sent after a cleared screen, that text follows.
fn line_end_of(end: LineEnd, body: &[u8]) -> Option<usize>
    ensures { result ≡ spec.line_end_of end body.now }
{
    let mut caret = Caret {
        at: 40,
        pending: false,
    };
    let mut returned = false;
    let mut feed = None;
    for (index, byte) in body.iter().enumerate() {
        if *byte >= 0x20 && feed.is_some() {
            return feed;
        }
        feed = feed_at(end, caret, returned, *byte, index);
        returned = leaves_by(b'\r', caret, *byte);
        caret = caret.step(*byte);
    }
    None
}

pub fn add_line_end(
    frame: &Frame,
    end: LineEnd,
    looks: &mut Vec<(FrameId, Look)>,
) -> Result<(), AllocError>
    ensures { OnOk result (looks.new.items
        ≡ looks.old.items ++ spec.line_end_if frame.now.id end (spec.line_end_of end frame.now.body)) }
{
    if let Some(index) = line_end_of(end, frame.body.as_slice()) {
        looks.push((frame.id, Look::EndsLine(end, index)))?;
    }
    Ok(())
}
