//! What one sees of a frame alone, if a glance at its codes shows that an escape or a menu may be among it.

ghost use Rattle.std.specs.Prelude.{◌≡◌, ◌++◌, IfOk, OnOk};
ghost use Rattle.lint.specs.Sights as spec;

use crate::looks::Look;
use crate::offers::{add_offers, has_route, menu_of, shown};
use frame_records::Frame;
use page_ids::FrameId;
use screens::{Look as Cell, screen_looks};
use std::alloc::{AllocError, Global};
use terminal_codes::{Caret, Terminal};

// Whether a frame has digits that may be those of menu lines: some with a route, two of them, and some without.
#[derive(Debug, Clone, Copy)]
struct Digits {
    routed: bool,
    two_routed: bool,
    unrouted: bool,
}

// Whether a byte may show a digit that has a route.
fn may_show_routed(frame: &Frame, byte: u8) -> bool
    ensures { result ≡ spec.may_show_routed frame.now byte }
{
    let code = byte % 128;
    code.is_ascii_digit() && has_route(frame, code.saturating_sub(0x30))
}

// Whether a byte may show a digit that has no route.
fn may_show_unrouted(frame: &Frame, byte: u8) -> bool
    ensures { result ≡ spec.may_show_unrouted frame.now byte }
{
    let code = byte % 128;
    code.is_ascii_digit() && !has_route(frame, code.saturating_sub(0x30))
}

fn holds_routed(frame: &Frame, body: &[u8]) -> bool
    ensures { result ≡ spec.holds_routed frame.now body.now }
{
    body.iter().any(|byte| may_show_routed(frame, *byte))
}

fn holds_unrouted(frame: &Frame, body: &[u8]) -> bool
    ensures { result ≡ spec.holds_unrouted frame.now body.now }
{
    body.iter().any(|byte| may_show_unrouted(frame, *byte))
}

fn holds_u(body: &[u8]) -> bool
    ensures { result ≡ spec.holds_u body.now }
{
    body.iter().any(|byte| *byte % 128 == b'u')
}

// Whether a frame has to be drawn, by its bytes: without a u it shows no escape, without digits of both kinds no menu.
fn may_have_sights(frame: &Frame) -> bool
    ensures { result ≡ spec.may_have_sights frame.now }
{
    let body = frame.body.as_slice();
    holds_u(body) || (holds_routed(frame, body) && holds_unrouted(frame, body))
}

// Whether a space or an attribute is in the cell after a position.
fn is_before_gap(cells: &[u8; 960], at: u16) -> bool
    ensures { result ≡ spec.is_before_gap cells.now at }
{
    match cells.get(usize::from(at) + 1) {
        Some(code) => *code <= 0x20 || *code >= 0x80,
        None => false,
    }
}

// The digits, with that which a byte may show.
fn with_byte(digits: Digits, frame: &Frame, byte: u8) -> Digits
    ensures { result ≡ spec.with_byte frame.now digits byte }
{
    let is_routed = may_show_routed(frame, byte);
    Digits {
        routed: digits.routed || is_routed,
        two_routed: digits.two_routed || (digits.routed && is_routed),
        unrouted: digits.unrouted || may_show_unrouted(frame, byte),
    }
}

// The digits before a gap of the screen that a body leaves.
fn digits_before_gaps(frame: &Frame, cells: &[u8; 960]) -> Digits
    ensures { result ≡ spec.digits_before_gaps frame.now cells.now }
{
    let mut caret = Caret {
        at: 40,
        pending: false,
    };
    let mut digits = Digits {
        routed: false,
        two_routed: false,
        unrouted: false,
    };
    for byte in frame.body.as_slice() {
        if is_before_gap(cells, caret.at) {
            digits = with_byte(digits, frame, *byte);
        }
        caret = caret.step(*byte);
    }
    digits
}

// Whether one has to see the screen: a menu that offers too much has two lines with a route, and one without.
fn needs_looks(frame: &Frame, cells: &[u8; 960]) -> bool
    ensures { result ≡ spec.needs_looks frame.now cells.now }
{
    if holds_u(frame.body.as_slice()) {
        return true;
    }
    let digits = digits_before_gaps(frame, cells);
    digits.two_routed && digits.unrouted
}

// The cells of a screen, as one sees them.
fn sights_on(
    alloc: Global,
    frame: &Frame,
    cells: &[u8; 960],
    rows: &[[Cell; 40]; 24],
) -> Result<Vec<(FrameId, Look)>, AllocError>
    ensures { IfOk result (λ looks. looks.items ≡ spec.sights_on frame.now cells.now rows.now) }
{
    let mut looks = shown(alloc, frame, cells, rows)?;
    let menu = menu_of(alloc, rows)?;
    add_offers(frame, menu.as_slice(), &mut looks)?;
    Ok(looks)
}

fn sights_of(alloc: Global, frame: &Frame) -> Result<Vec<(FrameId, Look)>, AllocError>
    ensures { IfOk result (λ looks. looks.items ≡ spec.sights_of frame.now (spec.cells_alone frame.now)) }
{
    let mut terminal = Terminal::new();
    terminal.run(b"\n");
    terminal.run(frame.body.as_slice());
    let cells = terminal.cells();
    if !needs_looks(frame, cells) {
        return Ok(Vec::new(alloc));
    }
    let looks = screen_looks(cells);
    sights_on(alloc, frame, cells, looks.rows())
}

// Appends what may be wrong with what one sees of a frame.
pub fn add_sights(
    alloc: Global,
    frame: &Frame,
    looks: &mut Vec<(FrameId, Look)>,
) -> Result<(), AllocError>
    ensures { OnOk result (looks.new.items ≡ looks.old.items ++ spec.sights_if frame.now) }
{
    if may_have_sights(frame) {
        looks.extend_from_slice(sights_of(alloc, frame)?.as_slice())?;
    }
    Ok(())
}
