//! Headers that are missing, or that aren't those of a frame.

ghost use Rattle.std.specs.Prelude.{◌≤◌, ◌<◌, length, IfSome};

use crate::hint::Hint;
use crate::near_bytes::{Class, run_len, run_start};
use crate::toml_messages::DUPLICATE;
use crate::values::as_text;
use crate::written_keys::{earlier_definition, last_definition};
use page_ids::FrameId;
use toml_places::{Span, place_in};

/// The header of a frame's routes.
pub(crate) const ROUTES_HEADER: &str = "[frame.routes]";

// The line, from 1, of a place.
pub(crate) fn line_of(text: &[u8], place: usize) -> usize {
    place_in(text, place).0
}

// What follows the line at the front.
fn next_line(rest: &[u8]) -> &[u8] {
    let end = run_len(rest, Class::Line);
    rest.get(end.saturating_add(1)..).unwrap_or(b"")
}

// An `id` that is defined twice, not on lines that follow each other: a frame begins there, but its header isn't above.
pub(crate) fn no_frame_hint(text: &[u8], at: usize) -> Option<Hint<'static>>
    requires { at ≤ length text.now }
{
    let first = earlier_definition(text, at)?;
    if line_of(text, first).saturating_add(1) >= line_of(text, at) {
        None
    } else if next_line(&text[at..]).starts_with(b"[[frame]]") {
        Some(Hint::Words("move it below the line [[frame]]"))
    } else {
        Some(Hint::Words("[[frame]] is missing above this line"))
    }
}

fn begins_header(text: &[u8], at: usize) -> bool
    requires { at < length text.now }
{
    text[at] == b'[' && (at == 0 || text[at - 1] == b'\n')
}

// Where the last header before a place begins.
fn last_header(text: &[u8], end: usize) -> Option<usize>
    requires { end ≤ length text.now }
{
    let mut at = end;
    while at > 0 {
        at -= 1;
        if begins_header(text, at) {
            return Some(at);
        }
    }
    None
}

// The last part of a header's key: how many bytes are before it, and up to its end.
fn last_part(header: &[u8]) -> (usize, usize) {
    let line = header.get(..run_len(header, Class::Line)).unwrap_or(b"");
    let end = line.iter().take_while(|byte| **byte != b']').count();
    let key = line.get(..end).unwrap_or(b"");
    (run_start(key, key.len(), Class::Bare), end)
}

// The part of a text, if it is a frame's id.
fn id_in(text: &[u8], span: Span) -> Option<&[u8]>
    ensures ascends { IfSome result (λ name. span.begin ≤ span.end) }
    ensures within { IfSome result (λ name. span.end ≤ length text.now) }
{
    let name = text.get(span.begin..span.end)?;
    FrameId::read_bytes(name)?;
    Some(name)
}

// The last part of the key of the last header before a place.
fn last_key(text: &[u8], at: usize) -> Option<Span>
    requires { at ≤ length text.now }
{
    let header = last_header(text, at)?;
    let (begin, end) = last_part(text.get(header..)?);
    Some(Span {
        begin: header.saturating_add(begin),
        end: header.saturating_add(end),
    })
}

// A frame's id that was written as a header.
pub(crate) fn id_header(name: &[u8]) -> Option<Hint<'_>> {
    FrameId::read_bytes(name)?;
    Some(Hint::Header(as_text(name)))
}

// A header below one that names a frame by its id.
pub(crate) fn header_hint(text: &[u8], at: usize) -> Option<Hint<'_>>
    requires { at ≤ length text.now }
{
    Some(Hint::Header(as_text(id_in(text, last_key(text, at)?)?)))
}

// The id that was written as a header, if the routes of the frame before it are defined twice by that.
fn cause_above(text: &[u8], span: Span, message: &str) -> Option<Span>
    ensures ascends { IfSome result (λ key. key.begin ≤ key.end) }
    ensures within { IfSome result (λ key. key.end ≤ length text.now) }
{
    let rest = text.get(span.begin..)?;
    if message != DUPLICATE || !rest.starts_with(ROUTES_HEADER.as_bytes()) {
        return None;
    }
    let key = last_key(text, span.begin)?;
    id_in(text, key)?;
    Some(key)
}

/// Where the cause is of the error that toml reports of this span: if an id is written as a header, so that the frame
/// before it has routes twice, that id; or else the span.
pub fn cause_span(text: &[u8], span: Span, message: &str) -> Span
    ensures ascends { span.begin ≤ span.end → result.begin ≤ result.end }
    ensures within { span.end ≤ length text.now → result.end ≤ length text.now }
{
    match cause_above(text, span, message) {
        Some(key) => key,
        None => span,
    }
}

// A route after the routes, which are in braces.
pub(crate) fn braces_hint(text: &[u8], at: usize) -> Option<Hint<'static>>
    requires { at ≤ length text.now }
{
    let place = last_definition(text, b"routes", at)?;
    Some(Hint::Braces(line_of(text, place)))
}
