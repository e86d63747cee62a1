//! A bracket or a brace that isn't closed.

ghost use Rattle.std.specs.Prelude.{◌≤◌, ◌<◌, length, IfSome};

use crate::backwards::Turn;
use crate::near_bytes::{Class, after, begins_expression, run_start};
use crate::written_keys::begins_element;
use toml_parser::bytes::byte_at;

fn closes(byte: u8) -> bool {
    byte == b']' || byte == b'}'
}

fn opens(byte: u8) -> bool {
    byte == b'[' || byte == b'{'
}

// The byte before a place, blanks aside.
fn byte_before(text: &[u8], at: usize) -> u8
    requires { at ≤ length text.now }
{
    let end = run_start(text, at, Class::Blank);
    byte_at(text, end.saturating_sub(1))
}

// Whether a bracket or a brace opens a value.
fn opens_value(text: &[u8], at: usize) -> bool
    requires { at < length text.now }
{
    opens(text[at]) && byte_before(text, at) == b'='
}

fn bracket_turn(text: &[u8], at: usize) -> Turn
    requires { at < length text.now }
{
    if opens_value(text, at) {
        Turn::Found
    } else if closes(text[at]) {
        Turn::Stop
    } else {
        Turn::Continue
    }
}

// The bracket or brace that is open at a place.
fn open_before(text: &[u8], end: usize) -> Option<usize>
    requires { end ≤ length text.now }
{
    let mut at = end;
    while at > 0 {
        at -= 1;
        match bracket_turn(text, at) {
            Turn::Found => return Some(at),
            Turn::Stop => return None,
            Turn::Continue => {}
        }
    }
    None
}

// Where a list or table had to be closed at the latest.
fn latest_end(text: &[u8], at: usize) -> Option<usize>
    requires { at ≤ length text.now }
    ensures within { IfSome result (λ end. end ≤ length text.now) }
{
    let start = run_start(text, at, Class::Line);
    if at == text.len() {
        Some(at)
    } else if begins_expression(&text[start..]) {
        Some(start)
    } else {
        None
    }
}

// The bracket or brace that isn't closed where it had to be.
pub(crate) fn open_bracket(text: &[u8], at: usize) -> Option<usize>
    requires { at ≤ length text.now }
{
    open_before(text, latest_end(text, at)?)
}

// Whether `#` is written as a key after a brace on its line.
fn is_next_key(text: &[u8], at: usize) -> bool
    requires { at < length text.now }
{
    let (before, rest) = text.split_at(at);
    let line = &before[run_start(before, before.len(), Class::Line)..];
    match rest {
        [b'#', value @ ..] => line.contains(&b'{')
            && byte_at(after(value, Class::Blank), 0) == b'=',
        _ => false,
    }
}

// Whether `#` is written as a key of routes before a place, in the same frame.
pub(crate) fn has_next_key(text: &[u8], end: usize) -> bool
    requires { end ≤ length text.now }
{
    let mut at = end;
    while at > 0 {
        at -= 1;
        if is_next_key(text, at) {
            return true;
        }
        if begins_element(text, at) {
            return false;
        }
    }
    false
}
