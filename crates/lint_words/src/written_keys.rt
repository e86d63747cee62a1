//! The key of an expression, and where it was defined before.

ghost use Rattle.std.specs.Prelude.{◌≤◌, ◌<◌, length};

use crate::backwards::Turn;
use crate::near_bytes::{Class, ends_key, run_len, run_start};
use crate::near_key::FIELDS;
use base_text::Field;
use toml_parser::bytes::byte_at;

// The part of a key that ends at a place, blanks aside.
fn part_before(text: &[u8], at: usize) -> &[u8]
    requires { at ≤ length text.now }
{
    let end = run_start(text, at, Class::Blank);
    let start = run_start(text, end, Class::Bare);
    &text[start..end]
}

// The last part of the key of the expression at a place.
pub(crate) fn name_at(text: &[u8], at: usize) -> &[u8]
    requires { at ≤ length text.now }
{
    part_before(text, at + run_len(&text[at..], Class::Key))
}

// The last part of the key whose equals sign ends at a place.
pub(crate) fn name_before(text: &[u8], after: usize) -> &[u8] {
    let equals = after.min(text.len()).saturating_sub(1);
    part_before(text, equals)
}

// The key of a name, or `routes` for a digit.
pub(crate) fn named_field(name: &[u8]) -> Option<Field> {
    match name {
        [digit] if digit.is_ascii_digit() => Some(Field::Routes),
        _ => FIELDS
            .iter()
            .find(|field| field.name().as_bytes() == name)
            .copied(),
    }
}

// Whether a part of a key that is this name ends at a place.
fn ends_name(text: &[u8], name: &[u8], at: usize) -> bool
    requires { at < length text.now }
{
    let byte = text[at];
    (ends_key(byte) || byte == b'.') && part_before(text, at) == name
}

pub(crate) fn begins_element(text: &[u8], at: usize) -> bool
    requires { at < length text.now }
{
    text[at] == b'[' && byte_at(text, at + 1) == b'['
}

fn definition_turn(text: &[u8], name: &[u8], at: usize) -> Turn
    requires { at < length text.now }
{
    if ends_name(text, name, at) {
        Turn::Found
    } else if begins_element(text, at) {
        Turn::Stop
    } else {
        Turn::Continue
    }
}

// Where a name was defined last before a place, in the same table.
pub(crate) fn last_definition(text: &[u8], name: &[u8], end: usize) -> Option<usize>
    requires { end ≤ length text.now }
{
    let mut at = end;
    while at > 0 {
        at -= 1;
        match definition_turn(text, name, at) {
            Turn::Found => return Some(at),
            Turn::Stop => return None,
            Turn::Continue => {}
        }
    }
    None
}

// Where the name of the expression at a place was defined before, if it is a bare word.
pub(crate) fn earlier_definition(text: &[u8], at: usize) -> Option<usize>
    requires { at ≤ length text.now }
{
    let name = name_at(text, at);
    if name.is_empty() {
        None
    } else {
        last_definition(text, name, at)
    }
}
