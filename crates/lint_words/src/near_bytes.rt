//! Sets of bytes, and runs of them.

ghost use Rattle.std.specs.Prelude.{◌≤◌, length};

use toml_parser::bytes::{byte_at, is_bare, is_ws};

#[derive(Clone, Copy)]
pub enum Class {
    Blank,
    Digit,
    Bare,
    Path,
    Key,
    Line,
}

// Whether a byte ends the key of a pair, or that of a header.
pub(crate) fn ends_key(byte: u8) -> bool {
    byte == b'=' || byte == b']'
}

fn is_in(class: Class, byte: u8) -> bool {
    match class {
        Class::Blank => is_ws(byte),
        Class::Digit => byte.is_ascii_digit(),
        Class::Bare => is_bare(byte),
        Class::Path => is_bare(byte) || byte == b'.',
        Class::Key => !ends_key(byte),
        Class::Line => byte != b'\n',
    }
}

// How many bytes at the front are of the class.
pub(crate) fn run_len(bytes: &[u8], class: Class) -> usize
    ensures within { result ≤ length bytes.now }
{
    bytes.iter().take_while(|b| is_in(class, **b)).count()
}

// What follows the bytes of a class at the front.
pub(crate) fn after(bytes: &[u8], class: Class) -> &[u8] {
    &bytes[run_len(bytes, class)..]
}

// Where the bytes of a class begin that end at a place.
pub(crate) fn run_start(bytes: &[u8], end: usize, class: Class) -> usize
    requires { end ≤ length bytes.now }
    ensures within { result ≤ end }
{
    let mut start = end;
    while start > 0 && is_in(class, bytes[start - 1]) {
        start -= 1;
    }
    start
}

// Whether a pair begins whose key begins with a letter.
pub(crate) fn begins_pair(bytes: &[u8]) -> bool {
    let rest = after(after(bytes, Class::Path), Class::Blank);
    byte_at(bytes, 0).is_ascii_alphabetic() && byte_at(rest, 0) == b'='
}

// Whether a line begins as a header, or as such a pair.
pub(crate) fn begins_expression(line: &[u8]) -> bool {
    let start = after(line, Class::Blank);
    byte_at(start, 0) == b'[' || begins_pair(start)
}
