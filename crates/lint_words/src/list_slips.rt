//! Lists and pairs in no brackets or the wrong ones, and numbers with spaces.

use crate::hint::Hint;
use crate::near_bytes::{Class, after, run_len};
use crate::values::as_text;
use toml_parser::bytes::byte_at;

// The most bytes of a value that a hint repeats.
const LONGEST: usize = 60;

// What is inside of one pair of brackets of any kind, or all of a value without them.
fn inside(value: &[u8]) -> &[u8] {
    let value = value.trim_ascii();
    let items = match value {
        [b'(' | b'{' | b'[', items @ .., b')' | b'}' | b']'] => items.trim_ascii(),
        _ => value,
    };
    without_end(items).trim_ascii()
}

fn opens(byte: u8) -> bool {
    matches!(byte, b'(' | b'{' | b'[')
}

// A value without the last bracket, if nothing opens it.
fn without_end(value: &[u8]) -> &[u8] {
    match value {
        [front @ .., b')' | b'}' | b']'] if !front.iter().any(|byte| opens(*byte)) => front,
        _ => value,
    }
}

// The items of a value, if it is short and ends on its line.
fn short_items(value: &[u8]) -> Option<&str> {
    let items = inside(value);
    let is_open = matches!(
        items,
        [b'(' | b'{' | b'[', ..] | [.., b','] | [b'"', b'"', b'"', ..] | [b'\'', b'\'', b'\'', ..]
    );
    let is_short = !items.is_empty() && items.len() <= LONGEST;
    (is_short && !is_open && !items.contains(&b'#')).then_some(as_text(items))
}

// A list that has no brackets, or others.
pub(crate) fn list_hint(value: &[u8]) -> Hint<'_> {
    match short_items(value) {
        Some(items) => Hint::List(items),
        None => Hint::Words("write a list in square brackets, as [0, 1] or [\"A\", \"B\"]"),
    }
}

// Routes that have other brackets than braces.
pub(crate) fn pairs_hint(value: &[u8]) -> Hint<'_> {
    match short_items(value) {
        Some(pairs) => Hint::Pairs(pairs),
        None => Hint::Words("write routes in braces, as { 0 = 1231 }"),
    }
}

// A number with a space in it, after which no `=` follows.
pub(crate) fn joined_hint(rest: &[u8]) -> Option<Hint<'_>> {
    let front = rest.get(..run_len(rest, Class::Digit))?;
    let blanks = after(rest, Class::Digit);
    let next = after(blanks, Class::Blank);
    let back = next.get(..run_len(next, Class::Digit))?;
    let follows = after(after(next, Class::Digit), Class::Blank);
    let is_joined = !front.is_empty() && !back.is_empty() && byte_at(follows, 0) != b'=';
    is_joined.then_some(Hint::Joined(as_text(front), as_text(back)))
}
