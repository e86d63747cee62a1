//! The hint for a fault of a text.

use crate::headers::id_header;
use crate::hint::{Hint, said, words_of};
use crate::line::Line;
use crate::near_bytes::{Class, run_len};
use crate::near_key::{is_key, nearest};
use crate::odd_chars::{mosaic_hint, odd_hint, odd_in};
use crate::value_hints::{ROUTES_IN_BRACES, item_hint, kind_hint};
use crate::values::{MOST_DIGITS, first_number, is_number};
use base_text::{Detail, Field, TableKind, TextFault};
use std::alloc::{AllocError, Global};

/// What the text has around a fault, for its hint.
#[derive(Debug, Clone, Copy)]
pub struct Written<'a> {
    /// The value that is at fault, or that of an unknown key, as it is written; empty if it isn't known.
    pub value: &'a [u8],
    /// Whether an unknown key is that of a header; of a key of routes, whether they have a header.
    pub in_header: bool,
    /// The line, from 1, on which the first frame begins.
    pub first_frame: usize,
}

// How to write a character that can't be there: by the code that shows it, or by one that looks alike.
fn code_hint(c: char) -> Option<Hint<'static>> {
    shown_hint(c).or(mosaic_hint(c)).or(odd_hint(c))
}

// A character that the terminal shows by another code.
fn shown_hint(c: char) -> Option<Hint<'static>> {
    let words = match c {
        '\t' => "write spaces",
        '\u{1B}' => "write the attribute by its code, \\u0080 to \\u009F",
        '\u{A0}' => "write a space",
        '\u{A3}' => "write # for a pound sign",
        '\u{2013}' | '\u{2014}' => "write -",
        '\u{2018}' | '\u{2019}' => "write '",
        '\u{201C}' | '\u{201D}' => "write \\\"",
        '\u{2190}' => "write [ for \u{2190}",
        '\u{BD}' => "write \\\\ for \u{BD}",
        '\u{2192}' => "write ] for \u{2192}",
        '\u{2191}' => "write ^ for \u{2191}",
        '\u{BC}' => "write { for \u{BC}",
        '\u{2016}' => "write | for \u{2016}",
        '\u{BE}' => "write } for \u{BE}",
        '\u{F7}' => "write ~ for \u{F7}",
        '\u{25A0}' => "write \\u007F for \u{25A0}",
        _ => return None,
    };
    Some(Hint::Words(words))
}

const OPEN_TO_ALL: Hint<'static> = Hint::Words("leave group out for a frame that is open to all");

// An id that doesn't read.
fn id_hint(text: &str) -> Hint<'_> {
    odd_in(text).unwrap_or(plain_id_hint(text))
}

// An id of plain letters: the one that was meant, if only zeros are too many, or the letter is missing.
fn plain_id_hint(text: &str) -> Hint<'_> {
    let id = text.trim_start_matches('0');
    let digits = run_len(id.as_bytes(), Class::Digit);
    let is_page = 0 < digits && digits <= MOST_DIGITS;
    match id.as_bytes().get(digits..) {
        Some([]) if is_page => Hint::FrameId(id, "a"),
        Some([letter]) if is_page && id != text && letter.is_ascii_lowercase() => {
            Hint::FrameId(id, "")
        }
        _ => Hint::Words("write a page number and one small letter, as 1231a"),
    }
}

// A route among the keys of its frame.
fn route_hint<'a>(digit: &'a str, value: &'a [u8]) -> Hint<'a> {
    match first_number(value) {
        Some(page) if is_number(value) => Hint::Routes(digit, page),
        _ => ROUTES_IN_BRACES,
    }
}

// A key of the top that a frame doesn't have, a word that is a value of one, a word for what a frame shows, or a route.
fn frame_key_hint<'a>(key: &'a str, written: &Written<'a>) -> Option<Hint<'a>> {
    match key.as_bytes() {
        b"entry" | b"outside" => Some(Hint::Above(written.first_frame)),
        b"keep" | b"clear" => Some(Hint::Lead(key)),
        b"text" | b"lines" | b"content" | b"screen" => {
            Some(Hint::Words("write what it shows as rows = [\"A\", \"B\"]"))
        }
        [digit] if digit.is_ascii_digit() => Some(route_hint(key, written.value)),
        _ => None,
    }
}

// A key of a frame at the top.
fn top_key_hint(key: &str, in_header: bool) -> Option<Hint<'static>> {
    if key == Field::Id.name() {
        Some(Hint::Words("[[frame]] is missing above this line"))
    } else if key == Field::Routes.name() && in_header {
        Some(Hint::Words("write [frame.routes]"))
    } else if is_key(TableKind::Frame, key) {
        Some(Hint::Words("write it below [[frame]]"))
    } else {
        None
    }
}

// A key of a frame among its routes.
fn routes_key_hint(key: &str, in_header: bool) -> Option<Hint<'static>> {
    if key == "#" {
        Some(Hint::Words("for the next frame write next = true"))
    } else if !is_key(TableKind::Frame, key) {
        None
    } else if in_header {
        Some(Hint::Words("move it above [frame.routes]"))
    } else {
        Some(Hint::Words("write it outside of routes"))
    }
}

// A key that the table doesn't have, but another has.
fn misplaced_hint<'a>(table: TableKind, key: &'a str, written: &Written<'a>) -> Option<Hint<'a>> {
    match table {
        TableKind::Top => top_key_hint(key, written.in_header),
        TableKind::Frame => frame_key_hint(key, written),
        TableKind::Routes => routes_key_hint(key, written.in_header),
    }
}

// A key that isn't one, by its own letters.
fn wrong_key_hint<'a>(table: TableKind, key: &'a str, written: &Written<'a>) -> Option<Hint<'a>> {
    odd_in(key)
        .or(misplaced_hint(table, key, written))
        .or(id_header(key.as_bytes()))
}

// A key that the table doesn't have.
fn key_hint<'a>(
    alloc: Global,
    table: TableKind,
    key: &'a str,
    written: &Written<'a>,
) -> Result<Option<Line>, AllocError> {
    let wrong = wrong_key_hint(table, key, written);
    if wrong.is_some() {
        return said(alloc, wrong);
    }
    match nearest(alloc, table, key)? {
        None => Ok(None),
        Some(meant) => words_of(alloc, Hint::Meant(meant)),
    }
}

// How to fix a fault of a text, if there is more to say. One that is listed for others has no hint.
pub(crate) fn text_hint(
    alloc: Global,
    fault: &TextFault,
    written: &Written<'_>,
) -> Result<Option<Line>, AllocError> {
    if fault.unlisted > 0 {
        return Ok(None);
    }
    match &fault.detail {
        Detail::UnknownKey(table, key) => key_hint(alloc, *table, key.as_str(), &*written),
        Detail::WrongKind(field, kind) => said(alloc, kind_hint(*field, *kind, written.value)),
        Detail::WrongItem(field, _, kind) => said(alloc, item_hint(*field, *kind, written.value)),
        Detail::Lead(text) => said(alloc, odd_in(text.as_str())),
        Detail::Number(Field::Group, 0) => words_of(alloc, OPEN_TO_ALL),
        Detail::BodyCode(_, c) | Detail::RowCode(_, _, c) => said(alloc, code_hint(*c)),
        Detail::BadFrame(text) => words_of(alloc, id_hint(text.as_str())),
        _ => Ok(None),
    }
}
