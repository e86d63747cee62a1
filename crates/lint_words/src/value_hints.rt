//! How to write a value, by its key.

use crate::hint::Hint;
use crate::list_slips::list_hint;
use crate::odd_chars::odd_in;
use crate::values::{
    MOST_DIGITS, as_text, first_number, is_number, only_number, page_of, pence_of, unquoted,
};
use base_text::{Field, ValueKind};

const UNQUOTE: Hint<'static> = Hint::Words("leave out the quotation marks");

const ENQUOTE: Hint<'static> = Hint::Words("put it in quotation marks");

const ONE_TEXT: Hint<'static> = Hint::Words("write one text, without brackets");

pub(crate) const ROUTES_IN_BRACES: Hint<'static> = Hint::Words(
    "write routes in braces, as routes = { 0 = 1231 }",
);

const TRUE_OR_FALSE: Hint<'static> = Hint::Words("true or false, without quotation marks");

const GROUP: Hint<'static> = Hint::Words("a group is a number from 1 to 65535");

// A price that isn't a whole number.
pub(crate) fn price_hint(written: &[u8]) -> Hint<'static> {
    match pence_of(written) {
        Some(pence) => Hint::Pence(pence),
        None => Hint::Words("a price is whole pence"),
    }
}

// A page that isn't a number.
pub(crate) fn page_hint(written: &[u8]) -> Hint<'_> {
    match page_of(written) {
        Some(page) => Hint::PageAlone(page),
        None => Hint::Words("a page number is digits alone"),
    }
}

// A number in quotation marks.
fn number_hint(field: Field, written: &[u8]) -> Option<Hint<'_>> {
    match field {
        _ if is_number(unquoted(written)) => Some(UNQUOTE),
        Field::Price => Some(price_hint(written)),
        Field::Group => Some(GROUP),
        _ => Some(page_hint(written)),
    }
}

// A value in place of a number.
fn number_kind_hint(field: Field, kind: ValueKind, written: &[u8]) -> Option<Hint<'_>> {
    match kind {
        ValueKind::String => odd_in(as_text(written)).or(number_hint(field, written)),
        ValueKind::Float if field == Field::Price => Some(price_hint(written)),
        _ => None,
    }
}

// Whether pages may be written by a value of this kind.
fn has_pages(kind: ValueKind) -> bool {
    matches!(
        kind,
        ValueKind::Array | ValueKind::Integer | ValueKind::String
    )
}

// A page number in place of a frame's id.
fn page_id_hint(written: &[u8]) -> Hint<'_> {
    if is_number(written) && written.len() <= MOST_DIGITS {
        Hint::IdText(as_text(written), "a")
    } else {
        ENQUOTE
    }
}

// A value of a kind that shows alone how to write it.
fn other_kind_hint(field: Field, kind: ValueKind) -> Option<Hint<'static>> {
    match (field, kind) {
        (Field::Next, ValueKind::String) => Some(TRUE_OR_FALSE),
        (Field::Frame, ValueKind::Table) => Some(Hint::Words("write [[frame]] with two brackets")),
        (Field::Body, ValueKind::Array) => Some(Hint::Words("write a list of texts as rows")),
        (Field::Id | Field::Lead, ValueKind::Array) => Some(ONE_TEXT),
        (Field::Lead, _) => Some(Hint::Words("write \"keep\" or \"clear\"")),
        (Field::Id | Field::Body, _) => Some(ENQUOTE),
        _ => None,
    }
}

// A value in place of the list of pages outside.
fn outside_hint(kind: ValueKind, written: &[u8]) -> Option<Hint<'_>> {
    let text = unquoted(written);
    if kind != ValueKind::String || !text.contains(&b',') {
        return Some(Hint::Outside(first_number(written)?));
    }
    let is_list = text.iter().all(|b| b.is_ascii_digit() || matches!(b, b',' | b' ' | b'[' | b']'));
    Some(list_hint(if is_list { text } else { b"" }))
}

// A value in place of routes: one number is the page of a route.
fn routes_hint(written: &[u8]) -> Option<Hint<'_>> {
    match only_number(written) {
        Some(page) => Some(Hint::Routes("0", page)),
        None => Some(ROUTES_IN_BRACES),
    }
}

// A value of another kind.
pub(crate) fn kind_hint(field: Field, kind: ValueKind, written: &[u8]) -> Option<Hint<'_>> {
    match field {
        Field::Entry | Field::Price | Field::Group => number_kind_hint(field, kind, written),
        Field::Outside if has_pages(kind) => outside_hint(kind, written),
        Field::Routes if written.starts_with(b"[[frame") => {
            Some(Hint::Words("write [frame.routes], with one pair of brackets"))
        }
        Field::Routes if has_pages(kind) => routes_hint(written),
        Field::Rows if kind == ValueKind::String => Some(list_hint(written)),
        Field::Id if kind == ValueKind::Integer => Some(page_id_hint(written)),
        _ => other_kind_hint(field, kind),
    }
}

// An item of another kind.
pub(crate) fn item_hint(field: Field, kind: ValueKind, written: &[u8]) -> Option<Hint<'_>> {
    match (field, kind) {
        (Field::Outside, ValueKind::String) => number_hint(field, written),
        (Field::Routes, ValueKind::String) => match page_of(written) {
            Some(page) => Some(Hint::PageAlone(page)),
            None => Some(Hint::Words("write the page number alone, without quotation marks")),
        },
        (Field::Rows | Field::Outside, ValueKind::Array) => {
            Some(Hint::Words("write one pair of brackets"))
        }
        (Field::Rows, _) => Some(ENQUOTE),
        _ => None,
    }
}

// A value that isn't TOML, for a key that is known.
pub(crate) fn word_hint(field: Field, word: &[u8]) -> Option<Hint<'_>> {
    match field {
        Field::Price => Some(price_hint(word)),
        Field::Group => Some(GROUP),
        Field::Next => Some(TRUE_OR_FALSE),
        Field::Entry | Field::Outside | Field::Routes => Some(page_hint(word)),
        Field::Id | Field::Lead | Field::Body | Field::Rows => {
            Some(Hint::Words("put a text in quotation marks"))
        }
        Field::Frame => None,
    }
}
