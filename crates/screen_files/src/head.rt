//! What row 0 and the name of a file say of a screen.

ghost use Rattle.std.specs.Prelude.{◌≡◌, ◌<◌, IfSome, length, map, take};
ghost use Rattle.page_ids.specs.Parts.{parts_of};
ghost use Rattle.screen_files.specs.Heads as spec;

use crate::rows::row_copy;
use frame_records::Pence;
use page_ids::{FrameId, cut};
use screen_forms::any_case_id;

/// What row 0 of a screen shows.
#[derive(Debug, Clone, Copy, PartialEq, Eq)]
pub struct Head {
    /// The last id.
    pub id: Option<FrameId>,
    /// The price at its end.
    pub price: Option<Pence>,
}

// The last part of a text that is cut at a byte.
fn last_part(text: &[u8], separator: u8) -> &[u8]
    ensures { result.now ≡ spec.last_part (parts_of separator text.now) }
{
    let mut rest = text;
    while let Some((_, more)) = cut(rest, separator) {
        rest = more;
    }
    rest
}

// The id of a word, or the one before.
fn newer(before: Option<FrameId>, id: Option<FrameId>) -> Option<FrameId>
    ensures { result ≡ spec.newer before id }
{
    match id {
        Some(id) => Some(id),
        None => before,
    }
}

// The last id among the words of a text.
fn text_id(text: &[u8]) -> Option<FrameId>
    ensures { result ≡ spec.text_id text.now }
{
    let mut found = None;
    let mut rest = text;
    while let Some((word, more)) = cut(rest, b' ') {
        found = newer(found, FrameId::read_bytes(word));
        rest = more;
    }
    newer(found, FrameId::read_bytes(rest))
}

// The price that a text spells, as `5p`.
fn price_in(text: &[u8]) -> Option<Pence>
    ensures { result ≡ spec.price_in text.now }
{
    let id = FrameId::read_bytes(text)?;
    if id.letter.get() != b'p' {
        return None;
    }
    Pence::new(u16::try_from(id.page.get()).ok()?)
}

// The price that ends a text, and the column at which it begins.
fn price_of(text: &[u8]) -> Option<(usize, Pence)>
    ensures value { result ≡ spec.price_from 0 text.now }
    ensures within { IfSome result (λ found. found.0 < length text.now) }
{
    for column in 0..text.len() {
        if let Some(price) = price_in(&text[column..]) {
            return Some((column, price));
        }
    }
    None
}

// Whether a text ends in a space or in an id.
fn may_end(text: &[u8]) -> bool
    ensures { result ≡ spec.may_end text.now }
{
    let word = last_part(text, b' ');
    word.is_empty() || FrameId::read_bytes(word).is_some()
}

// What a text shows, without a price.
fn unpriced(text: &[u8]) -> Head
    ensures { result ≡ spec.unpriced text.now }
{
    Head {
        id: text_id(text),
        price: None,
    }
}

// What the text of row 0 shows.
fn head_of(text: &[u8]) -> Head
    ensures { result ≡ spec.head_of text.now }
{
    match price_of(text) {
        Some((column, price)) if may_end(&text[..column]) => Head {
            id: text_id(&text[..column]),
            price: Some(price),
        },
        _ => unpriced(text),
    }
}

fn spaced(code: u8) -> u8
    ensures { result ≡ spec.spaced code }
{
    if code < 0x80 { code } else { b' ' }
}

// Row 0, with spaces for its attributes.
fn top_text(codes: &[u8; 960]) -> [u8; 40]
    ensures { result ≡ map spec.spaced (take 40 codes.now) }
{
    let mut row = row_copy(codes, 0);
    for code in row.iter_mut() {
        *code = spaced(*code);
    }
    row
}

/// What row 0 of a screen shows. The price is `Np` at its end, of at most 9999 pence without leading zeros, alone or right after the
/// id. The id is the last word that is one, between spaces, attributes, the price and the ends of the row.
pub fn screen_head(codes: &[u8; 960]) -> Head
    ensures { result ≡ spec.screen_head codes.now }
{
    head_of(&top_text(codes))
}

// A text up to its first separator.
fn first_part(text: &[u8], separator: u8) -> &[u8]
    ensures { result.now ≡ spec.first_part (parts_of separator text.now) }
{
    match cut(text, separator) {
        Some((first, _)) => first,
        None => text,
    }
}

// What is before the first space, `-` or `_`.
fn first_word(text: &[u8]) -> &[u8]
    ensures { result.now ≡ spec.first_word text.now }
{
    first_part(first_part(first_part(text, b' '), b'-'), b'_')
}

// What is after the last space, `-` or `_`.
fn last_word(text: &[u8]) -> &[u8]
    ensures { result.now ≡ spec.last_word text.now }
{
    last_part(last_part(last_part(text, b' '), b'-'), b'_')
}

// The id that ends a stem, unless one begins it.
fn end_id(stem: &[u8]) -> Option<FrameId>
    ensures { result ≡ spec.end_id stem.now }
{
    if any_case_id(first_word(stem)).is_some() {
        None
    } else {
        any_case_id(last_word(stem))
    }
}

// What follows the last `/` of a path, up to the first dot.
fn name_stem(path: &[u8]) -> &[u8]
    ensures { result.now ≡ spec.name_stem path.now }
{
    first_part(last_part(path, b'/'), b'.')
}

/// The id in the name of a file: what follows the last `/` of its path, up to the first dot, if that is an id; else what follows the
/// last space, `-` or `_` of that, unless what is before the first is an id too. The letter may be a capital.
pub fn name_id(path: &str) -> Option<FrameId>
    ensures { result ≡ spec.name_id path.now }
{
    let stem = name_stem(path.as_bytes());
    any_case_id(stem).or(end_id(stem))
}
