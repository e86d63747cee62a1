//! Spans of a text: where a key, a value, a header, an element or a character is written.

ghost use Rattle.std.specs.Prelude.{◌≡◌, ℕ, ◌<◌, ◌≤◌, ◌-◌, length, slice_get, option_map, IfOk, IfSome};
ghost use Rattle.std.specs.Option.{option_copied};
ghost use Rattle.toml_parser.specs.Lexical.{right_bracket};
ghost use Rattle.toml.specs.Parse.{after_byte};
ghost use Rattle.toml_places.specs.Values.{element_from};
ghost use Rattle.toml_places.specs.Spans as spec;

use crate::elements::next_element;
use crate::keys::{after_key, after_part, part_from, value_from};
use crate::strings::{starts_char, string_char};
use crate::values::after_value;
use std::alloc::{AllocError, Global};
use toml_parser::text::{byte_at, first, skip, skip_ws};
use toml_parser::{ParseError, RECURSION_LIMIT, Scalar, unquoted};

/// A part of a text, from the offset of its first byte up to that after its last.
#[derive(Debug, Clone, Copy, PartialEq, Eq)]
pub struct Span {
    pub begin: usize,
    pub end: usize,
}

/// Where a key is written: the offset of an expression, a pair or a header, and which part of the expression's key it is, from 0.
#[derive(Debug, Clone, Copy, PartialEq, Eq)]
pub struct KeyPlace {
    pub at: usize,
    pub part: usize,
}

impl Span {
    // The span of a piece of a text: from one text on up to another, both at its end.
    fn between(text: &str, start: &str, rest: &str) -> Span
        requires within { length start.now ≤ length text.now }
        requires ascends { length rest.now ≤ length start.now }
        ensures { result ≡ spec.span_in text.now (start.now, rest.now) }
    {
        Span {
            begin: text.len() - start.len(),
            end: text.len() - rest.len(),
        }
    }
}

// The text from an offset on.
#[tactic(auto, unfolding(crate::specs::Spans::from_offset))]
pub fn from_offset(text: &str, at: usize) -> Option<&str>
    ensures value { option_copied result ≡ spec.from_offset at text.now }
    ensures within { IfSome result (λ rest. length rest.now ≤ length text.now) }
{
    if at <= text.len() && starts_char(byte_at(text, at)) {
        Some(text.split_at(at).1)
    } else {
        None
    }
}

#[tactic(auto, unfolding(crate::specs::Spans::key_start))]
fn key_start(text: &str) -> &str
    ensures rest { result.now ≡ spec.key_start text.now }
    ensures within { length result.now ≤ length text.now }
{
    if first(text) != b'[' {
        text
    } else if byte_at(text, 1) == b'[' {
        skip_ws(skip(text, 2))
    } else {
        skip_ws(skip(text, 1))
    }
}

fn after_bracket(text: &str) -> Option<&str>
    ensures value { option_copied result ≡ after_byte right_bracket text.now }
    ensures shorter { IfSome result (λ rest. length rest.now < length text.now) }
{
    if first(text) == b']' {
        Some(skip(text, 1))
    } else {
        None
    }
}

// The text after the closing brackets of a header.
#[tactic(auto, unfolding(crate::specs::Spans::after_header))]
fn after_header(text: &str) -> Option<&str>
    ensures value { option_copied result ≡ spec.after_header text.now }
    ensures within { IfSome result (λ rest. length rest.now ≤ length text.now) }
{
    let key = after_key(key_start(text))?;
    let rest = after_bracket(skip_ws(key))?;
    if byte_at(text, 1) == b'[' {
        after_bracket(rest)
    } else {
        Some(rest)
    }
}

#[tactic(auto, unfolding(crate::specs::Spans::after_pair))]
fn after_pair(text: &str) -> Option<&str>
    ensures value { option_copied result ≡ spec.after_pair text.now }
    ensures within { IfSome result (λ rest. length rest.now ≤ length text.now) }
{
    after_value(value_from(text)?, RECURSION_LIMIT)
}

// A piece of a text: the text from it on, and the text after it.
type TextPart<'a> = (&'a str, &'a str);

#[tactic(auto, unfolding(crate::specs::Spans::key_piece))]
fn key_piece(text: &str, part: usize) -> Option<TextPart<'_>>
    ensures value { option_map (λ p. (p.0.now, p.1.now)) result ≡ spec.key_piece part text.now }
    ensures within { IfSome result (λ p. (length p.0.now ≤ length text.now) × (length p.1.now ≤ length p.0.now)) }
{
    let start = part_from(key_start(text), part)?;
    let rest = after_part(start)?;
    Some((start, rest))
}

#[tactic(auto, unfolding(crate::specs::Spans::value_or_key))]
fn value_or_key(text: &str) -> Option<TextPart<'_>>
    ensures value { option_map (λ p. (p.0.now, p.1.now)) result ≡ spec.value_or_key text.now }
    ensures within { IfSome result (λ p. (length p.0.now ≤ length text.now) × (length p.1.now ≤ length p.0.now)) }
{
    if first(skip_ws(after_part(text)?)) == b'.' {
        let rest = after_key(text)?;
        return Some((text, rest));
    }
    let value = value_from(text)?;
    let rest = after_value(value, RECURSION_LIMIT)?;
    Some((value, rest))
}

fn header_piece(text: &str) -> Option<TextPart<'_>>
    ensures value { option_map (λ p. (p.0.now, p.1.now)) result ≡ spec.up_to text.now (spec.after_header text.now) }
    ensures within { IfSome result (λ p. (length p.0.now ≤ length text.now) × (length p.1.now ≤ length p.0.now)) }
{
    let rest = after_header(text)?;
    Some((text, rest))
}

#[tactic(auto, unfolding(crate::specs::Spans::value_piece))]
fn value_piece(text: &str, part: usize) -> Option<TextPart<'_>>
    ensures value { option_map (λ p. (p.0.now, p.1.now)) result ≡ spec.value_piece part text.now }
    ensures within { IfSome result (λ p. (length p.0.now ≤ length text.now) × (length p.1.now ≤ length p.0.now)) }
{
    if first(text) == b'[' {
        header_piece(text)
    } else {
        value_or_key(part_from(text, part)?)
    }
}

#[tactic(auto, unfolding(crate::specs::Spans::pair_piece))]
fn pair_piece(text: &str, part: usize) -> Option<TextPart<'_>>
    ensures value { option_map (λ p. (p.0.now, p.1.now)) result ≡ spec.pair_piece part text.now }
    ensures within { IfSome result (λ p. (length p.0.now ≤ length text.now) × (length p.1.now ≤ length p.0.now)) }
{
    if first(text) == b'[' {
        return header_piece(text);
    }
    let start = part_from(text, part)?;
    let rest = after_pair(start)?;
    Some((start, rest))
}

#[tactic(auto, unfolding(crate::specs::Spans::frame_piece))]
fn frame_piece(text: &str) -> Option<TextPart<'_>>
    ensures value { option_map (λ p. (p.0.now, p.1.now)) result ≡ spec.frame_piece text.now }
    ensures within { IfSome result (λ p. (length p.0.now ≤ length text.now) × (length p.1.now ≤ length p.0.now)) }
{
    if first(text) == b'[' {
        return header_piece(text);
    }
    let rest = after_value(text, RECURSION_LIMIT)?;
    Some((text, rest))
}

/// The key itself, with its quotation marks. `None` if no such part of a key is there.
pub fn key_span(text: &str, spot: KeyPlace) -> Option<Span>
    ensures { result ≡ spec.key_span spot text.now }
{
    let (start, rest) = key_piece(from_offset(text, spot.at)?, spot.part)?;
    Some(Span::between(text, start, rest))
}

/// The value of a key. Of a table that a header or a dotted key makes, that header, or the key from there on.
pub fn value_span(text: &str, spot: KeyPlace) -> Option<Span>
    ensures { result ≡ spec.value_span spot text.now }
{
    let (start, rest) = value_piece(from_offset(text, spot.at)?, spot.part)?;
    Some(Span::between(text, start, rest))
}

/// A key with its value, as `9 = 555`; of `routes.9 = 555` the same. If a header makes the table, the header.
pub fn pair_span(text: &str, spot: KeyPlace) -> Option<Span>
    ensures { result ≡ spec.pair_span spot text.now }
{
    let (start, rest) = pair_piece(from_offset(text, spot.at)?, spot.part)?;
    Some(Span::between(text, start, rest))
}

/// The header at an offset, with its brackets; of a frame in an inline array the table at an offset.
pub fn frame_span(text: &str, at: usize) -> Option<Span>
    ensures { result ≡ spec.frame_span at text.now }
{
    let (start, rest) = frame_piece(from_offset(text, at)?)?;
    Some(Span::between(text, start, rest))
}

// The spans of the elements from here on.
fn spans_from(alloc: Global, text: &str, elements: &str) -> Result<Vec<Span>, AllocError>
    requires { length elements.now ≤ length text.now }
    ensures { IfOk result (λ spans. (k : ℕ) → slice_get spans.items k ≡
        option_map (spec.span_in text.now) (element_from k elements.now)) }
{
    let mut spans = Vec::new(alloc);
    let mut rest = elements;
    'elements: loop {
        let Some((start, end, next)) = next_element(rest) else {
            return Ok(spans);
        };
        spans.push(Span::between(text, start, end))?;
        rest = next;
    }
}

/// The elements of the array at an offset, in order; none if no array is there. The array is read once.
pub fn element_spans(alloc: Global, text: &str, at: usize) -> Result<Vec<Span>, AllocError>
    ensures { IfOk result (λ spans. (k : ℕ) → slice_get spans.items k ≡ spec.element_span k at text.now) }
{
    match from_offset(text, at) {
        Some(array) => {
            if first(array) == b'[' {
                spans_from(alloc, text, skip(array, 1))
            } else {
                Ok(Vec::new(alloc))
            }
        }
        None => Ok(Vec::new(alloc)),
    }
}

// The integer that a text begins with.
fn integer_in(alloc: Global, text: &str) -> Result<Option<i64>, AllocError>
    ensures { IfOk result (λ n. n ≡ spec.integer_in text.now) }
{
    match unquoted(alloc, text) {
        Ok((Scalar::Integer(number), _)) => Ok(Some(number)),
        Ok(_) => Ok(None),
        Err(ParseError::OutOfMemory) => Err(AllocError),
        Err(_) => Ok(None),
    }
}

/// The integer that is written at an offset; `None` if anything else is there.
pub fn integer_at(alloc: Global, text: &str, at: usize) -> Result<Option<i64>, AllocError>
    ensures { IfOk result (λ n. n ≡ spec.integer_at at text.now) }
{
    match from_offset(text, at) {
        Some(value) => integer_in(alloc, value),
        None => Ok(None),
    }
}

/// A character, by its index from 0, of the string at an offset, as it is written: `\u00E9` is six characters of the text.
pub fn char_span(text: &str, at: usize, index: usize) -> Option<Span>
    ensures { result ≡ spec.char_span index at text.now }
{
    let (start, rest) = string_char(from_offset(text, at)?, index)?;
    Some(Span::between(text, start, rest))
}
