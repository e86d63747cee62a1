//! Addresses of edit.tf among the lines of a text.

ghost use Rattle.std.specs.Prelude.{◌≡◌, ◌≤◌, ◌+◌, IfOk, IfSome, length, true};
ghost use Rattle.std.specs.Option.{is_some};
ghost use Rattle.screen_forms.specs.Addresses as spec;
ghost use Rattle.screen_forms.specs.TextScreens.{AreTextScreens};
ghost use Rattle.screen_forms.specs.Loops as loops;

use crate::links::{is_link_letter, link_codes};
use crate::text_screens::{
    FaultyLine, TextLineFault, TextScreen, TextScreensFault, after_byte_mark,
};
use crate::words::{any_case_id, number_id, word_before};
use page_ids::{FrameId, cut};
use std::alloc::{AllocError, Global};

fn is_hex_digit(byte: u8) -> bool
    ensures { result ≡ spec.is_hex_digit byte }
{
    matches!(byte, b'0'..=b'9' | b'A'..=b'F' | b'a'..=b'f')
}

// Whether a text begins with what comes before the letters: `#`, a hex digit and `:`.
fn is_mark(text: &[u8]) -> bool
    ensures value { result ≡ spec.is_mark text.now }
    ensures long { result ≡ true → 3 ≤ length text.now }
{
    text.len() >= 3 && text[0] == b'#' && is_hex_digit(text[1]) && text[2] == b':'
}

// Where the first one is.
#[tactic(auto, using(crate::proofs::Walks::mark_here, crate::proofs::Walks::mark_later, crate::proofs::Walks::mark_none))]
fn address_at(text: &[u8]) -> Option<usize>
    ensures value { result ≡ spec.address_at text.now }
    ensures within { IfSome result (λ at. at + 3 ≤ length text.now) }
{
    for at in 0..text.len() {
        if is_mark(&text[at..]) {
            return Some(at);
        }
    }
    None
}

/// Whether a text has an address: `#`, a hex digit and `:`, and then its letters.
pub fn has_address(text: &[u8]) -> bool
    ensures { result ≡ is_some (spec.address_at text.now) }
{
    address_at(text).is_some()
}

// How many letters begin a text.
#[tactic(auto, using(crate::proofs::Walks::letters_here, crate::proofs::Walks::letters_later, crate::proofs::Walks::letters_none))]
fn letters_of(text: &[u8]) -> usize
    ensures value { result ≡ spec.letters_from 0 text.now }
    ensures within { result ≤ length text.now }
{
    for at in 0..text.len() {
        if !is_link_letter(text[at]) {
            return at;
        }
    }
    text.len()
}

// Whether a text begins with `PN=`.
fn is_number_field(text: &[u8]) -> bool
    ensures value { result ≡ spec.is_number_field text.now }
    ensures long { result ≡ true → 3 ≤ length text.now }
{
    text.len() >= 3 && text[0] == b'P' && text[1] == b'N' && text[2] == b'='
}

// The id of a field's page number.
fn field_id(field: &[u8]) -> Option<FrameId>
    requires { 3 ≤ length field.now }
    ensures { result ≡ spec.field_id field.now }
{
    let value = &field[3..];
    number_id(&value[..letters_of(value)])
}

// The first page number of the fields between colons.
fn field_number(text: &[u8]) -> Option<FrameId>
    ensures { result ≡ spec.field_number text.now }
{
    let mut left = text;
    while let Some((field, rest)) = cut(left, b':') {
        if is_number_field(field) {
            return field_id(field);
        }
        left = rest;
    }
    if is_number_field(left) {
        return field_id(left);
    }
    None
}

// The screen of a line, by what is before and after its mark.
fn linked_screen(
    alloc: Global,
    line: usize,
    before: &[u8],
    after: &[u8],
) -> Result<Result<Option<TextScreen>, TextLineFault>, AllocError>
    ensures { IfOk result (λ found. found ≡ spec.linked_screen line before.now after.now) }
{
    if has_address(after) {
        return Ok(Err(TextLineFault::Two));
    }
    let (letters, rest) = after.split_at(letters_of(after));
    let Some(codes) = link_codes(alloc, letters)? else {
        return Ok(Err(TextLineFault::Letters(letters.len())));
    };
    Ok(Ok(Some(TextScreen {
        line,
        beside: any_case_id(word_before(before)),
        number: field_number(rest),
        codes,
    })))
}

// The screen of a line, if it has an address.
fn line_screen(
    alloc: Global,
    line: usize,
    text: &[u8],
) -> Result<Result<Option<TextScreen>, TextLineFault>, AllocError>
    ensures { IfOk result (λ found. found ≡ spec.line_screen line text.now) }
{
    match address_at(text) {
        Some(at) => linked_screen(alloc, line, &text[..at], &text[at + 3..]),
        None => Ok(Ok(None)),
    }
}

// Adds the screen of a line, if it has an address.
fn push_line(
    alloc: Global,
    screens: &mut Vec<TextScreen>,
    line: usize,
    text: &[u8],
) -> Result<(), TextScreensFault>
    ensures { loops.IsLineAdded line screens.old.items screens.new.items (spec.line_screen line text.now) result }
{
    match line_screen(alloc, line, text)? {
        Ok(None) => Ok(()),
        Ok(Some(screen)) => screens.push(screen).map_err(|_| TextScreensFault::Memory),
        Err(fault) => Err(TextScreensFault::Line(FaultyLine { line, fault })),
    }
}

/// The screens of the addresses of edit.tf in a text, one in a line: the letters after `#`, a hex digit, which says which letters the
/// screen has, and `:`. Each has the line's number, the id that is the word before the address, with or without `:`, `,`, `;` or `=`
/// between them, and the id by `:PN=` after it, as zxnet writes it. What else is in the text doesn't count.
///
/// A fault is that of the first line at fault.
#[tactic(auto, using(crate::proofs::Walks::line_first, crate::proofs::Walks::line_last))]
pub fn linked_screens(alloc: Global, text: &[u8]) -> Result<Vec<TextScreen>, TextScreensFault>
    ensures { AreTextScreens (spec.linked_screens text.now) result }
{
    let mut screens = Vec::new(alloc);
    let mut line = 1;
    let mut left = after_byte_mark(text);
    while let Some((text, rest)) = cut(left, b'\n') {
        push_line(alloc, &mut screens, line, text)?;
        line += 1;
        left = rest;
    }
    push_line(alloc, &mut screens, line, left)?;
    Ok(screens)
}
