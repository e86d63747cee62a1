//! The characters of a line, and what is below them.

ghost use Rattle.std.specs.Prelude.{◌≡◌, ◌++◌, replicate, OnOk};
ghost use Rattle.finding_forms.specs.FullForm as spec;

use page_ids::{hex_digit, push_utf8};
use std::alloc::{AllocError, Global};

// How characters are drawn.
#[derive(Debug, Clone, Copy, PartialEq, Eq)]
pub enum Drawing {
    // As they are, but a control character, unless it is a tab, as `\u001B`.
    Text,
    // As a space for each of their columns; a tab is kept.
    Blank,
    // As a caret for each of their columns.
    Carets,
}

fn is_shown_control(c: char) -> bool
    ensures { result ≡ spec.is_shown_control c }
{
    c.is_control() && c != '\t'
}

fn push_text(out: &mut Vec<u8>, c: char) -> Result<(), AllocError>
    ensures { OnOk result (out.new.items ≡ out.old.items ++ spec.drawn_text c) }
{
    if !is_shown_control(c) {
        return push_utf8(out, c);
    }
    let code = c as u8;
    out.extend_from_slice(b"\\u00")?;
    out.extend_from_slice(&[hex_digit(code / 16), hex_digit(code % 16)])
}

// Whether a letter has the width of two.
fn is_wide(c: char) -> bool
    ensures { result ≡ spec.is_wide c }
{
    ('\u{1100}' <= c && c <= '\u{115F}')
        || ('\u{2E80}' <= c && c <= '\u{A4CF}')
        || ('\u{AC00}' <= c && c <= '\u{D7A3}')
        || ('\u{F900}' <= c && c <= '\u{FAFF}')
        || ('\u{FF01}' <= c && c <= '\u{FF60}')
}

// How many columns a character has, as it is shown.
fn columns(c: char) -> usize
    ensures { result ≡ spec.columns c }
{
    if is_shown_control(c) {
        6
    } else if is_wide(c) {
        2
    } else {
        1
    }
}

#[tactic(auto, using(crate::proofs::Marks::one_more))]
pub fn push_times(out: &mut Vec<u8>, byte: u8, times: usize) -> Result<(), AllocError>
    ensures { OnOk result (out.new.items ≡ out.old.items ++ replicate times byte) }
{
    'times: for _done in 0..times {
        out.push(byte)?;
    }
    Ok(())
}

fn push_drawn_char(out: &mut Vec<u8>, drawing: Drawing, c: char) -> Result<(), AllocError>
    ensures { OnOk result (out.new.items ≡ out.old.items ++ spec.drawn_char drawing c) }
{
    match drawing {
        Drawing::Text => push_text(out, c),
        Drawing::Blank if c == '\t' => out.extend_from_slice(b"\t"),
        Drawing::Blank => push_times(out, b' ', columns(c)),
        Drawing::Carets => push_times(out, b'^', columns(c)),
    }
}

// The characters of bytes, with U+FFFD in place of what isn't UTF-8.
pub fn push_drawn(
    alloc: Global,
    out: &mut Vec<u8>,
    drawing: Drawing,
    bytes: &[u8],
) -> Result<(), AllocError>
    ensures { OnOk result (out.new.items ≡ out.old.items ++ spec.drawn_chars drawing bytes.now) }
{
    let text = String::from_utf8_lossy(alloc, bytes)?;
    'chars: for c in text.chars() {
        push_drawn_char(out, drawing, c)?;
    }
    Ok(())
}
