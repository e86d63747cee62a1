ghost use Rattle.std.specs.Prelude.{◌≡◌, ◌++◌, OnOk, codes, decimal};
ghost use Rattle.lint_words.specs.Pieces.{comma_before, with_commas, grouped, hex4, hex_front, code_point_text, is_control, is_blank, shown_text, char_text, escaped, escaped_up_to, quoted, frame_name};
ghost use Rattle.std.specs.Str.{chars};

use itoa::Buffer;
use page_ids::{FrameId, hex_digit, push_id, push_number, push_utf8};
use std::alloc::AllocError;

// How many characters of a text are shown.
const LONGEST: usize = 40;

fn push_comma_before(out: &mut Vec<u8>, digits: &[u8]) -> Result<(), AllocError>
    ensures { OnOk result (out.new.items ≡ out.old.items ++ comma_before digits.now) }
{
    if !digits.is_empty() && digits.len() % 3 == 0 {
        out.push(b',')?;
    }
    Ok(())
}

// Digits with a comma before each three of the last.
fn push_with_commas(out: &mut Vec<u8>, digits: &[u8]) -> Result<(), AllocError>
    ensures { OnOk result (out.new.items ≡ out.old.items ++ with_commas digits.now) }
{
    match digits {
        [] => Ok(()),
        [digit, rest @ ..] => {
            out.push(*digit)?;
            push_comma_before(out, rest)?;
            push_with_commas(out, rest)
        }
    }
}

// A number with commas.
pub fn push_grouped(out: &mut Vec<u8>, number: usize) -> Result<(), AllocError>
    ensures { OnOk result (out.new.items ≡ out.old.items ++ grouped number) }
{
    let mut buffer = Buffer::new();
    push_with_commas(out, buffer.format(number).as_bytes())
}

// The last four digits in base 16.
fn hex4(number: u32) -> [u8; 4]
    ensures { result ≡ hex4 number }
{
    [
        hex_digit((number / 4_096 % 16) as u8),
        hex_digit((number / 256 % 16) as u8),
        hex_digit((number / 16 % 16) as u8),
        hex_digit((number % 16) as u8),
    ]
}

// The digits before the last four.
fn push_hex_front(out: &mut Vec<u8>, number: u32) -> Result<(), AllocError>
    ensures { OnOk result (out.new.items ≡ out.old.items ++ hex_front number) }
{
    let (first, second) = (
        hex_digit((number / 1_048_576 % 16) as u8),
        hex_digit((number / 65_536 % 16) as u8),
    );
    if number < 0x1_0000 {
        Ok(())
    } else if number < 0x10_0000 {
        out.extend_from_slice(&[second])
    } else {
        out.extend_from_slice(&[first, second])
    }
}

// A code point.
pub fn push_code(out: &mut Vec<u8>, c: char) -> Result<(), AllocError>
    ensures { OnOk result (out.new.items ≡ out.old.items ++ code_point_text c) }
{
    out.extend_from_slice(b"U+")?;
    push_hex_front(out, c as u32)?;
    out.extend_from_slice(&hex4(c as u32))
}

fn is_control(c: char) -> bool
    ensures { result ≡ is_control c }
{
    c < '\u{20}' || ('\u{7F}' <= c && c <= '\u{9F}')
}

fn is_blank(c: char) -> bool
    ensures { result ≡ is_blank c }
{
    c == ' ' || c == '\u{A0}'
}

// A character and its code point.
fn push_shown(out: &mut Vec<u8>, c: char) -> Result<(), AllocError>
    ensures { OnOk result (out.new.items ≡ out.old.items ++ shown_text c) }
{
    push_utf8(out, c)?;
    out.extend_from_slice(b" (")?;
    push_code(out, c)?;
    out.extend_from_slice(b")")
}

// A character and its code point, or its code point alone if it can't be seen.
pub fn push_char(out: &mut Vec<u8>, c: char) -> Result<(), AllocError>
    ensures { OnOk result (out.new.items ≡ out.old.items ++ char_text c) }
{
    if is_control(c) || is_blank(c) {
        push_code(out, c)
    } else {
        push_shown(out, c)
    }
}

// A character of a text in quotes.
fn push_escaped(out: &mut Vec<u8>, c: char) -> Result<(), AllocError>
    ensures { OnOk result (out.new.items ≡ out.old.items ++ escaped c) }
{
    if is_control(c) {
        out.extend_from_slice(b"\\u")?;
        out.extend_from_slice(&hex4(c as u32))
    } else if c == '"' || c == '\\' {
        out.extend_from_slice(&[b'\\', c as u8])
    } else {
        push_utf8(out, c)
    }
}

fn push_dots(out: &mut Vec<u8>) -> Result<(), AllocError>
    ensures { OnOk result (out.new.items ≡ out.old.items ++ codes "...") }
{
    out.extend_from_slice(b"...")
}

// The first characters of a text, and dots if it has more.
fn push_beginning(out: &mut Vec<u8>, text: &str) -> Result<(), AllocError>
    ensures { OnOk result (out.new.items ≡ out.old.items ++ escaped_up_to 40 (chars text.now)) }
{
    let mut left = LONGEST;
    for c in text.chars() {
        if left == 0 {
            return push_dots(out);
        }
        push_escaped(out, c)?;
        left -= 1;
    }
    Ok(())
}

// A text of the file in quotes.
pub fn push_quoted(out: &mut Vec<u8>, text: &str) -> Result<(), AllocError>
    ensures { OnOk result (out.new.items ≡ out.old.items ++ quoted text.now) }
{
    out.extend_from_slice(b"\"")?;
    push_beginning(out, text)?;
    out.extend_from_slice(b"\"")
}

pub fn push_decimal(out: &mut Vec<u8>, number: u64) -> Result<(), AllocError>
    ensures { OnOk result (out.new.items ≡ out.old.items ++ decimal number) }
{
    push_number(out, number)?;
    Ok(())
}

// Words and a number.
pub fn push_numbered(out: &mut Vec<u8>, words: &[u8], number: u64) -> Result<(), AllocError>
    ensures { OnOk result (out.new.items ≡ out.old.items ++ (words.now ++ decimal number)) }
{
    out.extend_from_slice(words)?;
    push_decimal(out, number)
}

// A number between words.
pub fn push_between(
    out: &mut Vec<u8>,
    before: &[u8],
    number: u64,
    after: &[u8],
) -> Result<(), AllocError>
    ensures { OnOk result (out.new.items ≡ out.old.items ++ (before.now ++ (decimal number ++ after.now))) }
{
    push_numbered(out, before, number)?;
    out.extend_from_slice(after)
}

// A frame by its id, or `this frame`.
pub fn push_frame(out: &mut Vec<u8>, id: Option<FrameId>) -> Result<(), AllocError>
    ensures { OnOk result (out.new.items ≡ out.old.items ++ frame_name id) }
{
    match id {
        None => out.extend_from_slice(b"this frame"),
        Some(id) => {
            out.extend_from_slice(b"frame ")?;
            push_id(out, id)
        }
    }
}
