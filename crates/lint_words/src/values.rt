//! What was probably meant by a value that doesn't read.

ghost use Rattle.std.specs.Prelude.{◌≤◌, length};

use crate::near_bytes::{Class, after, run_len, run_start};
use frame_records::MOST_PENCE;

// The most digits of a page.
pub(crate) const MOST_DIGITS: usize = 9;

// A text without blanks and quotation marks around it.
pub(crate) fn unquoted(written: &[u8]) -> &[u8] {
    let text = after(written, Class::Blank);
    let text = &text[..run_start(text, text.len(), Class::Blank)];
    text.strip_prefix(b"\"")
        .and_then(|rest| rest.strip_suffix(b"\""))
        .or(
            text.strip_prefix(b"'")
                .and_then(|rest| rest.strip_suffix(b"'")),
        )
        .unwrap_or(text)
}

// Where the value of the line's last key before a place begins: after its equals sign.
pub(crate) fn value_start(text: &[u8], at: usize) -> Option<usize>
    requires { at ≤ length text.now }
{
    let line = run_start(text, at, Class::Line);
    let before = text.get(line..at)?;
    let length = before.iter().rev().take_while(|b| **b != b'=').count();
    if length == before.len() {
        None
    } else {
        at.checked_sub(length)
    }
}

// The value on the line of a place, up to the line's end.
pub(crate) fn line_value(text: &[u8], at: usize) -> &[u8]
    requires { at ≤ length text.now }
{
    let start = value_start(text, at).unwrap_or(at);
    let rest = text.get(start..).unwrap_or(b"");
    rest.get(..run_len(rest, Class::Line))
        .unwrap_or(b"")
        .trim_ascii()
}

// A page number in quotation marks and the letter after them.
pub(crate) fn unclosed_id(value: &[u8]) -> Option<(&[u8], &[u8])> {
    let id = value.strip_prefix(b"\"")?;
    let page = id.get(..run_len(id, Class::Digit))?;
    let letter = after(id, Class::Digit).strip_prefix(b"\"")?;
    match letter {
        [letter_byte] if !page.is_empty() && letter_byte.is_ascii_lowercase() => Some((
            page, letter,
        )),
        _ => None,
    }
}

// The bytes as a text, which is empty if they aren't UTF-8.
pub(crate) fn as_text(bytes: &[u8]) -> &str {
    str::from_utf8(bytes).unwrap_or("")
}

pub(crate) fn is_number(written: &[u8]) -> bool {
    !written.is_empty() && after(written, Class::Digit).is_empty()
}

// A number in decimal, in which commas don't count.
fn number_of(digits: &[u8]) -> Option<u32> {
    if digits.is_empty() {
        return None;
    }
    let mut number: u32 = 0;
    for byte in digits {
        if byte.is_ascii_digit() {
            number = number
                .saturating_mul(10)
                .saturating_add(u32::from(*byte) % 16);
        } else if *byte != b',' {
            return None;
        }
    }
    Some(number)
}

// The pence of an amount in pounds, as `0.15`, `.5` or `3`.
fn pence_of_pounds(amount: &[u8]) -> Option<u32> {
    let point = amount.iter().take_while(|b| **b != b'.').count();
    let pounds = match &amount[..point] {
        [] => 0,
        pounds => number_of(pounds)?,
    };
    let pence = match &amount[point..] {
        [] => 0,
        [_, tenths] => number_of(&[*tenths, b'0'])?,
        [_, tens, ones] => number_of(&[*tens, *ones])?,
        _ => return None,
    };
    Some(pounds.saturating_mul(100).saturating_add(pence))
}

// The price that was probably meant by `15p`, `£0.15`, `0.15` or `1,500`, in pence; none by `0.5p`.
pub(crate) fn pence_of(written: &[u8]) -> Option<u32> {
    let amount = unquoted(written);
    let pence = if let Some(pence) = amount.strip_suffix(b"p") {
        number_of(pence)?
    } else if let Some(pounds) = amount.strip_prefix(b"\xC2\xA3") {
        pence_of_pounds(pounds)?
    } else if amount.contains(&b'.') {
        pence_of_pounds(amount)?
    } else {
        number_of(amount)?
    };
    (pence <= u32::from(MOST_PENCE)).then_some(pence)
}

// The page number of a page's number and letters, as of `620a`.
pub(crate) fn page_of(written: &[u8]) -> Option<&str> {
    let id = unquoted(written);
    let (page, letters) = id.split_at(run_len(id, Class::Digit));
    let has_letters = !letters.is_empty() && letters.iter().all(|b| b.is_ascii_alphabetic());
    (!page.is_empty() && has_letters).then_some(as_text(page))
}

// The digits from the first one on, and what follows them.
fn split_number(written: &[u8]) -> (&[u8], &[u8]) {
    let start = written.iter().take_while(|b| !b.is_ascii_digit()).count();
    let rest = &written[start..];
    rest.split_at(run_len(rest, Class::Digit))
}

// The first number in a value, as of `[6203]`.
pub(crate) fn first_number(written: &[u8]) -> Option<&str> {
    let (number, _) = split_number(written);
    (!number.is_empty()).then_some(as_text(number))
}

// The number in a value that has one.
pub(crate) fn only_number(written: &[u8]) -> Option<&str> {
    let (number, rest) = split_number(written);
    let is_alone = !rest.iter().any(|b| b.is_ascii_digit());
    (!number.is_empty() && is_alone).then_some(as_text(number))
}
