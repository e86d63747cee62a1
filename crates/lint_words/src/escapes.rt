//! Escapes in which a digit, or the `u`, isn't right.

use crate::hint::Hint;
use crate::near_bytes::{Class, after};
use toml_parser::bytes::byte_at;

const BACKSLASH: Hint<'static> = Hint::Words("write \\\\ for a backslash");

const FOUR_DIGITS: Hint<'static> = Hint::Words("\\u takes four digits, as in \\u0082");

// A digit in base 16, and what follows it. After a zero O is one too, and after two a blank is left out.
fn next_digit(text: &[u8], zeros: usize) -> Option<(u8, &[u8])> {
    let text = if zeros == 2 {
        after(text, Class::Blank)
    } else {
        text
    };
    let (first, rest) = text.split_first()?;
    if first.is_ascii_hexdigit() {
        Some((*first, rest))
    } else if zeros == 1 && (*first == b'O' || *first == b'o') {
        Some((b'0', rest))
    } else {
        None
    }
}

// The digits of an escape, at most four, and how many there are.
fn digits_of(text: &[u8]) -> ([u8; 4], usize) {
    let mut digits = [b'0'; 4];
    let mut rest = text;
    let mut zeros = 0;
    for place in 0..4usize {
        let Some((digit, left)) = next_digit(rest, zeros) else {
            return (digits, place);
        };
        digits[place] = digit;
        rest = left;
        if digit == b'0' && zeros == place {
            zeros += 1;
        }
    }
    (digits, 4)
}

// The last two digits of the four that were meant, if it is clear which.
fn meant_digits(text: &[u8], is_body: bool) -> Option<[u8; 2]> {
    let (digits, count) = digits_of(text);
    let [first, second, third, fourth] = digits;
    let has_zeros = first == b'0' && second == b'0';
    if !first.is_ascii_digit() {
        None
    } else if count == 4 && has_zeros {
        Some([third, fourth])
    } else if count == 3 && has_zeros && is_body && third.is_ascii_alphabetic() {
        Some([b'0', third])
    } else if count == 2 && !has_zeros {
        Some([first, second])
    } else {
        None
    }
}

// An escape that isn't TOML's, by what follows its backslash.
pub(crate) fn escape_hint(rest: &[u8], is_body: bool) -> Hint<'static> {
    let letter = byte_at(rest, 0);
    let is_long = letter == b'u' || letter == b'U';
    let digits = match rest {
        [_, digits @ ..] if is_long => digits,
        _ => rest,
    };
    match meant_digits(digits, is_body) {
        Some(digits) => Hint::Escape(digits),
        None if is_long && byte_at(digits, 0).is_ascii_digit() => FOUR_DIGITS,
        None => BACKSLASH,
    }
}
