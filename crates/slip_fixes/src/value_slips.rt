//! Values of a text that is TOML.

ghost use Rattle.std.specs.Prelude.{◌≡◌, option_map};
ghost use Rattle.slip_fixes.specs.Values.{is_close, is_whole, closed_number, quoted_number, truth, new_lead, takes_number, is_item, is_unlisted, capital_before, quoted_capital, new_value};

use crate::bytes::{after_digits, is_number, is_quote, piece_of};

// Whether this is the quotation mark at an end.
fn is_close(bytes: &[u8]) -> bool
    ensures { result ≡ is_close bytes.now }
{
    match bytes {
        [mark] => is_quote(*mark),
        _ => false,
    }
}

// Whether these are digits without a zero before others.
fn is_whole(bytes: &[u8]) -> bool
    ensures { result ≡ is_whole bytes.now }
{
    match bytes {
        [] => false,
        [_] => is_number(bytes),
        [first, ..] => *first != b'0' && is_number(bytes),
    }
}

// A number before a quotation mark.
fn closed_number(bytes: &[u8]) -> Option<&[u8]>
    ensures { option_map (λ number. number.now) result ≡ closed_number bytes.now }
{
    let number = piece_of(bytes, 0, bytes.len().saturating_sub(1));
    if is_close(after_digits(bytes)) && is_whole(number) {
        Some(number)
    } else {
        None
    }
}

// A number in quotation marks.
fn quoted_number(value: &[u8]) -> Option<&[u8]>
    ensures { option_map (λ number. number.now) result ≡ quoted_number value.now }
{
    let (open, rest) = value.split_first()?;
    if is_quote(*open) {
        closed_number(rest)
    } else {
        None
    }
}

// Whether a key's value is a number, or a list of numbers.
pub fn takes_number(key: &[u8]) -> bool
    ensures { result ≡ takes_number key.now }
{
    key == b"price".as_slice()
        || key == b"entry".as_slice()
        || key == b"group".as_slice()
        || key == b"outside".as_slice()
}

// Whether a piece is a pair of `routes`, and not all of it.
fn is_item(key: &[u8], piece: &[u8], value: &[u8]) -> bool
    ensures { result ≡ is_item key.now piece.now value.now }
{
    key == b"routes".as_slice() && value.len() < piece.len()
}

// A truth value in quotation marks.
fn truth(value: &[u8]) -> Option<&[u8]>
    ensures { option_map (λ word. word.now) result ≡ truth value.now }
{
    if value == b"\"true\"".as_slice() || value == b"'true'".as_slice() {
        Some(b"true")
    } else if value == b"\"false\"".as_slice() || value == b"'false'".as_slice() {
        Some(b"false")
    } else {
        None
    }
}

/// A word of `lead` in quotation marks, in any case of letters.
pub fn new_lead(key: &[u8], value: &[u8]) -> Option<&'static [u8]>
    ensures { option_map (λ text. text.now) result ≡ new_lead key.now value.now }
{
    if key != b"lead".as_slice() {
        None
    } else if value.eq_ignore_ascii_case(b"\"keep\"") || value.eq_ignore_ascii_case(b"'keep'") {
        Some(b"\"keep\"")
    } else if value.eq_ignore_ascii_case(b"\"clear\"") || value.eq_ignore_ascii_case(b"'clear'") {
        Some(b"\"clear\"")
    } else {
        None
    }
}

/// A page that isn't in a list.
pub fn is_unlisted(key: &[u8], value: &[u8]) -> bool
    ensures { result ≡ is_unlisted key.now value.now }
{
    key == b"outside".as_slice() && is_number(value)
}

/// What a value of another kind can have meant alone. `piece` is the value, or its pair in `routes`; `value` is what follows the
/// last `=` or blank of it.
pub fn new_value<'t>(key: &[u8], piece: &[u8], value: &'t [u8]) -> Option<&'t [u8]>
    ensures { option_map (λ text. text.now) result ≡ new_value key.now piece.now value.now }
{
    if key == b"next".as_slice() {
        truth(value)
    } else if takes_number(key) || is_item(key, piece, value) {
        quoted_number(value)
    } else {
        None
    }
}

// The capital letter before the last quotation mark.
fn capital_before(bytes: &[u8]) -> Option<u8>
    ensures { result ≡ capital_before bytes.now }
{
    match bytes {
        [letter, mark] => {
            if letter.is_ascii_uppercase() && is_quote(*mark) {
                Some(*letter)
            } else {
                None
            }
        }
        _ => None,
    }
}

/// The letter of an id with a capital letter, in quotation marks.
pub fn quoted_capital(piece: &[u8]) -> Option<u8>
    ensures { result ≡ quoted_capital piece.now }
{
    let (open, rest) = piece.split_first()?;
    if is_quote(*open) {
        capital_before(after_digits(rest))
    } else {
        None
    }
}
