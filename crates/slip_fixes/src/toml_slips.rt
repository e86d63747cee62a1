//! What isn't TOML.

ghost use Rattle.std.specs.Prelude.{◌≡◌, option_map};
ghost use Rattle.base_text.specs.Fields.{is_digit_key};
ghost use Rattle.slip_fixes.specs.TomlSlips.{small_truth, without_zeros, new_word, ends_pair, ends_long, new_escape, is_named, is_known, is_value_start, new_mark};

use crate::bytes::{after_gaps, after_zeros, is_number};
use crate::value_slips::takes_number;
use base_text::Field;
use lint_words::FIELDS;

// A truth value with capital letters.
fn small_truth(word: &[u8]) -> Option<&[u8]>
    ensures { option_map (λ text. text.now) result ≡ small_truth word.now }
{
    if word == b"True".as_slice() || word == b"TRUE".as_slice() {
        Some(b"true")
    } else if word == b"False".as_slice() || word == b"FALSE".as_slice() {
        Some(b"false")
    } else {
        None
    }
}

// Whether this is a key of a route.
fn is_digit_key(key: &[u8]) -> bool
    ensures { result ≡ is_digit_key key.now }
{
    match key {
        [digit] => digit.is_ascii_digit(),
        _ => false,
    }
}

// A number with zeros before it, without them.
fn without_zeros(word: &[u8]) -> Option<&[u8]>
    ensures { option_map (λ text. text.now) result ≡ without_zeros word.now }
{
    let number = after_zeros(word);
    if is_number(word) && number.len() < word.len() && !number.is_empty() {
        Some(number)
    } else {
        None
    }
}

/// What a word that is no value of TOML can have meant alone, as the value of this key.
pub fn new_word<'t>(key: &[u8], word: &'t [u8]) -> Option<&'t [u8]>
    ensures { option_map (λ text. text.now) result ≡ new_word key.now word.now }
{
    if key == b"next".as_slice() {
        small_truth(word)
    } else if takes_number(key) || is_digit_key(key) {
        without_zeros(word)
    } else {
        None
    }
}

// Whether these begin with two digits in base 16, but not 00, and then what is none.
fn ends_pair(bytes: &[u8]) -> bool
    ensures { result ≡ ends_pair bytes.now }
{
    match bytes {
        [tens, ones, next, ..] => {
            tens.is_ascii_hexdigit()
                && ones.is_ascii_hexdigit()
                && !(*tens == b'0' && *ones == b'0')
                && !next.is_ascii_hexdigit()
        }
        _ => false,
    }
}

// The same after two zeros.
fn ends_long(bytes: &[u8]) -> bool
    ensures { result ≡ ends_long bytes.now }
{
    match bytes {
        [first, second, rest @ ..] => *first == b'0' && *second == b'0' && ends_pair(rest),
        _ => false,
    }
}

/// What takes the place of the first byte of an escape that TOML doesn't have, without its backslash.
pub fn new_escape(escape: &[u8]) -> Option<&'static [u8]>
    ensures { option_map (λ text. text.now) result ≡ new_escape escape.now }
{
    let (letter, rest) = escape.split_first()?;
    if *letter == b'u' && ends_pair(rest) {
        Some(b"u00")
    } else if *letter == b'U' && ends_long(rest) {
        Some(b"u")
    } else {
        None
    }
}

// Whether this is the name of one of these keys.
fn is_named(fields: &[Field], key: &[u8]) -> bool
    ensures { result ≡ is_named fields.now key.now }
{
    let mut rest = fields;
    while let Some((field, others)) = rest.split_first() {
        if field.name().as_bytes() == key {
            return true;
        }
        rest = others;
    }
    false
}

// Whether this is a key of a base or a frame.
fn is_known(key: &[u8]) -> bool
    ensures { result ≡ is_known key.now }
{
    is_named(FIELDS, key)
}

// Whether a value can begin here, and not `=`, a comment or the line's end.
fn is_value_start(bytes: &[u8]) -> bool
    ensures { result ≡ is_value_start bytes.now }
{
    match bytes {
        [first, ..] => { !(*first == b'=' || *first == b'#' || *first == b'\r' || *first == b'\n') }
        _ => false,
    }
}

/// What takes the place of a colon after this key and before these bytes.
pub fn new_mark(key: &[u8], rest: &[u8]) -> Option<&'static [u8]>
    ensures { option_map (λ text. text.now) result ≡ new_mark key.now rest.now }
{
    if (is_digit_key(key) || is_known(key)) && is_value_start(after_gaps(rest)) {
        Some(b" =")
    } else {
        None
    }
}
