//! Values, of which only the ends are wanted.

ghost use Rattle.std.specs.Prelude.{◌≡◌, ℕ, ◌<◌, ◌≤◌, length, IfSome};
ghost use Rattle.std.specs.List.{prefix_len};
ghost use Rattle.std.specs.Option.{option_copied};
ghost use Rattle.std.specs.Str.{IsCharBoundary};
ghost use Rattle.toml_parser.specs.Lexical.{is_word};
ghost use Rattle.toml_parser.specs.Numbers as toml;
ghost use Rattle.toml_parser.specs.Reading.{Reads, Shortens, key_view};
ghost use Rattle.toml.specs.Parse as parse;
ghost use Rattle.toml_places.specs.Values as spec;

use crate::keys::value_from;
use crate::strings::after_string;
use std::alloc::Global;
use toml_parser::bytes::{byte_at, is_word};
use toml_parser::text::{first, skip, skip_blank, skip_ws};
use toml_parser::{ErrorKind, Key, ParseError, dotted_key, starts_string};

fn run_len(bytes: &[u8]) -> usize
    ensures len { result ≡ prefix_len is_word bytes.now }
    ensures within { result ≤ length bytes.now }
{
    bytes.iter().take_while(|byte| is_word(**byte)).count()
}

// How long a boolean, a number or a date-time is.
fn word_len(text: &str) -> usize
    ensures len { result ≡ toml.word_len text.now }
    ensures boundary { IsCharBoundary text.now result }
{
    let bytes = text.as_bytes();
    let len = run_len(bytes);
    if byte_at(bytes, len) == b' ' && byte_at(bytes, len + 1).is_ascii_digit() {
        len + 1 + run_len(&bytes[len + 1..])
    } else {
        len
    }
}

#[tactic(auto, unfolding(crate::specs::Values::after_word))]
fn after_word(text: &str) -> Option<&str>
    ensures value { option_copied result ≡ spec.after_word text.now }
    ensures shorter { IfSome result (λ rest. length rest.now < length text.now) }
{
    let len = word_len(text);
    if len == 0 {
        None
    } else {
        Some(text.split_at(len).1)
    }
}

#[tactic(auto, unfolding(crate::specs::Values::after_atom))]
fn after_atom(text: &str) -> Option<&str>
    ensures value { option_copied result ≡ spec.after_atom text.now }
    ensures shorter { IfSome result (λ rest. length rest.now < length text.now) }
{
    if starts_string(text) {
        after_string(text)
    } else {
        after_word(text)
    }
}

// The text after a value with arrays and inline tables at most `depth` deep.
#[cycle(after_value)]
pub fn after_value(text: &str, depth: usize) -> Option<&str>
    ensures value { option_copied result ≡ spec.after_value depth text.now }
    ensures shorter { IfSome result (λ rest. length rest.now < length text.now) }
{
    let byte = first(text);
    if byte != b'[' && byte != b'{' {
        return after_atom(text);
    }
    if depth == 0 {
        return None;
    }
    let inside = skip(text, 1);
    if byte == b'[' {
        after_members(inside, depth - 1, b']')
    } else {
        after_members(inside, depth - 1, b'}')
    }
}

// The text after the bracket that closes an array or an inline table.
#[cycle(after_value)]
fn after_members(text: &str, depth: usize, closing: u8) -> Option<&str>
    requires some { 0 < closing }
    requires ascii { closing < 128 }
    ensures value { (n : ℕ) → length text.now < n → option_copied result ≡
        spec.after_members (spec.after_value depth) closing n text.now }
    ensures within { IfSome result (λ rest. length rest.now ≤ length text.now) }
{
    let mut rest = text;
    'members: loop {
        let start = skip_blank(rest, true);
        if first(start) == closing {
            return Some(skip(start, 1));
        }
        let after = after_member(start, depth, closing)?;
        rest = after_element(after, closing)?;
    }
}

// The text after an element of an array, or after a pair of an inline table.
#[tactic(auto, unfolding(crate::specs::Values::after_member))]
#[cycle(after_value)]
fn after_member(text: &str, depth: usize, closing: u8) -> Option<&str>
    ensures value { option_copied result ≡ spec.after_member (spec.after_value depth) closing text.now }
    ensures shorter { IfSome result (λ rest. length rest.now < length text.now) }
{
    if closing == b'}' {
        after_value(value_from(text)?, depth)
    } else {
        after_value(text, depth)
    }
}

// The text after a comma, or at the closing bracket.
#[tactic(auto, unfolding(toml::specs::Parse::after_element))]
pub fn after_element(text: &str, closing: u8) -> Option<&str>
    ensures value { option_copied result ≡ parse.after_element closing text.now }
    ensures within { IfSome result (λ rest. length rest.now ≤ length text.now) }
{
    let rest = skip_blank(text, true);
    if first(rest) == b',' {
        Some(skip(rest, 1))
    } else if first(rest) == closing {
        Some(rest)
    } else {
        None
    }
}

// A key, `=` and the white space after it.
#[tactic(auto, unfolding(toml::specs::Parse::key_equals))]
pub fn key_equals(alloc: Global, text: &str) -> Result<(Key, &str), ParseError>
    ensures value { Reads key_view result (parse.key_equals text.now) }
    ensures shorter { Shortens text.now result }
{
    let (key, rest) = dotted_key(alloc, text)?;
    if first(rest) != b'=' {
        return Err(ParseError::at(ErrorKind::MissingEquals, rest));
    }
    Ok((key, skip_ws(skip(rest, 1))))
}
