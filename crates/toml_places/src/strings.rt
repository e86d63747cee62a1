//! Strings, a character at a time.

ghost use Rattle.std.specs.Prelude.{◌≡◌, ℕ, ◌<◌, ◌≤◌, ◌==◌, true, false, length, drop, slice_index, option_map, IfSome};
ghost use Rattle.std.specs.Char.{is_digit};
ghost use Rattle.std.specs.List.{prefix_len, list_all};
ghost use Rattle.std.specs.Option.{option_copied};
ghost use Rattle.toml_parser.specs.Strings as toml;
ghost use Rattle.toml_places.specs.Strings as spec;

use toml_parser::bytes::is_non_eol;
use toml_parser::starts_string;
use toml_parser::text::{byte_at, first, skip, skip_blank, skip_ws, starts_newline};

// What a string's content goes on with: its end, a character, or what writes none.
#[derive(Clone, Copy)]
pub enum Step {
    End,
    Cut,
    Char,
}

impl Step {
    fn is_end(self) -> bool
        ensures { result ≡ spec.is_end self }
    {
        matches!(self, Step::End)
    }

    fn is_char(self) -> bool
        ensures { result ≡ spec.is_char self }
    {
        matches!(self, Step::Char)
    }
}

fn is_plain(byte: u8, delim: u8, multi: bool) -> bool
    ensures { result ≡ toml.is_plain delim multi byte }
{
    byte != delim
        && !(byte == b'\\' && delim == b'"')
        && (is_non_eol(byte) || (multi && byte == b'\n'))
}

/// Whether a character begins with the byte: in UTF-8, with any but 80 to BF.
pub fn starts_char(byte: u8) -> bool
    ensures { result ≡ spec.starts_char byte }
{
    byte < 0x80 || byte >= 0xC0
}

// How many bytes at the front go on with a character: most often none.
fn tail_len(bytes: &[u8]) -> usize
    ensures len { result ≡ prefix_len spec.string_goes_on bytes.now }
    ensures within { result ≤ length bytes.now }
{
    match bytes {
        [] => 0,
        [first, ..] => {
            if starts_char(*first) {
                0
            } else {
                bytes.iter().take_while(|byte| !starts_char(**byte)).count()
            }
        }
    }
}

#[tactic(auto, unfolding(crate::specs::Strings::after_char))]
fn after_char(text: &str) -> &str
    requires { 0 < length text.now }
    ensures rest { result.now ≡ spec.after_char text.now }
    ensures shorter { length result.now < length text.now }
{
    let len = 1 + tail_len(&text.as_bytes()[1..]);
    text.split_at(len).1
}

fn are_hex(digits: &[u8]) -> bool
    ensures { result ≡ list_all (λ c. is_digit c 16) digits.now }
{
    digits.iter().all(|byte| byte.is_ascii_hexdigit())
}

#[tactic(auto, unfolding(crate::specs::Strings::after_hex))]
fn after_hex(text: &str, len: usize) -> Option<&str>
    requires { 0 < len }
    ensures value { option_copied result ≡ spec.after_hex len text.now }
    ensures within { IfSome result (λ rest. length rest.now ≤ length text.now) }
{
    let bytes = text.as_bytes();
    if len <= bytes.len() && are_hex(&bytes[..len]) {
        Some(skip(text, len))
    } else {
        None
    }
}

#[tactic(auto, unfolding(crate::specs::Strings::after_escape))]
fn after_escape(text: &str) -> Option<&str>
    ensures value { option_copied result ≡ spec.after_escape text.now }
    ensures within { IfSome result (λ rest. length rest.now ≤ length text.now) }
{
    match first(text) {
        b'x' => after_hex(skip(text, 1), 2),
        b'u' => after_hex(skip(text, 1), 4),
        b'U' => after_hex(skip(text, 1), 8),
        b'b' | b'e' | b'f' | b'n' | b'r' | b't' | b'"' | b'\\' => Some(skip(text, 1)),
        _ => None,
    }
}

// What follows a backslash.
#[tactic(auto, unfolding(crate::specs::Strings::escape))]
fn escape(text: &str, multi: bool) -> Option<(Step, &str)>
    ensures value { option_map (λ p. (p.0, p.1.now)) result ≡ spec.escape multi text.now }
    ensures within { IfSome result (λ p. length p.1.now ≤ length text.now) }
{
    if multi && starts_newline(skip_ws(text)) {
        return Some((Step::Cut, skip_blank(text, false)));
    }
    let rest = after_escape(text)?;
    Some((Step::Char, rest))
}

fn delims_len(bytes: &[u8], delim: u8) -> usize
    ensures { result ≡ prefix_len (λ c. c == delim) bytes.now }
{
    bytes.iter().take_while(|byte| **byte == delim).count()
}

#[tactic(auto, unfolding(crate::specs::Strings::at_delims))]
fn at_delims(text: &str, delim: u8) -> Option<(Step, &str)>
    requires some { 0 < delim }
    requires ascii { delim < 128 }
    requires here { slice_index text.now 0 ≡ delim }
    ensures value { option_map (λ p. (p.0, p.1.now)) result ≡ spec.at_delims delim text.now }
    ensures shorter { IfSome result (λ p. length p.1.now < length text.now) }
{
    let count = delims_len(text.as_bytes(), delim);
    if count == 3 {
        Some((Step::End, skip(text, 3)))
    } else if count < 6 {
        Some((Step::Char, skip(text, 1)))
    } else {
        None
    }
}

#[tactic(auto, unfolding(crate::specs::Strings::next_step))]
fn next_step(text: &str, delim: u8, multi: bool) -> Option<(Step, &str)>
    requires some { 0 < delim }
    requires ascii { delim < 128 }
    ensures value { option_map (λ p. (p.0, p.1.now)) result ≡ spec.next_step delim multi text.now }
    ensures shorter { IfSome result (λ p. length p.1.now < length text.now) }
{
    let byte = first(text);
    if is_plain(byte, delim, multi) {
        let step = if starts_char(byte) {
            Step::Char
        } else {
            Step::Cut
        };
        Some((step, after_char(text)))
    } else if byte == delim {
        if multi {
            at_delims(text, delim)
        } else {
            Some((Step::End, skip(text, 1)))
        }
    } else if byte == b'\\' {
        escape(skip(text, 1), multi)
    } else if multi && starts_newline(text) {
        Some((Step::Char, skip(text, 1)))
    } else {
        None
    }
}

// The text after the closing delimiter.
fn after_content(text: &str, delim: u8, multi: bool) -> Option<&str>
    requires some { 0 < delim }
    requires ascii { delim < 128 }
    ensures value { (n : ℕ) → length text.now < n → option_copied result ≡ spec.after_content delim multi n text.now }
    ensures shorter { IfSome result (λ rest. length rest.now < length text.now) }
{
    let mut rest = text;
    'steps: loop {
        let (step, after) = next_step(rest, delim, multi)?;
        if step.is_end() {
            return Some(after);
        }
        rest = after;
    }
}

// A character of a string's content as it is written: the text from it on, and the text after it.
fn content_char(text: &str, delim: u8, multi: bool, index: usize) -> Option<(&str, &str)>
    requires some { 0 < delim }
    requires ascii { delim < 128 }
    ensures value { (n : ℕ) → length text.now < n → option_map (λ p. (p.0.now, p.1.now)) result ≡
        spec.content_char delim multi n index text.now }
    ensures within { IfSome result (λ p. (length p.0.now ≤ length text.now) × (length p.1.now < length p.0.now)) }
{
    let mut rest = text;
    let mut left = index;
    'steps: loop {
        let (step, after) = next_step(rest, delim, multi)?;
        if step.is_end() {
            return None;
        }
        if step.is_char() && left == 0 {
            return Some((rest, after));
        }
        left -= usize::from(step.is_char());
        rest = after;
    }
}

fn is_multi(text: &str) -> bool
    ensures { result ≡ spec.is_multi text.now }
{
    byte_at(text, 1) == first(text) && byte_at(text, 2) == first(text)
}

fn trim_newline(text: &str) -> &str
    ensures rest { result.now ≡ toml.trim_newline text.now }
    ensures within { length result.now ≤ length text.now }
{
    if first(text) == b'\n' {
        skip(text, 1)
    } else if starts_newline(text) {
        skip(text, 2)
    } else {
        text
    }
}

// The text from a string's content on.
#[tactic(auto, unfolding(crate::specs::Strings::content))]
fn content(text: &str) -> &str
    requires { toml.starts_string text.now ≡ true }
    ensures rest { result.now ≡ spec.content text.now }
    ensures shorter { length result.now < length text.now }
{
    if is_multi(text) {
        trim_newline(skip(text, 3))
    } else {
        skip(text, 1)
    }
}

// The text after a string.
#[tactic(auto, unfolding(crate::specs::Strings::after_string))]
pub fn after_string(text: &str) -> Option<&str>
    requires { toml.starts_string text.now ≡ true }
    ensures value { option_copied result ≡ spec.after_string text.now }
    ensures shorter { IfSome result (λ rest. length rest.now < length text.now) }
{
    after_content(content(text), first(text), is_multi(text))
}

// A character of a string as it is written.
#[tactic(auto, unfolding(crate::specs::Strings::string_char))]
pub fn string_char(text: &str, index: usize) -> Option<(&str, &str)>
    ensures value { option_map (λ p. (p.0.now, p.1.now)) result ≡ spec.string_char index text.now }
    ensures within { IfSome result (λ p. (length p.0.now ≤ length text.now) × (length p.1.now < length p.0.now)) }
{
    if starts_string(text) {
        content_char(content(text), first(text), is_multi(text), index)
    } else {
        None
    }
}

// The text after a string on one line.
pub fn after_line_string(text: &str) -> Option<&str>
    requires { toml.starts_string text.now ≡ true }
    ensures value { option_copied result ≡
        spec.after_content (slice_index text.now 0) false (length text.now) (drop 1 text.now) }
    ensures shorter { IfSome result (λ rest. length rest.now < length text.now) }
{
    after_content(skip(text, 1), first(text), false)
}
