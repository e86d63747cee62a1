//! The hint for a text that isn't TOML: by toml's message, and by the bytes around its place.

ghost use Rattle.std.specs.Prelude.{◌≤◌, length};

use crate::brackets::{has_next_key, open_bracket};
use crate::headers::line_of;
use crate::hint::{Hint, said};
use crate::line::Line;
use crate::near_bytes::{Class, after, begins_pair, run_len, run_start};
use crate::odd_chars::{first_char, odd_hint};
use crate::slips::{COMMENT, TWO_BRACKETS, field_at, slip_hint};
use crate::toml_messages::{
    BAD_KEY, BAD_STRING, BAD_UTF8, BAD_VALUE, DUPLICATE, NO_COMMA, NO_COMMA_OF_PAIRS, UNEXPECTED,
};
use crate::value_hints::{price_hint, word_hint};
use crate::values::{as_text, is_number, value_start};
use crate::written_keys::{earlier_definition, name_at};
use base_text::Field;
use std::alloc::{AllocError, Global};
use toml_parser::bytes::byte_at;

// UTF-16 has a byte order mark, or a zero byte beside each of the first letters.
fn is_utf16(text: &[u8]) -> bool {
    match text {
        [0xFF, 0xFE, ..] | [0xFE, 0xFF, ..] | [0, _, ..] | [_, 0, ..] => true,
        _ => false,
    }
}

fn is_certificate(text: &[u8]) -> bool {
    text.starts_with(b"PBC1\n") || text.starts_with(b"PBC2\n")
}

fn has_bare_returns(text: &[u8]) -> bool {
    text.contains(&b'\r') && !text.contains(&b'\n')
}

// The codes of a screen.
const SCREEN_CODES: usize = 960;

// The form EP1, the first line of a form TTI, an address, or the codes of a screen, which have no line ends.
fn is_saved_screen(text: &[u8]) -> bool {
    let starts = [b"\xFE\x01".as_slice(), b"DE,", b"DS,", b"PN,", b"http"];
    starts.iter().any(|start| text.starts_with(start))
        || (text.len() >= SCREEN_CODES && !text.contains(&b'\n'))
}

// What is wrong with the text as a whole.
fn file_hint(text: &[u8], message: &str) -> Option<Hint<'static>> {
    if is_utf16(text) {
        Some(Hint::Words("this is UTF-16, save the file as UTF-8"))
    } else if is_json(text) {
        Some(Hint::Words("a base is TOML, not JSON"))
    } else if is_saved_screen(text) {
        Some(Hint::Words("this is a saved screen: pageaudit import FILE"))
    } else if message == BAD_UTF8 {
        Some(Hint::Words("this is not UTF-8, save the file as UTF-8"))
    } else if is_certificate(text) {
        Some(Hint::Words("this is a certificate: pageaudit check BASE CERT"))
    } else if has_bare_returns(text) {
        Some(Hint::Words("its lines end with CR alone, save it with LF or CR LF"))
    } else {
        None
    }
}

// JSON begins with a brace and a quotation mark.
fn is_json(text: &[u8]) -> bool {
    match text.trim_ascii_start() {
        [b'{', rest @ ..] => rest.trim_ascii_start().starts_with(b"\""),
        [b'[', rest @ ..] => rest.trim_ascii_start().starts_with(b"{"),
        _ => false,
    }
}

fn is_curly(rest: &[u8]) -> bool {
    matches!(rest, [0xE2, 0x80, 0x98..=0x9F, ..])
}

// What ends a value in other files, at the end of a line or before another key.
fn ending_hint(rest: &[u8], message: &str) -> Option<Hint<'static>> {
    let (mark, rest) = rest.split_first()?;
    if message != UNEXPECTED || !matches!(*mark, b',' | b';') {
        return None;
    }
    let rest = after(rest, Class::Blank);
    if begins_pair(rest) {
        Some(Hint::Words("write each key on a line of its own"))
    } else if !ends_line(rest) {
        None
    } else if *mark == b',' {
        Some(Hint::Words("leave out the comma at the line's end"))
    } else {
        Some(Hint::Words("leave out the ; at the line's end"))
    }
}

// What begins at the place.
fn token_hint(rest: &[u8], message: &str) -> Option<Hint<'static>> {
    let may_be_comment = message == BAD_KEY || message == UNEXPECTED;
    if is_curly(rest) {
        Some(Hint::Words("use straight quotation marks"))
    } else if rest.starts_with(b"//") || (may_be_comment && rest.starts_with(b";")) {
        Some(Hint::Words(COMMENT))
    } else {
        None
    }
}

// A character that isn't what it seems to be, at the place or after a word there.
fn odd_char_hint(rest: &[u8]) -> Option<Hint<'static>> {
    let here = odd_hint(first_char(rest)?);
    if here.is_some() {
        here
    } else {
        odd_hint(first_char(after(rest, Class::Bare))?)
    }
}

// A header of a frame that lacks a bracket, right before the place.
fn header_hint(before: &[u8]) -> Option<Hint<'static>> {
    let is_header = before.ends_with(b"[frame]") || before.ends_with(b"[frame");
    is_header.then_some(Hint::Words(TWO_BRACKETS))
}

fn second_definition(text: &[u8], at: usize, place: usize) -> Hint<'_>
    requires { at ≤ length text.now }
{
    let line = line_of(text, place);
    if text[at..].starts_with(b"[[") {
        Hint::TwoBracketsOn(line)
    } else {
        Hint::Defined(as_text(name_at(text, at)), line)
    }
}

// A key that is defined twice.
fn duplicate_hint<'a>(text: &'a [u8], at: usize, message: &str) -> Option<Hint<'a>>
    requires { at ≤ length text.now }
{
    if message != DUPLICATE {
        None
    } else if text[at..].starts_with(b"[frame]") {
        Some(Hint::Words(TWO_BRACKETS))
    } else {
        let place = earlier_definition(text, at)?;
        Some(second_definition(text, at, place))
    }
}

// Whether a message can come of a list or table that isn't closed.
fn is_in_brackets(message: &str) -> bool {
    message == NO_COMMA
        || message == NO_COMMA_OF_PAIRS
        || message == BAD_KEY
        || message == BAD_VALUE
}

// A bracket or a brace that isn't closed, perhaps since `#` begins a comment.
fn bracket_hint(text: &[u8], at: usize, message: &str) -> Option<Hint<'static>>
    requires { at ≤ length text.now }
{
    if !is_in_brackets(message) {
        return None;
    }
    if has_next_key(text, at) {
        return Some(Hint::Words("# begins a comment: for the next frame write next = true"));
    }
    let place = open_bracket(text, at)?;
    let bracket = if byte_at(text, place) == b'[' {
        "["
    } else {
        "{"
    };
    Some(Hint::NotClosed(bracket, line_of(text, place)))
}

fn ends_line(rest: &[u8]) -> bool {
    matches!(rest, [] | [b'\n' | b'\r', ..])
}

// Whether the quotation marks so far are odd in number, and whether the next byte is escaped.
fn marks_after(odd: bool, escaped: bool, byte: u8) -> (bool, bool) {
    let flips = byte == b'"' && !escaped;
    (odd != flips, byte == b'\\' && !escaped)
}

fn has_odd_marks(bytes: &[u8]) -> bool {
    let mut marks = (false, false);
    for byte in bytes {
        marks = marks_after(marks.0, marks.1, *byte);
    }
    marks.0
}

// The line of a place.
fn line_at(text: &[u8], at: usize) -> &[u8]
    requires { at ≤ length text.now }
{
    let line = &text[run_start(text, at, Class::Line)..];
    &line[..run_len(line, Class::Line)]
}

// A string that isn't closed where its line ends, or a line with an odd number of quotation marks.
fn quote_hint(text: &[u8], at: usize, message: &str) -> Option<Hint<'static>>
    requires { at ≤ length text.now }
{
    let lacks_quote = if message == BAD_STRING {
        ends_line(&text[at..])
    } else {
        (message == NO_COMMA || message == BAD_VALUE) && has_odd_marks(line_at(text, at))
    };
    lacks_quote.then_some(Hint::Words("a quotation mark is missing"))
}

// A quotation mark right before a word, which was meant to be inside a text.
fn inner_mark_hint(before: &[u8], rest: &[u8], message: &str) -> Option<Hint<'static>> {
    if (message != NO_COMMA && message != UNEXPECTED) || run_len(rest, Class::Bare) == 0 {
        None
    } else if before.ends_with(b"\"") {
        Some(Hint::Words("write \\\" inside a text"))
    } else if before.ends_with(b"'") {
        Some(Hint::Words("write a text with ' in it in double quotation marks"))
    } else {
        None
    }
}

// A control character as it is.
fn string_hint(rest: &[u8], message: &str) -> Option<Hint<'static>> {
    let is_control = message == BAD_STRING && byte_at(rest, 0) < b' ' && !ends_line(rest);
    is_control.then_some(Hint::Words("write a control character as an escape, as \\u001B"))
}

fn has_leading_zero(word: &[u8]) -> bool {
    match word {
        [b'0', next, ..] => next.is_ascii_digit(),
        _ => false,
    }
}

// Whether a word answers yes or no, in any case of letters.
fn is_answer(word: &[u8]) -> bool {
    word.eq_ignore_ascii_case(b"true")
        || word.eq_ignore_ascii_case(b"false")
        || word.eq_ignore_ascii_case(b"yes")
        || word.eq_ignore_ascii_case(b"no")
}

fn is_letter(bytes: &[u8]) -> bool {
    match bytes {
        [byte] => byte.is_ascii_alphabetic(),
        _ => false,
    }
}

// Whether a word begins with a letter, or is digits and a letter, as an id.
fn is_text(word: &[u8]) -> bool {
    byte_at(word, 0).is_ascii_alphabetic() || is_letter(after(word, Class::Digit))
}

// Whether a number is followed by another on its line.
fn lacks_comma(rest: &[u8]) -> bool {
    let number = &rest[..run_len(rest, Class::Digit)];
    let blanks = after(rest, Class::Digit);
    let next = after(blanks, Class::Blank);
    !number.is_empty() && next.len() < blanks.len() && byte_at(next, 0).is_ascii_digit()
}

// Whether a text or a number begins.
fn begins_item(rest: &[u8]) -> bool {
    matches!(rest, [b'"' | b'\'' | b'0'..=b'9', ..])
}

// A word or number that is no value.
fn bad_word_hint(field: Option<Field>, word: &[u8]) -> Option<Hint<'_>> {
    if is_answer(word) {
        return Some(Hint::Words("write true or false, in small letters"));
    }
    match field {
        _ if has_leading_zero(word) && after(word, Class::Digit).is_empty() => {
            Some(Hint::Words("a number has no leading zero"))
        }
        None => is_text(word).then_some(Hint::Words("put a text in quotation marks")),
        Some(_) if word.is_empty() || is_number(word) => None,
        Some(field) => word_hint(field, word),
    }
}

// The value on the rest of a line, without a comment.
fn rest_of_value(text: &[u8], start: usize) -> &[u8] {
    let rest = text.get(start..).unwrap_or(b"");
    let length = rest
        .iter()
        .take_while(|b| **b != b'#' && **b != b'\n' && **b != b'\r')
        .count();
    rest.get(..length).unwrap_or(b"")
}

// A bad value, by its key.
fn value_hint<'a>(text: &'a [u8], at: usize, message: &str) -> Option<Hint<'a>>
    requires { at ≤ length text.now }
{
    let rest = &text[at..];
    let word = &rest[..run_len(rest, Class::Bare)];
    let start = value_start(text, at);
    let field = field_at(text, at);
    if field == Some(Field::Price) && (message == BAD_VALUE || message == UNEXPECTED) {
        Some(price_hint(rest_of_value(text, start.unwrap_or(0))))
    } else if message == NO_COMMA && begins_item(rest) {
        Some(Hint::Words("put a comma before it"))
    } else if message != BAD_VALUE || begins_pair(rest) {
        None
    } else if lacks_comma(rest) {
        Some(Hint::Words("put a comma between two values"))
    } else {
        bad_word_hint(field, word)
    }
}

// The first of the rules that applies.
fn hint_at<'a>(text: &'a [u8], at: usize, message: &str) -> Option<Hint<'a>>
    requires { at ≤ length text.now }
{
    let (before, rest) = text.split_at(at);
    file_hint(text, message)
        .or(ending_hint(rest, message))
        .or(token_hint(rest, message))
        .or(odd_char_hint(rest))
        .or(slip_hint(text, at, message))
        .or(header_hint(before))
        .or(duplicate_hint(text, at, message))
        .or(bracket_hint(text, at, message))
        .or(quote_hint(text, at, message))
        .or(inner_mark_hint(before, rest, message))
        .or(string_hint(rest, message))
        .or(value_hint(text, at, message))
}

// A hint at the cause of toml's message on a text, if a rule applies. The offset is that of the message's span; one past
// the end is the end.
pub(crate) fn toml_hint(
    alloc: Global,
    text: &[u8],
    at: usize,
    message: &str,
) -> Result<Option<Line>, AllocError> {
    said(alloc, hint_at(text, at.min(text.len()), message))
}
