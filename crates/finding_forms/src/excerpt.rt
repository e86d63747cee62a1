//! The part of a span's line that is shown.

ghost use Rattle.std.specs.Prelude.{◌≡◌, ◌+◌, ◌≤◌, length};
ghost use Rattle.std.specs.List.{count_by};
ghost use Rattle.toml_places.specs.Strings as strings;
ghost use Rattle.finding_forms.specs.Excerpts as spec;

use toml_parser::bytes::byte_at;
use toml_places::{Span, is_marked, starts_char};

// A line of more characters is cut.
const LONGEST: usize = 120;
// How many characters are left of it before the span, and from its first on.
const BEFORE: usize = 37;

const FROM_THERE: usize = 77;

// A part of a text's line around a span, in offsets.
#[derive(Debug, Clone, Copy, PartialEq, Eq)]
pub struct Excerpt {
    // Where the part begins and ends.
    pub from: usize,
    pub to: usize,
    // The part of the span that is in it.
    pub begin: usize,
    pub end: usize,
    // Whether the line has more before it and after it.
    pub goes_before: bool,
    pub goes_on: bool,
}

// The length of a text's byte order mark, or 0.
pub fn mark_length(text: &[u8]) -> usize
    ensures value { result ≡ spec.mark_length text.now }
    ensures within { result ≤ length text.now }
{
    if is_marked(text) { 3 } else { 0 }
}

fn ends_at(text: &[u8], at: usize) -> bool
    ensures { result ≡ spec.line_ends_at text.now at }
{
    text.len() <= at
        || byte_at(text, at) == b'\n'
        || (byte_at(text, at) == b'\r' && byte_at(text, at + 1) == b'\n')
}

fn left_after(left: usize, byte: u8) -> usize
    ensures { result ≡ spec.left_after left byte }
{
    if starts_char(byte) {
        left.saturating_sub(1)
    } else {
        left
    }
}

fn goes_back(text: &[u8], left: usize, at: usize) -> bool
    ensures { result ≡ spec.goes_back text.now left at }
{
    at > 0 && left > 0 && byte_at(text, at - 1) != b'\n'
}

// Where the last characters before an offset begin, at most this many and all on its line.
fn begin_before(text: &[u8], most: usize, offset: usize) -> usize
    ensures value { result ≡ spec.begin_before text.now most offset }
    ensures within { result ≤ offset }
{
    let mut at = offset;
    let mut left = most;
    'back: while goes_back(text, left, at) {
        at -= 1;
        left = left_after(left, byte_at(text, at));
    }
    at
}

fn goes_ahead(text: &[u8], left: usize, at: usize) -> bool
    ensures { result ≡ spec.goes_ahead text.now left at }
{
    !ends_at(text, at) && (left > 0 || !starts_char(byte_at(text, at)))
}

// Where the next characters end, at most this many and all on its line.
fn end_ahead(text: &[u8], most: usize, offset: usize) -> usize
    requires { offset ≤ length text.now }
    ensures value { result ≡ spec.end_ahead text.now most offset }
    ensures within { (offset ≤ result) × (result ≤ length text.now) }
{
    let mut at = offset;
    let mut left = most;
    'ahead: while goes_ahead(text, left, at) {
        left = left_after(left, byte_at(text, at));
        at += 1;
    }
    at
}

// Where a span begins: a line feed after a carriage return has its place.
fn begin_in(text: &[u8], at: usize) -> usize
    ensures value { result ≡ spec.begin_in text.now at }
    ensures within { result ≤ at }
{
    if at > 0 && byte_at(text, at) == b'\n' && byte_at(text, at - 1) == b'\r' {
        at - 1
    } else {
        at
    }
}

fn count_chars(bytes: &[u8]) -> usize
    ensures { result ≡ count_by strings.starts_char bytes.now }
{
    bytes.iter().filter(|byte| starts_char(**byte)).count()
}

// Whether the line has more than 120 characters. No more of it is looked at.
fn is_long(text: &[u8], at: usize) -> bool
    requires { at ≤ length text.now }
    ensures { result ≡ spec.is_long_line text.now at }
{
    let from = begin_before(text, LONGEST + 1, at);
    let to = end_ahead(text, LONGEST + 1, at);
    count_chars(&text[from..to]) > LONGEST
}

fn goes_before(text: &[u8], at: usize) -> bool
    ensures { result ≡ spec.goes_before text.now at }
{
    at > 0 && byte_at(text, at - 1) != b'\n'
}

fn excerpt_at(text: &[u8], at: usize, end: usize, before: usize, ahead: usize) -> Excerpt
    requires { at ≤ length text.now }
    ensures value { result
        ≡ spec.excerpt_with text.now at end (spec.begin_before text.now before at) (spec.end_ahead text.now ahead at) }
    ensures within { (result.from ≤ result.begin) × (result.begin ≤ result.end) × (result.end ≤ result.to)
        × (result.to ≤ length text.now) }
{
    let from = begin_before(text, before, at);
    let to = end_ahead(text, ahead, at);
    Excerpt {
        from,
        to,
        begin: at,
        end: end.min(to).max(at),
        goes_before: goes_before(text, from),
        goes_on: !ends_at(text, to),
    }
}

// The line on which a span begins: all of it, or of a long line up to 37 characters before the span and 77 from its first on.
pub fn excerpt_of(text: &[u8], span: Span) -> Excerpt
    ensures value { result ≡ spec.excerpt_of text.now span }
    ensures within { (result.from ≤ result.begin) × (result.begin ≤ result.end) × (result.end ≤ result.to)
        × (result.to ≤ length text.now) }
{
    let at = begin_in(text, span.begin.min(text.len()));
    if is_long(text, at) {
        excerpt_at(text, at, span.end, BEFORE, FROM_THERE)
    } else {
        excerpt_at(text, at, span.end, LONGEST, LONGEST)
    }
}
