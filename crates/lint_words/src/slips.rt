//! Slips in a text that isn't TOML, each known by toml's message, the key of its line, and what is around its place.

ghost use Rattle.std.specs.Prelude.{◌≤◌, length};

use crate::escapes::escape_hint;
use crate::headers::{ROUTES_HEADER, braces_hint, header_hint, no_frame_hint};
use crate::hint::Hint;
use crate::list_slips::{joined_hint, list_hint, pairs_hint};
use crate::near_bytes::{Class, begins_expression, run_len, run_start};
use crate::slips::LineFront::{Any, Has, Is};
use crate::slips::Say::{Braces, Escape, Header, Id, Joined, LineEnd, List, NoFrame, Pairs, Words};
use crate::toml_messages::{
    BAD_DATE, BAD_ESCAPE, BAD_KEY, BAD_STRING, BAD_VALUE, DUPLICATE, EXTENDS, NO_COMMA, NO_VALUE,
    UNEXPECTED,
};
use crate::values::{as_text, line_value, unclosed_id, value_start};
use crate::written_keys::{name_before, named_field};
use base_text::Field;

pub(crate) const COMMENT: &str = "a comment begins with #";

pub(crate) const TWO_BRACKETS: &str = "write [[frame]] with two brackets";

const NOT_YAML: &str = "a base is TOML, not YAML";

const EQUALS: &str = "a base is TOML: write = in place of :";

const DIGITS: &str = "a route is a digit, 0 to 9";

const EACH_PAGE: &str = "list each page, as [0, 1]";

// What is before the place on its line, blanks aside.
#[derive(Clone, Copy)]
enum LineFront {
    Any,
    Is(&'static str),
    Has(u8),
}

// What is said of a slip.
#[derive(Clone, Copy)]
enum Say {
    Words(&'static str),
    // The list, the pairs of `routes`, the number or the id that was meant.
    List,
    Pairs,
    Joined,
    Id,
    // The code that was meant.
    Escape,
    // That the text goes on in the next line.
    LineEnd,
    // That a header is missing, or isn't that of a frame.
    NoFrame,
    Header,
    // Where the routes are.
    Braces,
}

// Toml's message, the key of the line or any, what is before the place, and how the rest of the text begins.
type Slip = (&'static str, Option<Field>, LineFront, &'static str, Say);

const SLIPS: &[Slip] = &[
    (NO_VALUE, None, Is("--"), "", Words(COMMENT)),
    (UNEXPECTED, None, Any, "--", Words(COMMENT)),
    (BAD_KEY, None, Any, "/*", Words(COMMENT)),
    (UNEXPECTED, None, Any, "/*", Words(COMMENT)),
    (NO_VALUE, None, Is("-"), "", Words(NOT_YAML)),
    (NO_VALUE, None, Is("---"), "", Words(NOT_YAML)),
    (NO_VALUE, None, Any, ":", Words(EQUALS)),
    (BAD_KEY, None, Is(""), "<", Words("a base is TOML")),
    (BAD_KEY, None, Is(""), "((frame", Words(TWO_BRACKETS)),
    (BAD_KEY, None, Is(""), "(frame", Words(TWO_BRACKETS)),
    (BAD_KEY, None, Is(""), "{{frame", Words(TWO_BRACKETS)),
    (BAD_KEY, None, Is(""), "{frame", Words(TWO_BRACKETS)),
    (DUPLICATE, None, Any, "id", NoFrame),
    (DUPLICATE, None, Any, ROUTES_HEADER, Header),
    (EXTENDS, None, Any, "routes", Braces),
    (BAD_KEY, Some(Field::Routes), Has(b'{'), "*", Words(DIGITS)),
    (NO_COMMA, Some(Field::Routes), Has(b'['), "=", Pairs),
    (BAD_VALUE, Some(Field::Routes), Any, "(", Pairs),
    (BAD_VALUE, Some(Field::Rows), Any, "(", List),
    (BAD_VALUE, Some(Field::Outside), Any, "(", List),
    (NO_VALUE, Some(Field::Rows), Has(b'{'), "", List),
    (NO_VALUE, Some(Field::Outside), Has(b'{'), "", List),
    (UNEXPECTED, Some(Field::Rows), Any, ",", List),
    (UNEXPECTED, Some(Field::Outside), Any, ",", List),
    (UNEXPECTED, Some(Field::Rows), Any, "]", List),
    (UNEXPECTED, Some(Field::Outside), Any, "]", List),
    (BAD_DATE, Some(Field::Outside), Any, "", Words(EACH_PAGE)),
    (BAD_VALUE, Some(Field::Routes), Has(b'{'), "", Joined),
    (BAD_VALUE, Some(Field::Routes), Has(b'.'), "", Joined),
    (BAD_VALUE, Some(Field::Entry), Any, "", Joined),
    (UNEXPECTED, Some(Field::Id), Any, "", Id),
    (BAD_STRING, Some(Field::Body), Any, "\n", LineEnd),
    (BAD_STRING, Some(Field::Body), Any, "\r", LineEnd),
    (BAD_ESCAPE, None, Any, "", Escape),
];

// The key whose value is on the line of a place.
pub(crate) fn field_at(text: &[u8], at: usize) -> Option<Field>
    requires { at ≤ length text.now }
{
    named_field(name_before(text, value_start(text, at).unwrap_or(0)))
}

// What is before a place on its line, blanks at either end aside.
fn line_before(text: &[u8], at: usize) -> &[u8]
    requires { at ≤ length text.now }
{
    let before = &text[run_start(text, at, Class::Line)..at];
    before.trim_ascii()
}

fn is_before(before: LineFront, line: &[u8]) -> bool {
    match before {
        Any => true,
        Is(words) => line == words.as_bytes(),
        Has(byte) => line.contains(&byte),
    }
}

fn applies(slip: &Slip, message: &str, field: Option<Field>, line: &[u8], rest: &[u8]) -> bool {
    slip.0 == message
        && (slip.1.is_none() || slip.1 == field)
        && is_before(slip.2, line)
        && rest.starts_with(slip.3.as_bytes())
}

// A text whose quotation mark is missing at the line's end, or which goes on in the next.
fn line_end_hint(rest: &[u8]) -> Option<Hint<'static>> {
    let rest = rest.strip_prefix(b"\r").unwrap_or(rest);
    let next = rest.strip_prefix(b"\n")?;
    let line = next.get(..run_len(next, Class::Line))?;
    let is_text = !line.trim_ascii().is_empty() && !begins_expression(line);
    is_text.then_some(Hint::Words("a text ends on its line: write \\u000D\\u000A for a line end"))
}

fn id_hint(text: &[u8], at: usize) -> Option<Hint<'_>>
    requires { at ≤ length text.now }
{
    let (page, letter) = unclosed_id(line_value(text, at))?;
    Some(Hint::IdText(as_text(page), as_text(letter)))
}

// The hint that a row of the table asks for, if what is written there has one.
fn hint_said(text: &[u8], at: usize, say: Say) -> Option<Hint<'_>>
    requires { at ≤ length text.now }
{
    match say {
        Words(words) => Some(Hint::Words(words)),
        List => Some(list_hint(line_value(text, at))),
        Pairs => Some(pairs_hint(line_value(text, at))),
        Joined => joined_hint(&text[at..]),
        Id => id_hint(text, at),
        Escape => {
            let is_body = field_at(text, at) == Some(Field::Body);
            Some(escape_hint(&text[at..], is_body))
        }
        LineEnd => line_end_hint(&text[at..]),
        NoFrame => no_frame_hint(text, at),
        Header => header_hint(text, at),
        Braces => braces_hint(text, at),
    }
}

// The hint of the first slip that it can be.
pub(crate) fn slip_hint<'a>(text: &'a [u8], at: usize, message: &str) -> Option<Hint<'a>>
    requires { at ≤ length text.now }
{
    let field = field_at(text, at);
    let line = line_before(text, at);
    let rest = &text[at..];
    for slip in SLIPS {
        if applies(slip, message, field, line, rest) {
            let hint = hint_said(text, at, slip.4);
            if hint.is_some() {
                return hint;
            }
        }
    }
    None
}
