//! Expressions, each on its line: pairs and headers.

ghost use Rattle.std.specs.Prelude.{◌≡◌, ◌≤◌, length};
ghost use Rattle.toml_parser.specs.Reading.{Reads, Shortens, key_view};
ghost use Rattle.toml.specs.Parse as toml;
ghost use Rattle.toml_places.specs.Loops as loops;
ghost use Rattle.toml_places.specs.Loops.{line_view};

use crate::text_lines::is_marked;
use crate::values::{after_value, key_equals};
use std::alloc::Global;
use toml_parser::text::{byte_at, first, skip, skip_ws};
use toml_parser::{ErrorKind, Key, ParseError, RECURSION_LIMIT, dotted_key};

// What an expression is.
#[derive(Clone, Copy)]
pub enum Sort {
    Pair,
    Table,
    ArrayTable,
}

// The key of an expression, and what it is.
#[derive(Drop)]
pub struct KeyLine {
    pub key: Key,
    pub sort: Sort,
}

// The text without a byte order mark.
#[tactic(auto, unfolding(toml::specs::Parse::skip_bom))]
pub fn skip_bom(text: &str) -> &str
    ensures rest { result.now ≡ toml.skip_bom text.now }
    ensures within { length result.now ≤ length text.now }
{
    if is_marked(text.as_bytes()) {
        &text[3..]
    } else {
        text
    }
}

// An expression that has its line to itself.
#[tactic(auto, unfolding(crate::specs::Loops::whole_line))]
pub fn read_line(alloc: Global, text: &str) -> Result<(KeyLine, &str), ParseError>
    ensures value { Reads line_view result (loops.whole_line text.now) }
    ensures shorter { Shortens text.now result }
{
    let (line, rest) = opening(alloc, text)?;
    let end = skip_ws(rest);
    if end.is_empty() || matches!(first(end), b'#' | b'\n' | b'\r') {
        Ok((line, rest))
    } else {
        Err(ParseError::at(ErrorKind::EndOfLine, end))
    }
}

#[tactic(auto, unfolding(crate::specs::Loops::opened_after))]
fn opening(alloc: Global, text: &str) -> Result<(KeyLine, &str), ParseError>
    ensures value { Reads line_view result (loops.opened_after text.now) }
    ensures shorter { Shortens text.now result }
{
    if first(text) != b'[' {
        pair(alloc, text)
    } else if byte_at(text, 1) == b'[' {
        array_header(alloc, skip(text, 2))
    } else {
        let (key, rest) = header_key(alloc, skip(text, 1))?;
        let sort = Sort::Table;
        Ok((KeyLine { key, sort }, rest))
    }
}

#[tactic(auto, unfolding(crate::specs::Loops::pair))]
fn pair(alloc: Global, text: &str) -> Result<(KeyLine, &str), ParseError>
    ensures value { Reads line_view result (loops.pair text.now) }
    ensures shorter { Shortens text.now result }
{
    let (key, at_value) = key_equals(alloc, text)?;
    match after_value(at_value, RECURSION_LIMIT) {
        Some(rest) => {
            let sort = Sort::Pair;
            Ok((KeyLine { key, sort }, rest))
        }
        None => Err(ParseError::at(ErrorKind::Value, at_value)),
    }
}

// A header in double brackets, after its opening brackets.
#[tactic(auto, unfolding(crate::specs::Loops::array_header))]
fn array_header(alloc: Global, text: &str) -> Result<(KeyLine, &str), ParseError>
    ensures value { Reads line_view result (loops.array_header text.now) }
    ensures shorter { Shortens text.now result }
{
    let (key, rest) = header_key(alloc, text)?;
    if first(rest) != b']' {
        return Err(ParseError::at(ErrorKind::UnclosedArrayTable, rest));
    }
    let sort = Sort::ArrayTable;
    Ok((KeyLine { key, sort }, skip(rest, 1)))
}

// The key of a header and its first closing bracket.
#[tactic(auto, unfolding(toml::specs::Parse::header_key))]
fn header_key(alloc: Global, text: &str) -> Result<(Key, &str), ParseError>
    ensures value { Reads key_view result (toml.header_key text.now) }
    ensures shorter { Shortens text.now result }
{
    let (key, rest) = dotted_key(alloc, skip_ws(text))?;
    if first(rest) != b']' {
        return Err(ParseError::at(ErrorKind::UnclosedTable, rest));
    }
    Ok((key, skip(rest, 1)))
}
