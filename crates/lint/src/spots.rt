//! The span of a fault: of the smallest piece of a text that is at fault.

ghost use Rattle.std.specs.Prelude.{◌≡◌, slice_get};
ghost use Rattle.std.specs.Option.{option_or};
ghost use Rattle.lint.specs.Loops.{table_seen};
ghost use Rattle.lint.specs.Spots as spec;

use crate::tables::TableSpots;
use abstract_paint::Start;
use base_text::{Detail, Field, TableKind, WholeFault, digit_key};
use fault_scripts::{Fault, FaultKind};
use frame_records::MOST_LISTED;
use lint_words::LineEnd;
use page_ids::Key;
use toml_places::{Span, char_span, key_span, pair_span, value_span};

// A key of the table as it is written.
fn key_of(table: &TableSpots<'_>, key: &str) -> Option<Span>
    ensures { result ≡ spec.key_of (table_seen table.now) key.now }
{
    key_span(table.text(), table.key(key)?)
}

fn value_of(table: &TableSpots<'_>, key: &str) -> Option<Span>
    ensures { result ≡ spec.span_of_value (table_seen table.now) key.now }
{
    value_span(table.text(), table.key(key)?)
}

// A key of the table with its value.
fn pair_of(table: &TableSpots<'_>, key: &str) -> Option<Span>
    ensures { result ≡ spec.pair_of (table_seen table.now) key.now }
{
    pair_span(table.text(), table.key(key)?)
}

// A span, or if there is none the value of a key, which is read only then: it may be long.
fn or_value(table: &TableSpots<'_>, span: Option<Span>, key: &str) -> Option<Span>
    ensures { result ≡ option_or span (spec.span_of_value (table_seen table.now) key.now) }
{
    match span {
        Some(span) => Some(span),
        None => value_of(table, key),
    }
}

// A key below `routes`.
fn route_key(table: &TableSpots<'_>, key: &str) -> Option<Span>
    ensures { result ≡ spec.route_key (table_seen table.now) key.now }
{
    let written = match table.route(key) {
        Some(spot) => key_span(table.text(), spot),
        None => None,
    };
    or_value(table, written, "routes")
}

// A route with its page.
fn route_pair(table: &TableSpots<'_>, key: &str) -> Option<Span>
    ensures { result ≡ spec.route_pair (table_seen table.now) key.now }
{
    let written = match table.route(key) {
        Some(spot) => pair_span(table.text(), spot),
        None => None,
    };
    or_value(table, written, "routes")
}

// An item of the table's list, which is under this key.
fn item_of(table: &TableSpots<'_>, key: &str, index: usize) -> Option<Span>
    ensures { result ≡ spec.item_of (table_seen table.now) key.now index }
{
    or_value(table, table.item(index), key)
}

// A character of the string in a span.
fn char_of(table: &TableSpots<'_>, index: usize, string: Span) -> Span
    ensures { result ≡ spec.char_of (table_seen table.now) index string }
{
    char_span(table.text(), string.begin, index).unwrap_or(string)
}

fn later(one: Option<Span>, other: Option<Span>) -> Option<Span>
    ensures { result ≡ spec.later one other }
{
    match (one, other) {
        (Some(one), Some(other)) => {
            if one.begin < other.begin {
                Some(other)
            } else {
                Some(one)
            }
        }
        (Some(one), None) => Some(one),
        (None, other) => other,
    }
}

fn unknown_at(table: &TableSpots<'_>, kind: TableKind, key: &str) -> Option<Span>
    ensures { result ≡ spec.unknown_at (table_seen table.now) kind key.now }
{
    match kind {
        TableKind::Routes => route_key(table, key),
        TableKind::Top | TableKind::Frame => key_of(table, key),
    }
}

fn digit_at(table: &TableSpots<'_>, digit: usize) -> Option<Span>
    ensures { result ≡ spec.digit_at (table_seen table.now) digit }
{
    if digit < 10 {
        route_pair(table, digit_key(digit))
    } else {
        None
    }
}

// The page of a route, by its digit.
fn route_value(table: &TableSpots<'_>, digit: usize) -> Option<Span> {
    if digit < 10 {
        value_span(table.text(), table.route(digit_key(digit))?)
    } else {
        None
    }
}

// An item of a list, by its number from 1, or a route, by its digit.
fn listed_at(table: &TableSpots<'_>, field: Field, number: usize) -> Option<Span>
    ensures { result ≡ spec.listed_at (table_seen table.now) field number }
{
    if field == Field::Routes {
        digit_at(table, number)
    } else {
        item_of(table, field.name(), number.saturating_sub(1))
    }
}

// A row, by its number from 1.
fn row_at(table: &TableSpots<'_>, number: usize) -> Option<Span>
    ensures { result ≡ spec.span_of_row (table_seen table.now) number }
{
    item_of(table, "rows", number.saturating_sub(1))
}

// A character of the body, by its index.
fn body_char(table: &TableSpots<'_>, index: usize) -> Option<Span>
    ensures { result ≡ spec.body_char (table_seen table.now) index }
{
    let body = value_of(table, "body")?;
    Some(char_of(table, index, body))
}

// A character of a row, each by its number from 1.
fn row_char(table: &TableSpots<'_>, row: usize, number: usize) -> Option<Span>
    ensures { result ≡ spec.row_char (table_seen table.now) row number }
{
    let row = row_at(table, row)?;
    Some(char_of(table, number.saturating_sub(1), row))
}

// A missing key. A frame that shows nothing is marked at its id.
fn absent_at(table: &TableSpots<'_>, field: Field) -> Option<Span>
    ensures { result ≡ spec.absent_at (table_seen table.now) field }
{
    match field {
        Field::Body => value_of(table, "id"),
        _ => None,
    }
}

fn detail_at(table: &TableSpots<'_>, detail: &Detail) -> Option<Span>
    ensures { result ≡ spec.detail_at (table_seen table.now) detail.now }
{
    match detail {
        Detail::UnknownKey(kind, key) => unknown_at(table, *kind, key.as_str()),
        Detail::Absent(field) => absent_at(table, *field),
        Detail::WrongKind(field, _) => value_of(table, field.name()),
        Detail::WrongItem(field, number, _) => listed_at(table, *field, *number),
        Detail::Number(field, _) => value_of(table, field.name()),
        Detail::ItemNumber(field, number, _) => listed_at(table, *field, *number),
        Detail::Lead(_) => value_of(table, "lead"),
        Detail::BodyCode(number, _) | Detail::MoreBodyCodes(number, _) => {
            body_char(table, number.saturating_sub(1))
        }
        Detail::TooManyRows(_) => row_at(table, 23),
        Detail::BodyAndRows => later(key_of(table, "body"), key_of(table, "rows")),
        Detail::RowTooLong(row, _) => row_at(table, *row),
        Detail::RowCode(row, number, _) | Detail::MoreRowCodes(row, number, _) => {
            row_char(table, *row, *number)
        }
        Detail::BadFrame(_) => value_of(table, "id"),
    }
}

// The value that a detail is about, as it is written, if a hint can use it.
pub(crate) fn written_value<'t>(table: &'t TableSpots<'_>, detail: &Detail) -> &'t [u8] {
    let span = match detail {
        Detail::WrongKind(field, _) => value_of(table, field.name()),
        Detail::UnknownKey(TableKind::Frame, key) => value_of(table, key.as_str()),
        Detail::WrongItem(Field::Routes, digit, _) => route_value(table, *digit),
        Detail::WrongItem(Field::Outside, number, _) => listed_at(table, Field::Outside, *number),
        _ => None,
    };
    match span {
        None => b"",
        Some(span) => table
            .text()
            .as_bytes()
            .get(span.begin..span.end)
            .unwrap_or(b""),
    }
}

// Whether a key of the table is in a header.
fn is_in_header(table: &TableSpots<'_>, key: &str) -> bool {
    match table.key(key) {
        Some(spot) => table.text().as_bytes().get(spot.at) == Some(&b'['),
        None => false,
    }
}

// Whether an unknown key is that of a header, or one of routes that have a header.
pub(crate) fn in_header(table: &TableSpots<'_>, detail: &Detail) -> bool {
    match detail {
        Detail::UnknownKey(TableKind::Routes, _) => is_in_header(table, "routes"),
        Detail::UnknownKey(_, key) => is_in_header(table, key.as_str()),
        _ => false,
    }
}

// The span of what is wrong with a table.
pub fn detail_span(table: &TableSpots<'_>, detail: &Detail) -> Span
    ensures { result ≡ spec.detail_span (table_seen table.now) detail.now }
{
    detail_at(table, detail).unwrap_or(table.whole())
}

// The frame whose table a fault of a base as a whole is about; none if it is about the top.
pub fn whole_table(fault: &WholeFault) -> Option<usize>
    ensures { result ≡ spec.whole_table fault.now }
{
    match *fault {
        WholeFault::TooManyFrames(_) => Some(MOST_LISTED),
        WholeFault::TooManyOutside(_) | WholeFault::OutsideInside(_) => None,
        WholeFault::BodyTooLong { table, .. } => Some(table),
        WholeFault::NextAfterZ { table, .. } => Some(table),
        WholeFault::Duplicate { table, .. } => Some(table),
    }
}

// Whether a frame is written with `rows`.
pub fn has_rows(table: &TableSpots<'_>) -> bool
    ensures { result ≡ spec.has_rows (table_seen table.now) }
{
    table.key("rows").is_some()
}

// What a frame shows.
fn shown_at(table: &TableSpots<'_>) -> Option<Span>
    ensures { result ≡ spec.shown_at (table_seen table.now) }
{
    let key = if has_rows(table) { "rows" } else { "body" };
    value_of(table, key)
}

fn whole_at(table: &TableSpots<'_>, fault: &WholeFault) -> Option<Span>
    ensures { result ≡ spec.whole_at (table_seen table.now) fault.now }
{
    match fault {
        WholeFault::TooManyFrames(_) => value_of(table, "id"),
        WholeFault::TooManyOutside(_) => item_of(table, "outside", MOST_LISTED),
        WholeFault::BodyTooLong { .. } => shown_at(table),
        WholeFault::NextAfterZ { .. } => pair_of(table, "next"),
        WholeFault::Duplicate { .. } => value_of(table, "id"),
        WholeFault::OutsideInside(_) => value_of(table, "outside"),
    }
}

// The span of a fault of a base as a whole, in its table: that of the element of `outside` at fault, if one is.
pub fn whole_span(table: &TableSpots<'_>, element: Option<Span>, fault: &WholeFault) -> Span
    ensures { result ≡ spec.whole_span (table_seen table.now) element fault.now }
{
    match element {
        Some(element) => element,
        None => whole_at(table, fault).unwrap_or(table.whole()),
    }
}

// A key that is pressed at a frame.
fn pressed_at(table: &TableSpots<'_>, key: &Key) -> Option<Span>
    ensures { result ≡ spec.pressed_at (table_seen table.now) key.now }
{
    match key {
        Key::Route(digit) => digit_at(table, digit.get() as usize),
        Key::Next => pair_of(table, "next"),
        _ => None,
    }
}

fn sought_at(table: &TableSpots<'_>, key: &Option<Key>) -> Option<Span>
    ensures { result ≡ spec.sought_at (table_seen table.now) key.now }
{
    match key {
        Some(key) => pressed_at(table, key),
        None => None,
    }
}

// The character of the byte at fault, if it is known.
fn byte_at(table: &TableSpots<'_>, start: Option<Start>) -> Option<Span>
    ensures { result ≡ spec.byte_at (table_seen table.now) start }
{
    match start {
        Some(start) => body_char(table, start.offset),
        None => value_of(table, "body"),
    }
}

// What touches the last row of the screen: of rows it is the 22nd.
fn touched_at(table: &TableSpots<'_>, start: Option<Start>) -> Option<Span>
    ensures { result ≡ spec.touched_at (table_seen table.now) start }
{
    if has_rows(table) {
        row_at(table, 22)
    } else {
        byte_at(table, start)
    }
}

fn kind_at(table: &TableSpots<'_>, fault: &Fault) -> Option<Span>
    ensures { result ≡ spec.kind_at (table_seen table.now) fault.now fault.now.kind }
{
    match fault.kind {
        FaultKind::EntryMissing => value_of(table, "entry"),
        FaultKind::EntryClosed => value_of(table, "group"),
        FaultKind::Price => value_of(table, "price"),
        FaultKind::Touches => touched_at(table, fault.start),
        FaultKind::Missing | FaultKind::Closed => sought_at(table, &fault.key),
        FaultKind::NoReturn => value_of(table, "id"),
    }
}

// The span of a fault of the audit, in its table.
pub fn audit_span(table: &TableSpots<'_>, fault: &Fault) -> Span
    ensures { result ≡ spec.audit_span (table_seen table.now) fault.now }
{
    kind_at(table, fault).unwrap_or(table.whole())
}

// The span of a row, by its number from 1, of a frame given as rows.
pub fn row_span(table: &TableSpots<'_>, row: usize) -> Span
    ensures { result ≡ spec.row_span (table_seen table.now) row }
{
    row_at(table, row).unwrap_or(table.whole())
}

// The span of the entry page, in the top.
pub fn entry_span(table: &TableSpots<'_>) -> Span
    ensures { result ≡ spec.entry_span (table_seen table.now) }
{
    value_of(table, "entry").unwrap_or(table.whole())
}

// Whether a text has this byte at an offset.
fn has_byte(text: &str, at: usize, byte: u8) -> bool
    ensures { result ≡ spec.is_this_byte byte (slice_get text.now at) }
{
    match text.as_bytes().get(at) {
        Some(there) => *there == byte,
        None => false,
    }
}

// Whether a span has one byte.
fn is_one(span: Span) -> bool
    ensures { result ≡ spec.is_one span }
{
    span.begin < span.end && span.end - span.begin == 1
}

// The span, if the text there is a line feed.
fn feed_span(text: &str, span: Span) -> Option<Span>
    ensures { result ≡ spec.feed_span text.now span }
{
    (is_one(span) && has_byte(text, span.begin, b'\n')).then_some(span)
}

// The span, if the text has a carriage return before it.
fn returned_span(text: &str, span: Span) -> Option<Span>
    ensures { result ≡ spec.returned_span text.now span }
{
    has_byte(text, span.begin.saturating_sub(1), b'\r').then_some(span)
}

// The code of the body at an index, if the text writes a line's end there in this way.
pub fn line_end_at(table: &TableSpots<'_>, end: LineEnd, index: usize) -> Option<Span>
    ensures { result ≡ spec.line_end_at (table_seen table.now) end index }
{
    let feed = feed_span(table.text(), body_char(table, index)?)?;
    match end {
        LineEnd::Feed => Some(feed),
        LineEnd::Return => returned_span(table.text(), feed),
    }
}

// The span, if it begins with a single quotation mark.
fn single_span(text: &str, span: Span) -> Option<Span>
    ensures { result ≡ spec.single_span text.now span }
{
    has_byte(text, span.begin, b'\'').then_some(span)
}

// A row, by its number from 1, in single quotation marks.
pub fn single_at(table: &TableSpots<'_>, row: usize) -> Option<Span>
    ensures { result ≡ spec.single_at (table_seen table.now) row }
{
    single_span(table.text(), table.item(row.saturating_sub(1))?)
}

// Under which key what a frame shows is written.
pub fn shown_field(table: &TableSpots<'_>) -> Field
    ensures { result ≡ spec.shown_field (table_seen table.now) }
{
    if has_rows(table) {
        Field::Rows
    } else {
        Field::Body
    }
}

// The code of the body at an index, if it is known.
fn byte_written(table: &TableSpots<'_>, index: Option<usize>) -> Option<Span>
    ensures { result ≡ spec.byte_written (table_seen table.now) index }
{
    match index {
        Some(index) => body_char(table, index),
        None => value_of(table, "body"),
    }
}

// The span of a row of the screen: of a frame that is given as rows that row, else the code of the body at an index.
pub fn sight_span(table: &TableSpots<'_>, row: usize, index: Option<usize>) -> Span
    ensures { result ≡ spec.sight_span (table_seen table.now) row index }
{
    let span = if has_rows(table) {
        row_at(table, row)
    } else {
        byte_written(table, index)
    };
    span.unwrap_or(table.whole())
}

// The span of the value of the frame's id.
pub fn named_span(table: &TableSpots<'_>) -> Span
    ensures { result ≡ spec.named_span (table_seen table.now) }
{
    value_of(table, "id").unwrap_or(table.whole())
}

// The frame whose table a fault of the audit is about, which this table writes; none if the entry frame is missing.
pub fn kind_table(table: usize, kind: FaultKind) -> Option<usize>
    ensures { result ≡ spec.kind_table table kind }
{
    match kind {
        FaultKind::EntryMissing => None,
        _ => Some(table),
    }
}
