ghost use Rattle.std.specs.Prelude.{◌≡◌, ◌++◌, IfOk, OnOk};
ghost use Rattle.base_text.specs.declared.detail.Detail.TheVariants.{WrongKind};
ghost use Rattle.lint_words.specs.TextWords.{kind_text, needed_text, item_needed, unknown_text, absent_words, misfit_words, is_element, row_words, shown_words, detail_words, unlisted_words, detail_code, text_message, text_fault_words, too_long_words, not_toml_words};

use crate::about::{About, text_about};
use crate::code::Code;
use crate::key_pieces::{push_item, push_subject};
use crate::line::Line;
use crate::piece::Piece::{
    Char, Count, Frame, Grouped, Item, Key, OutOfRange, Quoted, Subject, Text,
};
use crate::piece::Wording;
use crate::text_hints::{Written, text_hint};
use crate::toml_hints::toml_hint;
use crate::words::Words;
use base_text::{Detail, Field, TableKind, TextFault, ValueKind};
use page_ids::FrameId;
use std::alloc::{AllocError, Global};

fn kind_text(kind: ValueKind) -> &'static str
    ensures { result.now ≡ kind_text kind }
{
    match kind {
        ValueKind::String => "a string",
        ValueKind::Integer => "a whole number",
        ValueKind::Float => "a decimal number",
        ValueKind::Boolean => "true or false",
        ValueKind::Datetime => "a date or time",
        ValueKind::Array => "a list",
        ValueKind::Table => "a table",
    }
}

fn needed_text(field: Field) -> &'static str
    ensures { result.now ≡ needed_text field }
{
    match field {
        Field::Entry | Field::Price | Field::Group => "a whole number",
        Field::Outside => "a list of whole numbers",
        Field::Frame => "an array of tables",
        Field::Id | Field::Lead | Field::Body => "a string",
        Field::Next => "true or false",
        Field::Routes => "a table",
        Field::Rows => "a list of strings",
    }
}

fn item_needed(field: Field) -> &'static str
    ensures { result.now ≡ item_needed field }
{
    match field {
        Field::Rows => "a string",
        _ => "a whole number",
    }
}

fn unknown_text(table: TableKind) -> &'static str
    ensures { result.now ≡ unknown_text table }
{
    match table {
        TableKind::Top => " is not a key of a base",
        TableKind::Frame => " is not a key of a frame",
        TableKind::Routes => " is not a key of routes, use the digits 0 to 9",
    }
}

// A missing key.
fn push_absent(out: &mut Vec<u8>, field: Field, id: Option<FrameId>) -> Result<(), AllocError>
    ensures { OnOk result (out.new.items ≡ out.old.items ++ absent_words field id) }
{
    match field {
        Field::Entry => out.say(&[Text("the base has no \"entry\"")]),
        Field::Body => out.say(&[Frame(id), Text(" has no \"body\" and no \"rows\"")]),
        _ => out.say(&[Frame(id), Text(" has no "), Key(field)]),
    }
}

// What is found, and what is needed.
fn push_misfit<'a>(out: &mut Vec<u8>, found: &'a str, needed: &'a str) -> Result<(), AllocError>
    ensures { OnOk result (out.new.items ≡ out.old.items ++ misfit_words found.now needed.now) }
{
    out.say(&[
        Text(" is "),
        Text(found),
        Text(", "),
        Text(needed),
        Text(" is needed"),
    ])
}

// Whether `frame` names the frame of an index, and not the key of the top.
fn is_element(frame: Option<usize>, field: Field) -> bool
    ensures { result ≡ is_element frame field }
{
    match (frame, field) {
        (Some(_), Field::Frame) => true,
        _ => false,
    }
}

// A value of a key that is of another kind, or an element of `frame` that is no table.
fn push_wrong_value(
    out: &mut Vec<u8>,
    frame: Option<usize>,
    id: Option<FrameId>,
    field: Field,
    kind: ValueKind,
) -> Result<(), AllocError>
    ensures { OnOk result (out.new.items ≡ out.old.items ++ detail_words frame id (WrongKind field kind)) }
{
    if is_element(frame, field) {
        out.say(&[
            Text("an item of \"frame\" is "),
            Text(kind_text(kind)),
            Text(", a table is needed"),
        ])
    } else {
        push_subject(out, field, id)?;
        push_misfit(out, kind_text(kind), needed_text(field))
    }
}

// What is wrong with a row.
fn push_row_detail(
    out: &mut Vec<u8>,
    id: Option<FrameId>,
    detail: &Detail,
) -> Result<(), AllocError>
    ensures { OnOk result (out.new.items ≡ out.old.items ++ row_words id detail.now) }
{
    match detail {
        Detail::RowTooLong(row, length) => out.say(&[
            Item(Field::Rows, *row, id),
            Text(" has "),
            Grouped(*length),
            Text(" characters, at most 40 are allowed"),
        ]),
        Detail::RowCode(row, number, c) => out.say(&[
            Text("character "),
            Grouped(*number),
            Text(" of "),
            Item(Field::Rows, *row, id),
            Text(" is "),
            Char(*c),
            Text(", which no row may have"),
        ]),
        // How many characters beyond those that are reported no row may have.
        Detail::MoreRowCodes(row, _, more) => out.say(&[
            Item(Field::Rows, *row, id),
            Text(" has "),
            Count(*more, "more character", "more characters"),
            Text(" that no row may have"),
        ]),
        _ => Ok(()),
    }
}

// What is wrong with what a frame shows.
fn push_shown_detail(
    out: &mut Vec<u8>,
    id: Option<FrameId>,
    detail: &Detail,
) -> Result<(), AllocError>
    ensures { OnOk result (out.new.items ≡ out.old.items ++ shown_words id detail.now) }
{
    match detail {
        Detail::BodyAndRows => out.say(&[
            Frame(id),
            Text(" has both \"body\" and \"rows\", leave out one"),
        ]),
        Detail::BodyCode(number, c) => out.say(&[
            Text("character "),
            Grouped(*number),
            Text(" of "),
            Subject(Field::Body, id),
            Text(" is "),
            Char(*c),
            Text(", at most U+00FF is allowed"),
        ]),
        // How many characters beyond those that are reported are no bytes.
        Detail::MoreBodyCodes(_, more) => out.say(&[
            Subject(Field::Body, id),
            Text(" has "),
            Count(*more, "more character", "more characters"),
            Text(" above U+00FF"),
        ]),
        Detail::TooManyRows(count) => out.say(&[
            Frame(id),
            Text(" has "),
            Grouped(*count),
            Text(" rows, at most 22 are allowed"),
        ]),
        _ => push_row_detail(out, id, detail),
    }
}

fn push_detail(out: &mut Vec<u8>, fault: &TextFault) -> Result<(), AllocError>
    ensures { OnOk result (out.new.items ≡ out.old.items ++
        detail_words fault.now.frame fault.now.id fault.now.detail) }
{
    let id = fault.id;
    match &fault.detail {
        Detail::UnknownKey(table, key) => {
            out.say(&[Quoted(key.as_str()), Text(unknown_text(*table))])
        }
        Detail::Absent(field) => push_absent(out, *field, id),
        Detail::WrongKind(field, kind) => push_wrong_value(out, fault.frame, id, *field, *kind),
        Detail::WrongItem(field, n, kind) => {
            push_item(out, *field, *n, id)?;
            push_misfit(out, kind_text(*kind), item_needed(*field))
        }
        Detail::Number(field, number) => {
            out.say(&[Subject(*field, id), OutOfRange(*field, *number)])
        }
        Detail::ItemNumber(field, n, number) => {
            out.say(&[Item(*field, *n, id), OutOfRange(*field, *number)])
        }
        Detail::Lead(text) => out.say(&[
            Subject(Field::Lead, id),
            Text(" is "),
            Quoted(text.as_str()),
            Text(", \"clear\" or \"keep\" is needed"),
        ]),
        Detail::BadFrame(text) => out.say(&[Quoted(text.as_str()), Text(" is not a frame id")]),
        _ => push_shown_detail(out, id, &fault.detail),
    }
}

// How many faults of a frame or of the top aren't listed.
fn push_unlisted(out: &mut Vec<u8>, fault: &TextFault) -> Result<(), AllocError>
    ensures { OnOk result (out.new.items ≡ out.old.items ++
        unlisted_words fault.now.frame fault.now.id fault.now.unlisted) }
{
    let count = Count(fault.unlisted, "more fault", "more faults");
    match fault.frame {
        None => out.say(&[count, Text(" at the top, not listed")]),
        Some(_) => out.say(&[count, Text(" in "), Frame(fault.id), Text(", not listed")]),
    }
}

fn code_of(detail: &Detail) -> Code
    ensures { result ≡ detail_code detail.now }
{
    match detail {
        Detail::UnknownKey(_, _) => Code::UnknownKey,
        Detail::Absent(_) => Code::Absent,
        Detail::WrongKind(_, _) | Detail::WrongItem(_, _, _) => Code::WrongKind,
        Detail::Number(_, _)
        | Detail::ItemNumber(_, _, _)
        | Detail::Lead(_)
        | Detail::BodyCode(_, _)
        | Detail::MoreBodyCodes(_, _)
        | Detail::TooManyRows(_) => Code::Range,
        Detail::BodyAndRows => Code::BodyAndRows,
        Detail::RowTooLong(_, _) => Code::RowTooLong,
        Detail::RowCode(_, _, _) | Detail::MoreRowCodes(_, _, _) => Code::RowCode,
        Detail::BadFrame(_) => Code::BadFrame,
    }
}

fn push_message(out: &mut Vec<u8>, fault: &TextFault) -> Result<(), AllocError>
    ensures { OnOk result (out.new.items ≡ out.old.items ++ text_message fault.now) }
{
    if fault.unlisted == 0 {
        push_detail(out, fault)
    } else {
        push_unlisted(out, fault)
    }
}

/// The words of a fault of a text; of one that is listed for all others of its table, how many these are.
pub fn text_fault_words(
    alloc: Global,
    fault: &TextFault,
    written: &Written<'_>,
) -> Result<Words, AllocError>
    ensures { IfOk result (λ words. words ≡ text_fault_words fault.now) }
{
    let mut message = Vec::new(alloc);
    push_message(&mut message, fault)?;
    let message = Line::of(alloc, &message)?;
    Ok(Words::new(
        code_of(&fault.detail),
        text_about(alloc, fault)?,
        message,
        text_hint(alloc, fault, written)?,
    ))
}

/// The words of X1.
pub fn too_long_words(alloc: Global) -> Result<Words, AllocError>
    ensures { IfOk result (λ words. words ≡ too_long_words) }
{
    let message = Line::of(alloc, b"the text has more than 16,777,216 bytes")?;
    Ok(Words::new(Code::TooLong, About::frame(None), message, None))
}

/// The words of X2: toml's message on a text, whose span begins at the byte offset `at`, and a hint. The hint goes over
/// the text a few times at most.
pub fn not_toml_words(
    alloc: Global,
    text: &[u8],
    at: usize,
    message: &str,
) -> Result<Words, AllocError>
    ensures { IfOk result (λ words. words ≡ not_toml_words message.now) }
{
    let hint = toml_hint(alloc, text, at, message)?;
    let message = Line::of(alloc, message.as_bytes())?;
    Ok(Words::new(Code::NotToml, About::frame(None), message, hint))
}
