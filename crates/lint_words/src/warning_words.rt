//! The words of warnings about what a frame shows.

ghost use Rattle.std.specs.Prelude.{◌≡◌, ◌++◌, IfOk, OnOk};
ghost use Rattle.lint_words.specs.WarningWords.{hidden_message, line_end_text, line_end_message, escape_message, shown_escape_message, menu_message, unsought_message, hidden_words, line_end_words, escape_words, shown_escape_words, menu_words, unsought_words};

use crate::about::About;
use crate::code::Code;
use crate::hint::hint_of;
use crate::line::Line;
use crate::piece::Piece::{Grouped, Id, Item, Number, Text};
use crate::piece::Wording;
use crate::words::Words;
use base_text::Field;
use frame_records::GroupNo;
use page_ids::FrameId;
use std::alloc::{AllocError, Global};

fn push_hidden(out: &mut Vec<u8>, id: FrameId, row: usize) -> Result<(), AllocError>
    ensures { OnOk result (out.new.items ≡ out.old.items ++ hidden_message id row) }
{
    out.say(&[
        Item(Field::Rows, row, Some(id)),
        Text(" is hidden by the double height of row "),
        Grouped(row.saturating_sub(1)),
    ])
}

/// How a line of a body ends in the file.
#[derive(Debug, Clone, Copy, PartialEq, Eq)]
pub enum LineEnd {
    /// With a line feed alone, after which the text goes on in the same column.
    Feed,
    /// With a carriage return and a line feed, if the file is saved so.
    Return,
}

fn line_end_text(end: LineEnd) -> &'static str
    ensures { result.now ≡ line_end_text end }
{
    match end {
        LineEnd::Feed => { " ends with a line feed alone, so the text goes on in the same column" }
        LineEnd::Return => {
            " ends with CR LF as the file does: saved with LF, the text goes on in the same column"
        }
    }
}

fn push_line_end(out: &mut Vec<u8>, id: FrameId, end: LineEnd) -> Result<(), AllocError>
    ensures { OnOk result (out.new.items ≡ out.old.items ++ line_end_message id end) }
{
    out.say(&[
        Text("a line of the body of frame "),
        Id(id),
        Text(line_end_text(end)),
    ])
}

fn push_escape(out: &mut Vec<u8>, id: FrameId, row: usize) -> Result<(), AllocError>
    ensures { OnOk result (out.new.items ≡ out.old.items ++ escape_message id row) }
{
    out.say(&[
        Item(Field::Rows, row, Some(id)),
        Text(" has \\u00 in single quotation marks, which is shown as it is"),
    ])
}

fn push_shown_escape(out: &mut Vec<u8>, id: FrameId, row: usize) -> Result<(), AllocError>
    ensures { OnOk result (out.new.items ≡ out.old.items ++ shown_escape_message id row) }
{
    out.say(&[
        Item(Field::Rows, row, Some(id)),
        Text(" shows an escape as it is written"),
    ])
}

fn push_menu(out: &mut Vec<u8>, id: FrameId, row: usize, digit: u64) -> Result<(), AllocError>
    ensures { OnOk result (out.new.items ≡ out.old.items ++ menu_message id row digit) }
{
    out.say(&[
        Item(Field::Rows, row, Some(id)),
        Text(" offers key "),
        Number(digit),
        Text(", which has no route"),
    ])
}

fn push_unsought(out: &mut Vec<u8>, id: FrameId, group: GroupNo) -> Result<(), AllocError>
    ensures { OnOk result (out.new.items ≡ out.old.items ++ unsought_message id group) }
{
    out.say(&[
        Text("no key of any frame leads to frame "),
        Id(id),
        Text(", which belongs to group "),
        Number(u64::from(group.get())),
    ])
}

/// The words of a row, counted from 1, whose text the double height of the row above hides.
pub fn hidden_words(alloc: Global, id: FrameId, row: usize) -> Result<Words, AllocError>
    ensures { IfOk result (λ words. words ≡ hidden_words id row) }
{
    let mut message = Vec::new(alloc);
    push_hidden(&mut message, id, row)?;
    let hint = hint_of(alloc, &[Text("leave row "), Grouped(row), Text(" empty")])?;
    let about = About::key(alloc, Some(id), "rows")?;
    Ok(Words::new(Code::Hidden, about, Line::of(alloc, &message)?, hint))
}

/// The words of a body over several lines of the file, of which one ends so.
pub fn line_end_words(alloc: Global, id: FrameId, end: LineEnd) -> Result<Words, AllocError>
    ensures { IfOk result (λ words. words ≡ line_end_words id end) }
{
    let mut message = Vec::new(alloc);
    push_line_end(&mut message, id, end)?;
    let hint = hint_of(
        alloc,
        &[Text("write \\u000D\\u000A at the end of each line")],
    )?;
    let about = About::key(alloc, Some(id), "body")?;
    Ok(Words::new(Code::LineEnd, about, Line::of(alloc, &message)?, hint))
}

/// The words of a row, counted from 1, that has `\u00` in single quotation marks.
pub fn escape_words(alloc: Global, id: FrameId, row: usize) -> Result<Words, AllocError>
    ensures { IfOk result (λ words. words ≡ escape_words id row) }
{
    let mut message = Vec::new(alloc);
    push_escape(&mut message, id, row)?;
    let hint = hint_of(alloc, &[Text("write the row in double quotation marks")])?;
    let about = About::key(alloc, Some(id), "rows")?;
    Ok(Words::new(Code::Escape, about, Line::of(alloc, &message)?, hint))
}

/// The words of a row of the screen, counted from 0, that shows `u00` and two digits of base 16 where an escape was probably
/// meant. What the frame shows is written under this key, `rows` or `body`.
pub fn shown_escape_words(
    alloc: Global,
    id: FrameId,
    row: usize,
    shown: Field,
) -> Result<Words, AllocError>
    ensures { IfOk result (λ words. words ≡ shown_escape_words id row shown) }
{
    let mut message = Vec::new(alloc);
    push_shown_escape(&mut message, id, row)?;
    let hint = hint_of(
        alloc,
        &[Text("an escape is one \\, u and four digits, in double quotation marks")],
    )?;
    let about = About::key(alloc, Some(id), shown.name())?;
    Ok(Words::new(Code::Escape, about, Line::of(alloc, &message)?, hint))
}

/// The words of a row of the screen, counted from 0, that begins with a digit which has no route.
pub fn menu_words(alloc: Global, id: FrameId, row: usize, digit: u8) -> Result<Words, AllocError>
    ensures { IfOk result (λ words. words ≡ menu_words id row digit) }
{
    let digit = u64::from(digit);
    let mut message = Vec::new(alloc);
    push_menu(&mut message, id, row, digit)?;
    let hint = hint_of(
        alloc,
        &[
            Text("add route "),
            Number(digit),
            Text(", or begin the row with a word"),
        ],
    )?;
    let about = About::key(alloc, Some(id), "routes")?;
    Ok(Words::new(Code::Menu, about, Line::of(alloc, &message)?, hint))
}

/// The words of a frame of a group to which no way of any frame leads.
pub fn unsought_words(alloc: Global, id: FrameId, group: GroupNo) -> Result<Words, AllocError>
    ensures { IfOk result (λ words. words ≡ unsought_words id group) }
{
    let mut message = Vec::new(alloc);
    push_unsought(&mut message, id, group)?;
    let about = About::frame(Some(id));
    Ok(Words::new(Code::Unsought, about, Line::of(alloc, &message)?, None))
}
