ghost use Rattle.std.specs.Prelude.{◌≡◌, ◌++◌, OnOk};
ghost use Rattle.lint_words.specs.Pieces.{number_and_word, shown_by, pressed_words, group_text};
ghost use Rattle.lint_words.specs.Loops.{piece_text, pieces_text};

use crate::key_pieces::{push_item, push_key_name, push_out_of_range, push_subject};
use crate::pieces::{
    push_char, push_code, push_decimal, push_frame, push_grouped, push_numbered, push_quoted,
};
use base_text::Field;
use frame_records::GroupNo;
use page_ids::{FrameId, Key, PageNo, push_id, push_key, push_keys, push_page};
use std::alloc::AllocError;

// A piece of a finding's words.
#[derive(Debug, Clone, Copy)]
pub enum Piece<'a> {
    Text(&'a str),
    Page(PageNo),
    Id(FrameId),
    // A frame by its id, or `this frame`.
    Frame(Option<FrameId>),
    Number(u64),
    // A number with commas.
    Grouped(usize),
    // A number with commas, and a word in the singular and in the plural.
    Count(usize, &'a str, &'a str),
    // A text of the file.
    Quoted(&'a str),
    // A character of the file.
    Char(char),
    // Its code point alone.
    Code(char),
    // The keys that show a fault.
    ShownBy(&'a [Key]),
    // The key that is pressed.
    Pressed(Option<Key>),
    // The group to which a frame belongs.
    Group(Option<GroupNo>),
    // A key of the file in quotes.
    Key(Field),
    // A key of the top, or of a frame.
    Subject(Field, Option<FrameId>),
    // An item of the value of a key.
    Item(Field, usize, Option<FrameId>),
    // An integer, and the least or the most that is allowed.
    OutOfRange(Field, i64),
}

fn push_count(out: &mut Vec<u8>, number: usize, one: &str, more: &str) -> Result<(), AllocError>
    ensures { OnOk result (out.new.items ≡ out.old.items ++ number_and_word number one.now more.now) }
{
    push_grouped(out, number)?;
    out.extend_from_slice(b" ")?;
    let word = if number == 1 { one } else { more };
    out.extend_from_slice(word.as_bytes())
}

fn push_shown_by(out: &mut Vec<u8>, keys: &[Key]) -> Result<(), AllocError>
    ensures { OnOk result (out.new.items ≡ out.old.items ++ shown_by keys.now) }
{
    match keys {
        [] => out.extend_from_slice(b" (at the entry page)"),
        _ => {
            out.extend_from_slice(b" (keys ")?;
            push_keys(out, keys)?;
            out.extend_from_slice(b")")
        }
    }
}

fn push_pressed(out: &mut Vec<u8>, key: Option<Key>) -> Result<(), AllocError>
    ensures { OnOk result (out.new.items ≡ out.old.items ++ pressed_words key) }
{
    match key {
        None => out.extend_from_slice(b"a key"),
        Some(key) => {
            out.extend_from_slice(b"key ")?;
            push_key(out, key)
        }
    }
}

fn push_group(out: &mut Vec<u8>, group: Option<GroupNo>) -> Result<(), AllocError>
    ensures { OnOk result (out.new.items ≡ out.old.items ++ group_text group) }
{
    match group {
        None => Ok(()),
        Some(group) => push_numbered(out, b"; it belongs to group ", u64::from(group.get())),
    }
}

fn push_piece(out: &mut Vec<u8>, piece: &Piece<'_>) -> Result<(), AllocError>
    ensures { OnOk result (out.new.items ≡ out.old.items ++ piece_text piece.now) }
{
    match piece {
        Piece::Text(words) => out.extend_from_slice(words.as_bytes()),
        Piece::Page(page) => push_page(out, *page),
        Piece::Id(id) => push_id(out, *id),
        Piece::Frame(id) => push_frame(out, *id),
        Piece::Number(number) => push_decimal(out, *number),
        Piece::Grouped(number) => push_grouped(out, *number),
        Piece::Count(number, one, more) => push_count(out, *number, one, more),
        Piece::Quoted(text) => push_quoted(out, text),
        Piece::Char(c) => push_char(out, *c),
        Piece::Code(c) => push_code(out, *c),
        Piece::ShownBy(keys) => push_shown_by(out, keys),
        Piece::Pressed(key) => push_pressed(out, *key),
        Piece::Group(group) => push_group(out, *group),
        Piece::Key(field) => push_key_name(out, *field),
        Piece::Subject(field, id) => push_subject(out, *field, *id),
        Piece::Item(field, number, id) => push_item(out, *field, *number, *id),
        Piece::OutOfRange(field, number) => push_out_of_range(out, *field, *number),
    }
}

fn push_pieces(out: &mut Vec<u8>, pieces: &[Piece<'_>]) -> Result<(), AllocError>
    ensures { OnOk result (out.new.items ≡ out.old.items ++ pieces_text pieces.now) }
{
    match pieces {
        [] => Ok(()),
        [last] => push_piece(out, last),
        [first, rest @ ..] => {
            push_piece(out, first)?;
            push_pieces(out, rest)
        }
    }
}

// What takes words.
pub trait Wording {
    // Appends pieces, one after another.
    fn say(&mut self, pieces: &[Piece<'_>]) -> Result<(), AllocError>;
}

impl Wording for Vec<u8> {
    ghost use Rattle.std.specs.Prelude.{◌≡◌, ◌++◌, OnOk};
    ghost use Rattle.lint_words.specs.Loops.{pieces_text};

    fn say(&mut self, pieces: &[Piece<'_>]) -> Result<(), AllocError>
        ensures { OnOk result (self.new.items ≡ self.old.items ++ pieces_text pieces.now) }
    {
        push_pieces(self, pieces)
    }
}
