//! What one sees of a frame alone, on a cleared screen: escapes that are shown as they are written, and menus.

ghost use Rattle.std.specs.Prelude.{◌≡◌, ◌++◌, ◌<◌, [], true, IfOk, OnOk};
ghost use Rattle.lint.specs.Offers as spec;

use crate::looks::{Look, holds_escape};
use frame_records::Frame;
use page_ids::FrameId;
use screens::{Colour, Glyph, Height, Look as Cell, row_codes};
use std::alloc::{AllocError, Global};
use terminal_codes::{Caret, code_written};

// A row that begins with a single digit, and has more words.
#[derive(Debug, Clone, Copy)]
pub struct MenuLine {
    pub row: usize,
    // Where the digit is, and its colour.
    pub column: usize,
    pub digit: u8,
    pub colour: Colour,
}

// Whether a position is in a row and a column.
fn is_place(at: u16, row: usize, column: usize) -> bool
    ensures { result ≡ spec.is_place at row column }
{
    let at = usize::from(at);
    at / 40 == row && at % 40 == column
}

// The index of the last byte of a body that writes a code in a row and a column.
fn writer_at(body: &[u8], row: usize, column: usize) -> Option<usize>
    ensures { result ≡ spec.writer_at body.now row column }
{
    let mut caret = Caret {
        at: 40,
        pending: false,
    };
    let mut last = None;
    for (index, byte) in body.iter().enumerate() {
        if is_place(caret.at, row, column) && code_written(caret.pending, *byte).is_some() {
            last = Some(index);
        }
        caret = caret.step(*byte);
    }
    last
}

fn holds_block(glyph: &Glyph) -> bool
    ensures { result ≡ spec.holds_block glyph.now }
{
    match glyph {
        Glyph::Char(_) => false,
        Glyph::Block(_) => true,
    }
}

// Whether it is a mosaic that isn't concealed.
fn shows_block(cell: &Cell) -> bool
    ensures { result ≡ spec.shows_block cell.now }
{
    !cell.concealed && holds_block(&cell.glyph)
}

fn is_lower(height: Height) -> bool
    ensures { result ≡ spec.is_lower height }
{
    match height {
        Height::Single | Height::Upper => false,
        Height::Lower => true,
    }
}

// Whether what it holds isn't seen, or only the lower half of it.
fn is_unread(cell: &Cell) -> bool
    ensures { result ≡ spec.is_unread cell.now }
{
    cell.concealed || is_lower(cell.height)
}

// The character of what a cell holds.
fn read_glyph(glyph: &Glyph) -> char
    ensures { result ≡ spec.read_glyph glyph.now }
{
    match glyph {
        Glyph::Char(c) => *c,
        Glyph::Block(_) => ' ',
    }
}

// The character that one sees: a space, if it is concealed or covered, or a mosaic.
fn read_char(cell: &Cell) -> char
    ensures { result ≡ spec.read_char cell.now }
{
    if is_unread(cell) {
        ' '
    } else {
        read_glyph(&cell.glyph)
    }
}

fn is_gap(cell: &Cell) -> bool
    ensures { result ≡ spec.is_gap_cell cell.now }
{
    read_char(cell) == ' '
}

// The column of the first of the last cells of a row.
fn column_of(cells: &[Cell]) -> usize
    ensures { result ≡ spec.column_of cells.now }
{
    40usize.saturating_sub(cells.len())
}

// Whether cells begin with u00 and two digits of base 16.
fn begins_shown(cells: &[Cell]) -> bool
    ensures { result ≡ spec.begins_shown cells.now }
{
    match cells {
        [a, b, c, d, e, ..] => {
            read_char(a) == 'u'
                && read_char(b) == '0'
                && read_char(c) == '0'
                && read_char(d).is_ascii_hexdigit()
                && read_char(e).is_ascii_hexdigit()
        }
        _ => false,
    }
}

// Whether an escape may come after it. The code of a backslash is shown as one half.
fn may_open(c: char) -> bool
    ensures { result ≡ spec.may_open c }
{
    c == '½' || c == '/' || c == '"' || c == '\''
}

// The column of the first escape that cells show; one may come first of them, or not.
fn shown_column(may: bool, cells: &[Cell]) -> Option<usize>
    ensures { result ≡ spec.shown_column may cells.now }
{
    match cells {
        [] => None,
        [first, rest @ ..] => {
            if may && begins_shown(cells) {
                Some(column_of(cells))
            } else {
                shown_column(may_open(read_char(first)), rest)
            }
        }
    }
}

fn add_shown(
    frame: &Frame,
    cells: &[u8; 960],
    row: usize,
    column: Option<usize>,
    looks: &mut Vec<(FrameId, Look)>,
) -> Result<(), AllocError>
    requires { row < 24 }
    ensures { OnOk result (looks.new.items ≡ looks.old.items ++ spec.shown_look frame.now cells.now row column) }
{
    if let Some(column) = column {
        let at = writer_at(frame.body.as_slice(), row, column);
        let escaped = holds_escape(row_codes(cells, row));
        looks.push((frame.id, Look::Shown(row, at, escaped)))?;
    }
    Ok(())
}

// The rows that show an escape, each with the frame.
pub(crate) fn shown(
    alloc: Global,
    frame: &Frame,
    cells: &[u8; 960],
    rows: &[[Cell; 40]; 24],
) -> Result<Vec<(FrameId, Look)>, AllocError>
    ensures { IfOk result (λ looks. looks.items ≡ spec.shown_from frame.now cells.now [] 0 rows.now) }
{
    let mut looks = Vec::new(alloc);
    for (row, shown) in rows.iter().enumerate() {
        add_shown(frame, cells, row, shown_column(true, shown), &mut looks)?;
    }
    Ok(looks)
}

fn char_digit(c: char) -> Option<u8>
    ensures { result ≡ spec.char_digit c }
{
    match c {
        '0' => Some(0),
        '1' => Some(1),
        '2' => Some(2),
        '3' => Some(3),
        '4' => Some(4),
        '5' => Some(5),
        '6' => Some(6),
        '7' => Some(7),
        '8' => Some(8),
        '9' => Some(9),
        _ => None,
    }
}

// The line of a digit, if it is the first word and others come after it.
fn menu_if(
    row: usize,
    column: usize,
    colour: Colour,
    is_first: bool,
    digit: Option<u8>,
) -> Option<MenuLine>
    ensures { result ≡ spec.menu_if row column colour is_first digit }
{
    match digit {
        None => None,
        Some(digit) => {
            if is_first {
                Some(MenuLine {
                    row,
                    column,
                    digit,
                    colour,
                })
            } else {
                None
            }
        }
    }
}

fn has_words(cells: &[Cell]) -> bool
    ensures { result ≡ spec.has_words cells.now }
{
    cells.iter().any(|cell| !is_gap(cell))
}

// The line of a row whose first word begins with a cell.
fn menu_here(row: usize, column: usize, first: &Cell, rest: &[Cell]) -> Option<MenuLine>
    ensures { result ≡ spec.menu_here row column first.now rest.now }
{
    match rest {
        [] => None,
        [gap, more @ ..] => {
            let is_first = is_gap(gap) && has_words(more);
            menu_if(
                row,
                column,
                first.foreground,
                is_first,
                char_digit(read_char(first)),
            )
        }
    }
}

fn menu_after(row: usize, cells: &[Cell]) -> Option<MenuLine>
    ensures { result ≡ spec.menu_after row cells.now }
{
    match cells {
        [] => None,
        [first, rest @ ..] => {
            if is_gap(first) {
                menu_after(row, rest)
            } else {
                menu_here(row, column_of(cells), first, rest)
            }
        }
    }
}

fn has_blocks(cells: &[Cell]) -> bool
    ensures { result ≡ spec.has_blocks cells.now }
{
    cells.iter().any(|cell| shows_block(cell))
}

// The line of a row between the service rows, without mosaics.
fn menu_line(row: usize, cells: &[Cell]) -> Option<MenuLine>
    ensures { result ≡ spec.menu_line row cells.now }
{
    if row >= 1 && row <= 22 && !has_blocks(cells) {
        menu_after(row, cells)
    } else {
        None
    }
}

fn add_line(line: Option<MenuLine>, menu: &mut Vec<MenuLine>) -> Result<(), AllocError>
    ensures { OnOk result (menu.new.items ≡ menu.old.items ++ spec.listed_line line) }
{
    if let Some(line) = line {
        menu.push(line)?;
    }
    Ok(())
}

pub(crate) fn menu_of(alloc: Global, rows: &[[Cell; 40]; 24]) -> Result<Vec<MenuLine>, AllocError>
    ensures { IfOk result (λ menu. menu.items ≡ spec.menu_of rows.now) }
{
    let mut menu = Vec::new(alloc);
    for (row, cells) in rows.iter().enumerate() {
        add_line(menu_line(row, cells), &mut menu)?;
    }
    Ok(menu)
}

pub(crate) fn has_route(frame: &Frame, digit: u8) -> bool
    ensures { result ≡ spec.has_route frame.now digit }
{
    digit < 10 && frame.routes[digit as usize].is_some()
}

// Whether the digit of another line has a route, and looks as this one's does.
fn is_peer(frame: &Frame, line: &MenuLine, other: &MenuLine) -> bool
    ensures { result ≡ spec.is_peer frame.now line.now other.now }
{
    has_route(frame, other.digit)
        && line.column == other.column
        && line.colour.number() == other.colour.number()
}

fn lacks_route(frame: &Frame, menu: &[MenuLine], line: &MenuLine) -> bool
    ensures { result ≡ spec.lacks_route frame.now menu.now line.now }
{
    !has_route(frame, line.digit)
        && menu
            .iter()
            .filter(|other| is_peer(frame, line, other))
            .count()
            >= 2
}

fn add_offer(
    frame: &Frame,
    menu: &[MenuLine],
    line: &MenuLine,
    looks: &mut Vec<(FrameId, Look)>,
) -> Result<(), AllocError>
    ensures { OnOk result (looks.new.items ≡ looks.old.items ++ spec.offers_if frame.now menu.now line.now) }
{
    if lacks_route(frame, menu, line) {
        let at = writer_at(frame.body.as_slice(), line.row, line.column);
        looks.push((frame.id, Look::Offers(line.row, at, line.digit)))?;
    }
    Ok(())
}

// Appends the lines of a menu that lack a route.
pub(crate) fn add_offers(
    frame: &Frame,
    menu: &[MenuLine],
    looks: &mut Vec<(FrameId, Look)>,
) -> Result<(), AllocError>
    ensures { OnOk result (looks.new.items ≡ spec.offers_from frame.now menu.now looks.old.items menu.now) }
{
    for line in menu {
        add_offer(frame, menu, line, looks)?;
    }
    Ok(())
}
