//! Screens as TTI has them: a sheet of lines.

ghost use Rattle.std.specs.Prelude.{◌≡◌, ◌≤◌, ◌<◌, Ok, IfSome, OnOk, drop, length, true};
ghost use Rattle.std.specs.List.{list_all};
ghost use Rattle.page_ids.specs.Parts.{parts_of};
ghost use Rattle.screen_forms.specs.Sheets as spec;
ghost use Rattle.screen_forms.specs.TextScreens.{AreTextScreens};
ghost use Rattle.screen_forms.specs.Loops as loops;
ghost use Rattle.screen_forms.specs.declared.text_screens.TextScreensFault.TheVariants.{Line};

use crate::bits::stored_code;
use crate::text_screens::{
    FaultyLine, TextLineFault, TextScreen, TextScreensFault, after_byte_mark,
};
use crate::words::number_id;
use page_ids::{FrameId, cut};
use std::alloc::{AllocError, Global};

/// The most pages that a text may have.
pub const MOST_SHEET_PAGES: usize = 65_535;

// Whether a text begins with an attribute: 1B and one of 40 to 5F.
fn is_escape(text: &[u8]) -> bool
    ensures value { result ≡ spec.is_escape text.now }
    ensures long { result ≡ true → 2 ≤ length text.now }
{
    text.len() >= 2 && text[0] == 0x1B && text[1] >= 0x40 && text[1] <= 0x5F
}

fn sheet_code(byte: u8) -> u8
    ensures { result ≡ spec.sheet_code byte }
{
    if byte == 0x10 {
        0x8D
    } else {
        stored_code(byte)
    }
}

// The first cell of a text: a space if there is none.
fn first_cell(text: &[u8]) -> u8
    ensures { result ≡ spec.first_cell text.now }
{
    if text.is_empty() {
        b' '
    } else if is_escape(text) {
        text[1] + 0x40
    } else {
        sheet_code(text[0])
    }
}

// The text after its first cell.
fn after_cell(text: &[u8]) -> &[u8]
    ensures { result.now ≡ spec.after_cell text.now }
{
    if is_escape(text) {
        &text[2..]
    } else if text.is_empty() {
        text
    } else {
        &text[1..]
    }
}

// Fills a row with the first cells of a text.
fn fill_row(row: &mut [u8], text: &[u8])
    ensures { row.new ≡ spec.sheet_cells (length row.old) text.now }
{
    let mut left = text;
    for at in 0..row.len() {
        row[at] = first_cell(left);
        left = after_cell(left);
    }
}

// The cells of a row.
fn sheet_row(text: &[u8]) -> [u8; 40]
    ensures { result ≡ spec.sheet_cells 40 text.now }
{
    let mut row = [b' '; 40];
    fill_row(&mut row, text);
    row
}

// Puts the cells of a row into its place.
fn place_row(codes: &mut [u8; 960], number: usize, text: &[u8])
    requires { number < 24 }
    ensures { codes.new ≡ spec.row_placed codes.old number text.now }
{
    codes[40 * number..40 * number + 40].copy_from_slice(&sheet_row(text));
}

// The text from the first byte on that is no space.
#[tactic(auto, unfolding(crate::specs::Sheets::after_spaces))]
fn after_spaces(text: &[u8]) -> &[u8]
    ensures { result.now ≡ spec.after_spaces text.now }
{
    let mut left = text;
    while let Some((byte, rest)) = left.split_first() {
        if *byte != b' ' {
            return left;
        }
        left = rest;
    }
    left
}

fn are_spaces(text: &[u8]) -> bool
    ensures { result ≡ list_all spec.is_blank_byte text.now }
{
    text.iter().all(|byte| *byte == b' ')
}

fn digit_of(byte: u8) -> Option<usize>
    ensures value { result ≡ spec.digit_of byte }
    ensures small { IfSome result (λ digit. digit < 10) }
{
    if byte.is_ascii_digit() {
        Some(usize::from(byte - b'0'))
    } else {
        None
    }
}

// The number of one or two digits.
fn digits_number(text: &[u8]) -> Option<usize>
    ensures { result ≡ spec.digits_number text.now }
{
    match text.len() {
        1 => digit_of(text[0]),
        2 => Some(digit_of(text[0])? * 10 + digit_of(text[1])?),
        _ => None,
    }
}

// Where a byte first is in a text, or its end.
#[tactic(auto, using(crate::proofs::Pages::byte_here, crate::proofs::Pages::byte_later, crate::proofs::Pages::byte_none))]
fn first_place(text: &[u8], byte: u8) -> usize
    ensures value { result ≡ spec.byte_from byte 0 text.now }
    ensures within { result ≤ length text.now }
{
    for at in 0..text.len() {
        if text[at] == byte {
            return at;
        }
    }
    text.len()
}

fn before_first_byte(text: &[u8], byte: u8) -> &[u8]
    ensures { result.now ≡ spec.before_first_byte byte text.now }
{
    &text[..first_place(text, byte)]
}

// A text from a place on; none is after its end.
#[tactic(auto, using(std::proofs::lemmas::List::drop_all))]
fn text_from(text: &[u8], at: usize) -> &[u8]
    ensures { result.now ≡ drop at text.now }
{
    if at < text.len() { &text[at..] } else { &[] }
}

fn after_first_byte(text: &[u8], byte: u8) -> &[u8]
    ensures { result.now ≡ spec.after_first_byte byte text.now }
{
    text_from(text, first_place(text, byte) + 1)
}

// The number that is all of a text but for the spaces at its end.
fn number_alone(text: &[u8]) -> Option<usize>
    ensures { result ≡ spec.number_alone text.now }
{
    if are_spaces(after_first_byte(text, b' ')) {
        digits_number(before_first_byte(text, b' '))
    } else {
        None
    }
}

// The number of a row, with spaces around it or none.
fn row_number(text: &[u8]) -> Option<usize>
    ensures { result ≡ spec.row_number text.now }
{
    number_alone(after_spaces(text))
}

// A line without the 0D at its end.
fn without_return(text: &[u8]) -> &[u8]
    ensures { result.now ≡ spec.without_return text.now }
{
    match text.split_last() {
        Some((b'\r', rest)) => rest,
        _ => text,
    }
}

// Whether a line begins a page.
fn is_page_line(text: &[u8]) -> bool
    ensures value { result ≡ spec.is_page_line text.now }
    ensures long { result ≡ true → 3 ≤ length text.now }
{
    text.len() >= 3 && text[0] == b'P' && text[1] == b'N' && text[2] == b','
}

// Whether a line is a row.
fn is_row_line(text: &[u8]) -> bool
    ensures value { result ≡ spec.is_row_line text.now }
    ensures long { result ≡ true → 3 ≤ length text.now }
{
    text.len() >= 3 && text[0] == b'O' && text[1] == b'L' && text[2] == b','
}

fn is_sheet_line(text: &[u8]) -> bool
    ensures { result ≡ spec.is_sheet_line text.now }
{
    is_page_line(text) || is_row_line(text)
}

/// Whether a text is TTI: a line of it begins `PN,` or `OL,`.
pub fn is_sheet(text: &[u8]) -> bool
    ensures { result ≡ spec.is_sheet text.now }
{
    let mut left = after_byte_mark(text);
    while let Some((line, rest)) = cut(left, b'\n') {
        if is_sheet_line(line) {
            return true;
        }
        left = rest;
    }
    is_sheet_line(left)
}

// The pages before the last one, and the last one so far, if a page has begun.
#[derive(Drop)]
struct SheetReader {
    done: Vec<TextScreen>,
    page: TextScreen,
    begun: bool,
}

fn fault_in(line: usize, fault: TextLineFault) -> TextScreensFault
    ensures { result ≡ Line (record { line = line; fault = fault }) }
{
    TextScreensFault::Line(FaultyLine { line, fault })
}

fn blank_page(line: usize, number: Option<FrameId>) -> TextScreen
    ensures { result ≡ spec.blank_page line number }
{
    TextScreen {
        line,
        beside: None,
        number,
        codes: [b' '; 960],
    }
}

impl SheetReader {
    fn new(alloc: Global) -> SheetReader
        ensures { loops.sheet_of result ≡ spec.no_page }
    {
        SheetReader {
            done: Vec::new(alloc),
            page: blank_page(0, None),
            begun: false,
        }
    }

    // Adds the page so far to those before it.
    fn close(&mut self) -> Result<(), AllocError>
        ensures { OnOk result (self.new.done.items ≡ spec.pages_so_far (loops.sheet_of self.old)) }
    {
        if self.begun {
            self.done.extend_from_slice(&[self.page])?;
        }
        Ok(())
    }

    // Begins a page.
    fn begin(&mut self, line: usize, number: Option<FrameId>) -> Result<(), TextScreensFault>
        ensures { loops.IsSheetRead (spec.in_line line (spec.then_page (loops.sheet_of self.old) line number))
            self.new result }
    {
        self.close()?;
        if self.done.len() >= MOST_SHEET_PAGES {
            return Err(fault_in(line, TextLineFault::Pages));
        }
        self.page = blank_page(line, number);
        self.begun = true;
        Ok(())
    }

    // Begins a page without a number, if none has begun.
    fn begin_first(&mut self, line: usize)
        ensures { loops.sheet_of self.new ≡ spec.with_page (loops.sheet_of self.old) line }
    {
        if !self.begun {
            self.page = blank_page(line, None);
            self.begun = true;
        }
    }

    // Puts a row into the page so far, unless it is above 23.
    fn put_row(&mut self, number: usize, text: &[u8])
        ensures { loops.sheet_of self.new ≡ spec.with_row (loops.sheet_of self.old) number text.now }
    {
        if number < 24 {
            place_row(&mut self.page.codes, number, text);
        }
    }

    // Adds a row to the page so far.
    fn add_row(&mut self, line: usize, rest: &[u8]) -> Result<(), TextScreensFault>
        ensures { loops.IsSheetRead (spec.in_line line (spec.row_added (loops.sheet_of self.old) rest.now))
            self.new result }
    {
        match row_number(before_first_byte(rest, b',')) {
            Some(number) => self.put_row(number, after_first_byte(rest, b',')),
            None => return Err(fault_in(line, TextLineFault::Row)),
        }
        Ok(())
    }

    fn add_line(&mut self, line: usize, text: &[u8]) -> Result<(), TextScreensFault>
        ensures { loops.IsSheetRead (spec.in_line line (spec.line_added (loops.sheet_of self.old) line text.now))
            self.new result }
    {
        if is_page_line(text) {
            return self.begin(line, number_id(text_from(text, 3)));
        }
        if !is_row_line(text) {
            return Ok(());
        }
        self.begin_first(line);
        self.add_row(line, text_from(text, 3))
    }

    // Adds the lines of a text.
    fn add_lines(&mut self, text: &[u8]) -> Result<(), TextScreensFault>
        ensures { loops.IsSheetRead (spec.then_lines (Ok (loops.sheet_of self.old)) 1 (parts_of 10 text.now)) self.new
            result }
    {
        let mut line = 1;
        let mut left = text;
        while let Some((text, rest)) = cut(left, b'\n') {
            self.add_line(line, without_return(text))?;
            line += 1;
            left = rest;
        }
        self.add_line(line, left)
    }
}

/// The screens of the pages of a text of the form TTI, as teletext editors write it. `PN,mppss` begins a page: with three digits of the page
/// and two of the subpage or none, it has an id. `OL,n,text` is its row n, of which the last counts; one before the first page begins a
/// page without a number. Rows above 23 and other lines don't count, and cells that are absent are spaces.
///
/// A fault is that of the first line at fault.
pub fn sheet_screens(alloc: Global, text: &[u8]) -> Result<Vec<TextScreen>, TextScreensFault>
    ensures { AreTextScreens (spec.sheet_screens text.now) result }
{
    let mut sheet = SheetReader::new(alloc);
    sheet.add_lines(after_byte_mark(text))?;
    sheet.close()?;
    Ok(sheet.done)
}
