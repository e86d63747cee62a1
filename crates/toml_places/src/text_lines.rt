//! Offsets as lines and columns.

ghost use Rattle.std.specs.Prelude.{◌≡◌, ◌+◌, ◌^◌, ◌<◌, ◌≤◌, IfOk, length};
ghost use Rattle.toml_places.specs.Skips as spec;
ghost use Rattle.toml_places.specs.Extents as extents;

use crate::spans::Span;
use crate::strings::starts_char;
use std::alloc::{AllocError, Global};
use std::marker::Model;
use toml_parser::bytes::byte_at;

// From one place that is kept to the next, in bytes.
const STEP: usize = 512;

/// The lines and columns of a text's offsets. Contracts see the text.
///
/// It keeps the place of each 512th byte, so a look-up reads at most 512 bytes.
#[derive(Drop)]
pub struct TextLines<'a> {
    text: &'a [u8],
    places: Vec<(usize, usize)>,
}

/// A span in lines and columns.
#[derive(Debug, Clone, Copy, PartialEq, Eq)]
pub struct Extent {
    pub line: usize,
    pub column: usize,
    pub end_line: usize,
    pub end_column: usize,
}

impl<'a> Model for TextLines<'a> {
    ghost use Rattle.std.specs.Prelude.{List, ℕ};
    ghost use Rattle.toml_places.specs.Skips.{ArePlaces};

    ghost Value = { List ℕ };

    ghost view = { λ l. l.text.now };

    ghost invariant = { λ l. ArePlaces l.text.now l.places.items };
}

/// Whether a text begins with a byte order mark, of three bytes.
pub fn is_marked(text: &[u8]) -> bool
    ensures { result ≡ extents.is_marked text.now }
{
    byte_at(text, 0) == 0xEF && byte_at(text, 1) == 0xBB && byte_at(text, 2) == 0xBF
}

// The line and the column of `to`, from those of `from`.
fn place_from(text: &[u8], from: usize, to: usize, place: (usize, usize)) -> (usize, usize)
    requires ascends { from ≤ to }
    requires within { to ≤ length text.now }
    requires place { place ≡ spec.place_at text.now from }
    ensures { result ≡ spec.place_at text.now to }
{
    let (mut line, mut column) = place;
    for i in from..to {
        let byte = text[i];
        if byte == b'\n' {
            line += 1;
            column = 1;
        } else if starts_char(byte) {
            column += 1;
        }
    }
    (line, column)
}

/// The line and the column of one offset, as [`TextLines::place`] gives them. All of the text before it is read.
pub fn place_in(text: &[u8], offset: usize) -> (usize, usize)
    ensures { result ≡ spec.place_at text.now offset }
{
    place_from(text, 0, offset.min(text.len()), (1, 1))
}

// The place of each step of a text.
fn places_of(alloc: Global, text: &[u8]) -> Result<Vec<(usize, usize)>, AllocError>
    ensures { IfOk result (λ places. spec.ArePlaces text.now places.items) }
{
    let mut places = Vec::new(alloc);
    let mut place = (1, 1);
    places.push(place)?;
    for step in 0..text.len() / STEP {
        place = place_from(text, step * STEP, (step + 1) * STEP, place);
        places.push(place)?;
    }
    Ok(places)
}

impl<'a> TextLines<'a> {
    pub fn of(alloc: Global, text: &'a [u8]) -> Result<TextLines<'a>, AllocError>
        ensures { IfOk result (λ lines. lines ≡ text.now) }
    {
        let places = places_of(alloc, text)?;
        Ok(TextLines { text, places })
    }

    /// The line and the column of an offset, both from 1. A column counts characters. An offset past the end has the place of
    /// the end.
    pub fn place(&self, offset: usize) -> (usize, usize)
        ensures value { result ≡ spec.place_at self.now offset }
        ensures small { result.1 + 1 < 2 ^ 64 }
    {
        let end = offset.min(self.text.len());
        let step = end / STEP;
        place_from(self.text, step * STEP, end, self.places[step])
    }

    // A place without the byte order mark.
    fn unmarked(&self, place: (usize, usize)) -> (usize, usize)
        ensures { result ≡ extents.unmarked self.now place }
    {
        let (line, column) = place;
        if line == 1 && column > 1 && is_marked(self.text) {
            (line, column - 1)
        } else {
            (line, column)
        }
    }

    // The place after the character that ends before an offset.
    fn place_after(&self, end: usize) -> (usize, usize)
        requires { 0 < end }
        ensures value { result ≡ extents.place_after self.now end }
    {
        let (line, column) = self.place(end - 1);
        if starts_char(byte_at(self.text, end - 1)) {
            (line, column + 1)
        } else {
            (line, column)
        }
    }

    fn end_place(&self, span: Span) -> (usize, usize)
        ensures { result ≡ extents.end_place self.now span }
    {
        let (line, column) = self.place(span.begin);
        if span.end <= span.begin {
            return (line, column);
        }
        let (end_line, end_column) = self.place_after(span.end);
        if end_line == line && end_column <= column {
            (line, column + 1)
        } else {
            (end_line, end_column)
        }
    }

    /// A span in lines and columns, all from 1. A column counts characters; a byte order mark isn't counted, and a byte that
    /// isn't UTF-8 is a character. The span ends at the column after its last character, on that character's line, also if that
    /// is a line end. An empty span ends where it begins.
    pub fn extent(&self, span: Span) -> Extent
        ensures { result ≡ extents.extent self.now span }
    {
        let (line, column) = self.unmarked(self.place(span.begin));
        let (end_line, end_column) = self.unmarked(self.end_place(span));
        Extent {
            line,
            column,
            end_line,
            end_column,
        }
    }
}
