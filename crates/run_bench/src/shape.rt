//! Texts of safe bases. Each frame is on a page of its own.

use crate::size::Size;
use base_text::MOST_TEXT;
use itoa::Buffer;
use std::alloc::{AllocError, Global};

// The page of the first frame, which is the entry frame.
const FIRST_PAGE: u32 = 100_000;

/// How many frames have a row that is too long, if there are some: the first ones.
pub const LONG_ROWS: u32 = 20_000;

/// How the frames of a base hang together, and what they show.
#[derive(Debug, Clone, Copy, PartialEq, Eq)]
pub enum Shape {
    /// Nine routes down to frames of their own and one back up, over three rows of the screen.
    Tree,
    /// Nine routes to scattered frames and one back to the entry page, over a short body.
    Scattered,
    /// One route on to the next frame, the last back to the first: ranks run to the number of frames less one.
    Chain,
    /// One route on and one back to the entry page, over a body of 4,096 bytes.
    Bodies,
}

/// What frames have beside their routes and what they show.
#[derive(Debug, Clone, Copy, PartialEq, Eq)]
pub enum Mark {
    /// Nothing.
    None,
    /// A price of 1 to 16 pence.
    Price,
    /// One of the groups 1 to 16.
    Group,
    /// The frames of [`LONG_ROWS`], a row of 41 characters in place of what they show.
    LongRow,
}

impl Mark {
    fn push(self, text: &mut Vec<u8>, number: u32) -> Result<(), AllocError> {
        let word: &[u8] = match self {
            Mark::None | Mark::LongRow => return Ok(()),
            Mark::Price => b"price = ",
            Mark::Group => b"group = ",
        };
        text.extend_from_slice(word)?;
        push_number(text, (number % 16).wrapping_add(1))?;
        text.push(b'\n')?;
        Ok(())
    }
}

impl Shape {
    /// Its name in what is printed.
    pub fn name(self) -> &'static str {
        match self {
            Shape::Tree => "tree of rows",
            Shape::Scattered => "ten scattered routes",
            Shape::Chain => "chain",
            Shape::Bodies => "bodies of 4096 bytes",
        }
    }

    /// The most frames that a base of this shape has.
    pub fn most(self) -> u32 {
        match self {
            Shape::Bodies => 3_900,
            _ => 65_535,
        }
    }

    // The frame to which a digit leads, of this many.
    fn target(self, frames: u32, number: u32, digit: u32) -> Option<u32> {
        let frames = frames.max(1);
        let next = number.wrapping_add(1) % frames;
        match (self, digit) {
            (Shape::Tree, 0) => Some(number.saturating_sub(1) / 9),
            (Shape::Tree, _) => {
                Some(number.wrapping_mul(9).wrapping_add(digit)).filter(|target| *target < frames)
            }
            (Shape::Scattered, 0) => Some(0),
            (Shape::Scattered, _) => {
                let place = number.wrapping_mul(10).wrapping_add(digit) % frames;
                Some(place.wrapping_mul(40_507) % frames)
            }
            (Shape::Chain, 1) => Some(next),
            (Shape::Bodies, 0) => Some(0),
            (Shape::Bodies, 1) => Some(next),
            (Shape::Chain | Shape::Bodies, _) => None,
        }
    }

    // The line of what a frame shows.
    fn push_shown(self, text: &mut Vec<u8>) -> Result<(), AllocError> {
        match self {
            Shape::Tree => push_rows(text),
            Shape::Scattered => text.extend_from_slice(b"body = \"SCATTERED\"\n"),
            Shape::Chain => push_body(text, 150),
            Shape::Bodies => push_long_body(text),
        }
    }

    // A frame.
    fn push_frame(
        self,
        text: &mut Vec<u8>,
        frames: u32,
        number: u32,
        mark: Mark,
    ) -> Result<(), AllocError> {
        text.extend_from_slice(b"[[frame]]\nid = \"")?;
        push_number(text, FIRST_PAGE.wrapping_add(number))?;
        text.extend_from_slice(b"a\"\n")?;
        mark.push(text, number)?;
        text.extend_from_slice(b"routes = {")?;
        let mut lead = b" ".as_slice();
        for digit in 0..10u32 {
            if let Some(target) = self.target(frames, number, digit) {
                text.extend_from_slice(lead)?;
                push_number(text, digit)?;
                text.extend_from_slice(b" = ")?;
                push_number(text, FIRST_PAGE.wrapping_add(target))?;
                lead = b", ";
            }
        }
        text.extend_from_slice(b" }\n")?;
        match mark {
            Mark::LongRow if number < LONG_ROWS => push_long_row(text),
            _ => self.push_shown(text),
        }
    }

    /// The text of a base with this many frames, each with a mark.
    pub fn text(self, alloc: Global, frames: u32, mark: Mark) -> Result<Vec<u8>, AllocError> {
        let mut text = Vec::new(alloc);
        text.extend_from_slice(b"entry = 100000\n")?;
        for number in 0..frames {
            self.push_frame(&mut text, frames, number, mark)?;
        }
        Ok(text)
    }

    /// The text of a base of a size whose frames have a mark; that of full size is filled up by a comment.
    pub fn text_of(self, alloc: Global, size: Size, mark: Mark) -> Result<Vec<u8>, AllocError> {
        let mut text = self.text(alloc, size.of(self.most()), mark)?;
        if size == Size::Full {
            text.resize(MOST_TEXT, b'#')?;
        }
        Ok(text)
    }
}

fn push_number(text: &mut Vec<u8>, number: u32) -> Result<(), AllocError> {
    let mut buffer = Buffer::new();
    text.extend_from_slice(buffer.format(number).as_bytes())
}

fn push_body(text: &mut Vec<u8>, letters: usize) -> Result<(), AllocError> {
    text.extend_from_slice(b"body = \"")?;
    for _ in 0..letters {
        text.push(b'x')?;
    }
    text.extend_from_slice(b"\"\n")
}

// A body of 4,096 bytes: 102 times 39 letters and the way back to the start of their row, then 16 letters.
fn push_long_body(text: &mut Vec<u8>) -> Result<(), AllocError> {
    text.extend_from_slice(b"body = \"")?;
    for _ in 0..102u32 {
        text.extend_from_slice(&[b'x'; 39])?;
        text.extend_from_slice(b"\\r")?;
    }
    text.extend_from_slice(&[b'x'; 16])?;
    text.extend_from_slice(b"\"\n")
}

fn push_rows(text: &mut Vec<u8>) -> Result<(), AllocError> {
    text.extend_from_slice(b"rows = [\"WELCOME TO THE PAGE OF THIS NUMBER\", \"\", \"ITS ROWS\"]\n")
}

fn push_long_row(text: &mut Vec<u8>) -> Result<(), AllocError> {
    text.extend_from_slice(
        b"rows = [\"WELCOME TO THE PAGE OF THIS NUMBER AGAIN!\", \"\", \"ITS ROWS\"]\n",
    )
}
