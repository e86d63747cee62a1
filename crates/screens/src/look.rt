//! A cell's look.

ghost use Rattle.std.specs.Prelude.{◌≡◌};
ghost use Rattle.screens.specs.Table as table;
ghost use Rattle.screens.specs.Looks as spec;

use crate::mosaic::Mosaic;

/// The eight colours.
#[derive(Debug, Clone, Copy, PartialEq, Eq)]
pub enum Colour {
    /// 0.
    Black,
    /// 1.
    Red,
    /// 2.
    Green,
    /// 3.
    Yellow,
    /// 4.
    Blue,
    /// 5.
    Magenta,
    /// 6.
    Cyan,
    /// 7.
    White,
}

impl Colour {
    /// The colour of a number from 0 to 7, the last digit of an attribute; black of any other.
    pub fn of(number: u8) -> Colour
        ensures { result ≡ table.colour_of number }
    {
        match number {
            1 => Colour::Red,
            2 => Colour::Green,
            3 => Colour::Yellow,
            4 => Colour::Blue,
            5 => Colour::Magenta,
            6 => Colour::Cyan,
            7 => Colour::White,
            _ => Colour::Black,
        }
    }

    /// Its number, 0 to 7.
    pub fn number(self) -> u8
        ensures { result ≡ table.colour_number self }
    {
        match self {
            Colour::Black => 0,
            Colour::Red => 1,
            Colour::Green => 2,
            Colour::Yellow => 3,
            Colour::Blue => 4,
            Colour::Magenta => 5,
            Colour::Cyan => 6,
            Colour::White => 7,
        }
    }
}

/// What a cell holds.
#[derive(Debug, Clone, Copy, PartialEq, Eq)]
pub enum Glyph {
    /// A character; a blank cell holds a space.
    Char(char),
    /// A mosaic.
    Block(Mosaic),
}

impl Glyph {
    /// A mosaic, or a space if there is none.
    pub fn of(mosaic: Option<Mosaic>) -> Glyph
        ensures { result ≡ table.block mosaic }
    {
        match mosaic {
            Some(mosaic) => Glyph::Block(mosaic),
            None => Glyph::Char(' '),
        }
    }

    /// Whether it is a space.
    pub fn is_space(&self) -> bool
        ensures { result ≡ spec.is_space self.now }
    {
        match self {
            Glyph::Char(c) => *c == ' ',
            Glyph::Block(_) => false,
        }
    }
}

/// A cell of single height, or half of one of double height.
#[derive(Debug, Clone, Copy, PartialEq, Eq)]
pub enum Height {
    /// A whole cell.
    Single,
    /// The upper half.
    Upper,
    /// The lower half, in the row beneath.
    Lower,
}

/// How a cell looks.
#[derive(Debug, Clone, Copy, PartialEq, Eq)]
pub struct Look {
    /// What it holds.
    pub glyph: Glyph,
    /// The colour of what it holds.
    pub foreground: Colour,
    /// The colour around it.
    pub background: Colour,
    /// Whether what it holds flashes.
    pub flash: bool,
    /// Whether what it holds is concealed.
    pub concealed: bool,
    /// Which part of what it holds it shows.
    pub height: Height,
}

/// What one sees of a look.
#[derive(Debug, Clone, Copy, PartialEq, Eq)]
pub enum Shown {
    /// A background alone.
    Ground(Colour),
    /// All of the look.
    All(Look),
}

impl Look {
    /// A blank cell as a screen begins: a white space on black.
    pub const BLANK: Look = Look {
        glyph: Glyph::Char(' '),
        foreground: Colour::White,
        background: Colour::Black,
        flash: false,
        concealed: false,
        height: Height::Single,
    };

    /// What one sees of it: of a concealed or blank cell the background alone.
    pub fn shown(&self) -> Shown
        ensures { result ≡ spec.shown self.now }
    {
        if self.concealed || self.glyph.is_space() {
            Shown::Ground(self.background)
        } else {
            Shown::All(*self)
        }
    }

    /// Makes it the look of the cell beneath it in a covered row.
    pub fn go_below(&mut self)
        ensures { self.new ≡ spec.below self.old }
    {
        match self.height {
            Height::Upper => self.height = Height::Lower,
            _ => {
                self.glyph = Glyph::Char(' ');
                self.height = Height::Single;
            }
        }
    }
}
