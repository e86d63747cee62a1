//! What is drawn of cells, layer by layer.

ghost use Rattle.std.specs.Prelude.{◌≡◌};
ghost use Rattle.screens.specs.declared.layer.Layer.TheVariants.{Mosaics, Letters};
ghost use Rattle.screens.specs.Svg as spec;

use crate::look::{Colour, Glyph, Height, Look};

/// A layer of a picture; each is over the one before.
#[derive(Debug, Clone, Copy, PartialEq, Eq)]
pub enum Layer {
    Grounds,
    Mosaics,
    Letters,
}

/// In what a layer draws a cell.
#[derive(Debug, Clone, Copy, PartialEq, Eq)]
pub struct Ink {
    pub colour: Colour,
    pub flash: bool,
    // Whether letters are upper halves.
    pub tall: bool,
}

fn letter_ink(look: &Look) -> Option<Ink>
    ensures { result ≡ spec.ink_of Letters look.now }
{
    match (&look.glyph, look.height) {
        (Glyph::Block(_), _) | (_, Height::Lower) => None,
        (Glyph::Char(c), height) => {
            if look.concealed || *c == ' ' {
                None
            } else {
                Some(Ink {
                    colour: look.foreground,
                    flash: look.flash,
                    tall: height == Height::Upper,
                })
            }
        }
    }
}

fn mosaic_ink(look: &Look) -> Option<Ink>
    ensures { result ≡ spec.ink_of Mosaics look.now }
{
    match &look.glyph {
        Glyph::Char(_) => None,
        Glyph::Block(_) => {
            if look.concealed {
                None
            } else {
                Some(Ink {
                    colour: look.foreground,
                    flash: look.flash,
                    tall: false,
                })
            }
        }
    }
}

fn ground_ink(colour: Colour) -> Option<Ink>
    ensures { result ≡ spec.ground_ink colour }
{
    match colour {
        Colour::Black => None,
        _ => Some(Ink {
            colour,
            flash: false,
            tall: false,
        }),
    }
}

impl Layer {
    // In what it draws a cell, if it does.
    pub fn ink(self, look: &Look) -> Option<Ink>
        ensures { result ≡ spec.ink_of self look.now }
    {
        match self {
            Layer::Grounds => ground_ink(look.background),
            Layer::Mosaics => mosaic_ink(look),
            Layer::Letters => letter_ink(look),
        }
    }

    // In what it draws a run of cells: that of the first.
    pub fn first_ink(self, cells: &[Look]) -> Option<Ink>
        ensures { result ≡ spec.first_ink self cells.now }
    {
        match cells {
            [] => None,
            [first, ..] => self.ink(first),
        }
    }
}

// Whether two cells are drawn in one ink, or both not at all.
pub fn same_ink(a: Option<Ink>, b: Option<Ink>) -> bool
    ensures { result ≡ spec.same_ink a b }
{
    match (a, b) {
        (None, None) => true,
        (Some(a), Some(b)) => a.colour.number() == b.colour.number()
            && a.flash == b.flash
            && a.tall == b.tall,
        (None, Some(_)) | (Some(_), None) => false,
    }
}
