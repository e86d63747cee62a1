//! What one sees of a cell in a text.

ghost use Rattle.std.specs.Prelude.{◌≡◌};
ghost use Rattle.screens.specs.Text as spec;

use crate::look::{Glyph, Height, Look};

// The character of what a cell holds.
fn glyph_char(glyph: &Glyph) -> char
    ensures { result ≡ spec.glyph_char glyph.now }
{
    match glyph {
        Glyph::Char(c) => *c,
        Glyph::Block(mosaic) => mosaic.sextants.character(),
    }
}

// The character of what a cell shows: a space of a background alone, and of a lower half.
pub fn seen_char(look: &Look) -> char
    ensures { result ≡ spec.seen_char look.now }
{
    if look.concealed {
        return ' ';
    }
    match look.height {
        Height::Lower => ' ',
        Height::Single | Height::Upper => glyph_char(&look.glyph),
    }
}
