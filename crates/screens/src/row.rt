//! One row, read from left to right.

ghost use Rattle.std.specs.Prelude.{◌≡◌, length};
ghost use Rattle.screens.specs.Table as table;
ghost use Rattle.screens.specs.Looks.{row_step, row_looks};

use crate::characters::character;
use crate::look::{Colour, Glyph, Height, Look};
use crate::mosaic::{Mosaic, is_mosaic};

/// The attributes that count at a place of a row.
#[derive(Debug, Clone, Copy, PartialEq, Eq)]
pub struct State {
    // Whether double height counts in this row.
    pub can_stretch: bool,
    pub foreground: Colour,
    pub background: Colour,
    pub flash: bool,
    pub concealed: bool,
    pub mosaics: bool,
    pub separated: bool,
    pub hold: bool,
    pub double: bool,
    // The last mosaic of the row.
    pub held: Option<Mosaic>,
}

impl State {
    // How each row begins.
    fn start(can_stretch: bool) -> State
        ensures { result ≡ table.start can_stretch }
    {
        State {
            can_stretch,
            foreground: Colour::White,
            background: Colour::Black,
            flash: false,
            concealed: false,
            mosaics: false,
            separated: false,
            hold: false,
            double: false,
            held: None,
        }
    }

    fn double_is(&mut self, double: bool)
        ensures { self.new ≡ table.with_double double self.old }
    {
        if self.double != double {
            self.double = double;
            self.held = None;
        }
    }

    fn colour_is(&mut self, mosaics: bool, foreground: Colour)
        ensures { self.new ≡ table.with_mosaics mosaics foreground self.old }
    {
        if self.mosaics != mosaics {
            self.mosaics = mosaics;
            self.held = None;
        }
        self.foreground = foreground;
        self.concealed = false;
    }

    // What counts from the code's own cell on.
    fn begin(&mut self, code: u8)
        ensures { self.new ≡ table.at self.old code }
    {
        match code {
            0x89 => self.flash = false,
            0x8c => self.double_is(false),
            0x98 => self.concealed = true,
            0x99 => self.separated = false,
            0x9a => self.separated = true,
            0x9c => self.background = Colour::Black,
            0x9d => self.background = self.foreground,
            0x9e => self.hold = true,
            _ => {}
        }
    }

    // What counts from the next cell on.
    fn go_on(&mut self, code: u8)
        ensures { self.new ≡ table.after self.old code }
    {
        match code {
            0x81..=0x87 => self.colour_is(false, Colour::of(code - 0x80)),
            0x91..=0x97 => self.colour_is(true, Colour::of(code - 0x90)),
            0x88 => self.flash = true,
            0x8d => {
                if self.can_stretch {
                    self.double_is(true);
                }
            }
            0x9f => self.hold = false,
            _ => {}
        }
    }

    // A mosaic is held from here on.
    fn see(&mut self, code: u8)
        ensures { self.new ≡ table.seen self.old code }
    {
        if self.mosaics && is_mosaic(code) {
            self.held = Mosaic::of(code, self.separated);
        }
    }

    // Writes how the cell of the code looks; the state is then the one after it. No character is an attribute, and no
    // attribute a mosaic.
    #[tactic(auto, using(crate::proofs::Plain::plain_cell, crate::proofs::Plain::plain_step, crate::proofs::Plain::attribute_step))]
    fn put_cell(&mut self, code: u8, look: &mut Look)
        ensures look { look.new ≡ table.look_of (table.at self.old code) code }
        ensures next { self.new ≡ row_step self.old code }
    {
        if code < 0x80 {
            self.put_look(code, look);
            self.see(code);
        } else {
            self.begin(code);
            self.put_look(code, look);
            self.go_on(code);
        }
    }

    // What the cell of the code holds.
    fn glyph(&self, code: u8) -> Glyph
        ensures { result ≡ table.glyph_of self.now code }
    {
        if code >= 0x80 {
            if self.mosaics && self.hold {
                Glyph::of(self.held)
            } else {
                Glyph::Char(' ')
            }
        } else if self.mosaics && is_mosaic(code) {
            Glyph::of(Mosaic::of(code, self.separated))
        } else {
            Glyph::Char(character(code))
        }
    }

    // Writes how the cell of the code looks: field by field, since a whole look would be built elsewhere and copied.
    fn put_look(&self, code: u8, look: &mut Look)
        ensures { look.new ≡ table.look_of self.now code }
    {
        look.glyph = self.glyph(code);
        look.foreground = self.foreground;
        look.background = self.background;
        look.flash = self.flash;
        look.concealed = self.concealed;
        look.height = if self.double {
            Height::Upper
        } else {
            Height::Single
        };
    }
}

// Writes the looks of a row by its own codes.
pub fn put_row(can_stretch: bool, codes: &[u8], looks: &mut [Look; 40])
    requires { length codes.now ≡ 40 }
    ensures { looks.new ≡ row_looks (table.start can_stretch) codes.now }
{
    let mut state = State::start(can_stretch);
    for (i, code) in codes.iter().enumerate() {
        state.put_cell(*code, &mut looks[i]);
    }
}
