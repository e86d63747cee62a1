//! Screens: how their cells look, and their texts, plain, for a terminal in colours, and as a picture.
//!
//! A screen has 24 rows of 40 codes: characters and mosaics, 20 to 7F, and attributes, 80 to 9F. An attribute changes how
//! its row looks from its cell on, or from the next one (the serial attributes of CEPT T/CD 6-1, profile 3).
//!
//! ```
//! let mut terminal = Terminal::new();
//! terminal.run(&[0x81, 0x41]); // the attribute red, and A
//! let looks = screen_looks(terminal.cells());
//! // looks.rows()[0][0] is a white space on black, and looks.rows()[0][1] a red A on black
//! push_text(&mut out, &looks, Writing::Plain)?; // 24 lines, without spaces at their ends
//! push_ansi(&mut out, &looks)?; // the same in colours
//! push_picture(&mut out, id, &looks)?; // <svg ..><title>478a</title> .. </svg>
//! ```
//!
//! Each text is appended to one, and fails only if memory is refused; what was written until then stays.
//!
//! - [`screen_looks`]: the [`Looks`] of a screen.
//! - [`row_codes`]: the codes of a row.
//! - [`hides_text`]: whether a double height hides text of the row beneath.
//! - [`Look`]: how a cell looks. [`Glyph`], [`Mosaic`], [`Sextants`], [`Colour`], [`Height`]: its parts. [`Shown`]: what one
//!   sees of it.
//! - [`character`]: the character of a code.
//! - [`push_text`], [`push_ansi`], [`push_picture`], and for an HTML file [`push_svg`]: the texts. [`Writing`]: characters, or references for markup; [`push_char`]: one
//!   of them.
//! - [`each_row_decides`], [`plain_before`], [`characters_change_glyphs`], [`ground_shows`], [`glyphs_are_of_tables`]: laws of
//!   looks. [`lines_show`], [`text_is_its_lines`], [`characters_are_safe`], [`svg_reads_back`], [`picture_reads_back`]: laws of
//!   texts. [`outlines_are_rounded`]: the law of letters.
//! - Definitions: the tables (`Table`), the looks of rows and screens (`Looks`), characters (`Writing`), the text (`Text`), the
//!   colours of a terminal (`Ansi`), pictures (`Svg`, `Mosaics`, `Letters`, `Outlines`), the laws (`Laws`).
#![tactic(auto)]

mod ansi;
mod characters;
mod ink;
mod laws;
mod layer;
mod look;
mod mosaic;
mod mosaics;
mod outlines;
mod picture;
mod row;
mod screen;
mod svg;
mod text;
mod writing;

pub use ansi::push_ansi;
pub use characters::character;
pub use laws::{
    characters_are_safe, characters_change_glyphs, each_row_decides, glyphs_are_of_tables,
    ground_shows, lines_show, outlines_are_rounded, picture_reads_back, plain_before,
    svg_reads_back, text_is_its_lines,
};
pub use look::{Colour, Glyph, Height, Look, Shown};
pub use mosaic::{Mosaic, Sextants};
pub use picture::push_picture;
pub use screen::{Looks, hides_text, row_codes, screen_looks};
pub use svg::push_svg;
pub use text::push_text;
pub use writing::{Writing, push_char};
