//! The form `svg`: a picture alone, with letters as paths.

ghost use Rattle.std.specs.Prelude.{◌≡◌, ◌++◌, ◌+◌, ◌*◌, ◌<◌, ◌≤◌, OnOk, length};
ghost use Rattle.screens.specs.Looks.{shown};
ghost use Rattle.screens.specs.Svg.{markup};
ghost use Rattle.screens.specs.Svg as spec;

use crate::layer::{Ink, same_ink};
use crate::look::{Colour, Glyph, Height, Look, Shown};
use crate::outlines::outline;
use crate::screen::Looks;
use crate::svg::{flash_begin, push_blocks, push_fill, push_title, svg_begin};
use crate::text::push_text;
use crate::writing::Writing;
use page_ids::{FrameId, push_number};
use std::alloc::AllocError;

fn is_tall(height: Height) -> bool
    ensures { result ≡ spec.is_tall height }
{
    match height {
        Height::Single => false,
        Height::Upper | Height::Lower => true,
    }
}

// In what the outline of a cell's letter is drawn.
fn outline_ink(look: &Look) -> Ink
    ensures { result ≡ spec.outline_ink look.now }
{
    Ink {
        colour: look.foreground,
        flash: look.flash,
        tall: is_tall(look.height),
    }
}

// The character that a path in an ink draws of a cell.
fn char_in(ink: Ink, look: &Look) -> Option<char>
    ensures { result ≡ spec.char_in ink (shown look.now) }
{
    match look.shown() {
        Shown::Ground(_) => None,
        Shown::All(look) => match look.glyph {
            Glyph::Block(_) => None,
            Glyph::Char(c) => {
                if same_ink(Some(ink), Some(outline_ink(&look))) {
                    Some(c)
                } else {
                    None
                }
            }
        },
    }
}

#[tactic(auto, using(std::proofs::Common::append_assoc))]
fn push_outline(
    out: &mut Vec<u8>,
    x: u16,
    y: u16,
    height: Height,
    c: char,
) -> Result<(), AllocError>
    ensures { OnOk result (out.new.items ≡ out.old.items ++ spec.letter_path x y height (Some c)) }
{
    out.extend_from_slice(b"M")?;
    push_number(out, x as u64)?;
    out.extend_from_slice(b" ")?;
    push_number(out, y as u64)?;
    out.extend_from_slice(outline(height, c))
}

// Writes the letters in an ink of neighbouring cells of one row, the first of them at x and y.
fn push_letters(
    out: &mut Vec<u8>,
    ink: Ink,
    x: u16,
    y: u16,
    cells: &[Look],
) -> Result<(), AllocError>
    requires { x + 12 * length cells.now ≤ 480 }
    ensures { OnOk result (out.new.items ≡ out.old.items ++ spec.letters_path ink x y cells.now) }
{
    let mut x = x;
    for look in cells {
        if let Some(c) = char_in(ink, look) {
            push_outline(out, x, y, look.height, c)?;
        }
        x += 12;
    }
    Ok(())
}

fn push_rows(out: &mut Vec<u8>, ink: Ink, looks: &Looks) -> Result<(), AllocError>
    ensures { OnOk result (out.new.items ≡ out.old.items ++ spec.screen_path ink 0 looks.now) }
{
    for (row, cells) in looks.rows().iter().enumerate() {
        push_letters(out, ink, 0, (20 * row) as u16, cells)?;
    }
    Ok(())
}

// Whether letters in an ink are in a row.
fn row_has_ink(ink: Ink, row: &[Look; 40]) -> bool
    ensures { result ≡ spec.row_has_ink ink row.now }
{
    row.iter().any(|look| char_in(ink, look).is_some())
}

fn has_ink(ink: Ink, looks: &Looks) -> bool
    ensures { result ≡ spec.has_ink ink looks.now }
{
    looks.rows().iter().any(|row| row_has_ink(ink, row))
}

#[tactic(auto, using(std::proofs::Common::append_assoc, crate::proofs::Markups::outlines_bytes))]
fn push_path(out: &mut Vec<u8>, ink: Ink, looks: &Looks) -> Result<(), AllocError>
    ensures { OnOk result (out.new.items ≡ out.old.items ++ markup (spec.outlines ink looks.now)) }
{
    out.extend_from_slice(b"<path")?;
    push_fill(out, ink.colour)?;
    out.extend_from_slice(b" d=\"")?;
    push_rows(out, ink, looks)?;
    out.extend_from_slice(b"\"/>\n")
}

// What flashes, in a group of its own.
#[tactic(auto, using(std::proofs::Common::append_assoc, crate::proofs::Markups::markup_append, crate::proofs::Markups::group_end_bytes))]
fn push_flashing(out: &mut Vec<u8>, ink: Ink, looks: &Looks) -> Result<(), AllocError>
    ensures { OnOk result (out.new.items ≡ out.old.items ++
        markup (spec.flash_begin ++ spec.outlines ink looks.now ++ spec.group_end)) }
{
    out.extend_from_slice(flash_begin())?;
    push_path(out, ink, looks)?;
    out.extend_from_slice(b"</g>\n")
}

// The path of all letters in an ink, if there are any.
#[tactic(auto, using(crate::proofs::Markups::nothing), unfolding(crate::specs::Svg::outlines_in))]
fn push_inked(out: &mut Vec<u8>, ink: Ink, looks: &Looks) -> Result<(), AllocError>
    ensures { OnOk result (out.new.items ≡ out.old.items ++ markup (spec.outlines_in ink looks.now)) }
{
    if !has_ink(ink, looks) {
        return Ok(());
    }
    if ink.flash {
        push_flashing(out, ink, looks)
    } else {
        push_path(out, ink, looks)
    }
}

// The same of one colour.
fn push_coloured(
    out: &mut Vec<u8>,
    colour: Colour,
    flash: bool,
    tall: bool,
    looks: &Looks,
) -> Result<(), AllocError>
    ensures { OnOk result (out.new.items ≡ out.old.items ++
        markup (spec.outlines_in (spec.ink colour flash tall) looks.now)) }
{
    push_inked(
        out,
        Ink {
            colour,
            flash,
            tall,
        },
        looks,
    )
}

#[tactic(auto, using(std::proofs::Common::append_assoc, crate::proofs::Markups::markup_append), unfolding(crate::specs::Svg::first_colours))]
fn push_first_colours(
    out: &mut Vec<u8>,
    flash: bool,
    tall: bool,
    looks: &Looks,
) -> Result<(), AllocError>
    ensures { OnOk result (out.new.items ≡ out.old.items ++ markup (spec.first_colours flash tall looks.now)) }
{
    push_coloured(out, Colour::Black, flash, tall, looks)?;
    push_coloured(out, Colour::Red, flash, tall, looks)?;
    push_coloured(out, Colour::Green, flash, tall, looks)?;
    push_coloured(out, Colour::Yellow, flash, tall, looks)
}

#[tactic(auto, using(std::proofs::Common::append_assoc, crate::proofs::Markups::markup_append), unfolding(crate::specs::Svg::last_colours))]
fn push_last_colours(
    out: &mut Vec<u8>,
    flash: bool,
    tall: bool,
    looks: &Looks,
) -> Result<(), AllocError>
    ensures { OnOk result (out.new.items ≡ out.old.items ++ markup (spec.last_colours flash tall looks.now)) }
{
    push_coloured(out, Colour::Blue, flash, tall, looks)?;
    push_coloured(out, Colour::Magenta, flash, tall, looks)?;
    push_coloured(out, Colour::Cyan, flash, tall, looks)?;
    push_coloured(out, Colour::White, flash, tall, looks)
}

#[tactic(auto, using(std::proofs::Common::append_assoc, crate::proofs::Markups::markup_append), unfolding(crate::specs::Svg::all_colours))]
fn push_colours(out: &mut Vec<u8>, flash: bool, tall: bool, looks: &Looks) -> Result<(), AllocError>
    ensures { OnOk result (out.new.items ≡ out.old.items ++ markup (spec.all_colours flash tall looks.now)) }
{
    push_first_colours(out, flash, tall, looks)?;
    push_last_colours(out, flash, tall, looks)
}

#[tactic(auto, using(std::proofs::Common::append_assoc, crate::proofs::Markups::markup_append), unfolding(crate::specs::Svg::all_outlines))]
fn push_outlines(out: &mut Vec<u8>, looks: &Looks) -> Result<(), AllocError>
    ensures { OnOk result (out.new.items ≡ out.old.items ++ markup (spec.all_outlines looks.now)) }
{
    push_colours(out, false, false, looks)?;
    push_colours(out, false, true, looks)?;
    push_colours(out, true, false, looks)?;
    push_colours(out, true, true, looks)
}

#[tactic(auto, using(std::proofs::Common::append_assoc, crate::proofs::Markups::text_bytes))]
fn push_desc(out: &mut Vec<u8>, looks: &Looks) -> Result<(), AllocError>
    ensures { OnOk result (out.new.items ≡ out.old.items ++ markup (spec.svg_text looks.now)) }
{
    out.extend_from_slice(b"<desc>")?;
    push_text(out, looks, Writing::Markup)?;
    out.extend_from_slice(b"</desc>\n")
}

/// Writes a picture of the screen of a frame as a file of its own: one `svg` element of 480 by 480 units, stretched to the
/// proportions of a British screen, with the frame's id as its title and the 24 lines of its text as its description.
///
/// Backgrounds and mosaics are rectangles. Letters are the outlines of their dots, one path for those of a colour and height, so
/// that they look alike in every program; what flashes is in groups apart.
#[tactic(auto, using(std::proofs::Common::append_assoc, crate::proofs::Markups::markup_append, crate::proofs::Markups::foot_bytes))]
pub fn push_picture(out: &mut Vec<u8>, id: FrameId, looks: &Looks) -> Result<(), AllocError>
    ensures { OnOk result (out.new.items ≡ out.old.items ++ spec.picture id looks.now) }
{
    out.extend_from_slice(svg_begin())?;
    push_title(out, id)?;
    push_desc(out, looks)?;
    push_blocks(out, looks)?;
    push_outlines(out, looks)?;
    out.extend_from_slice(b"</svg>\n")
}
