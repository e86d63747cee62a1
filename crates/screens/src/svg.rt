//! Pictures of an HTML file, with letters as texts.

ghost use Rattle.std.specs.Prelude.{◌≡◌, ◌++◌, ◌+◌, ◌*◌, ◌<◌, ◌≤◌, [], Some, OnOk, length, map};
ghost use Rattle.page_ids.specs.Ids.{frame_text};
ghost use Rattle.screens.specs.declared.writing.Writing.TheVariants.{Markup};
ghost use Rattle.screens.specs.Writing.{written};
ghost use Rattle.screens.specs.Text.{seen_char};
ghost use Rattle.screens.specs.Svg.{markup};
ghost use Rattle.screens.specs.Svg as spec;

use crate::ink::seen_char;
use crate::layer::{Ink, Layer, same_ink};
use crate::look::{Colour, Look};
use crate::mosaics::push_mosaics;
use crate::screen::Looks;
use crate::writing::{Writing, push_char};
use page_ids::{FrameId, push_number};
use std::alloc::AllocError;

// The tag that begins each picture.
#[tactic(auto, using(crate::proofs::Markups::svg_begin_bytes))]
pub fn svg_begin() -> &'static [u8]
    ensures { result.now ≡ markup spec.svg_begin }
{
    b"<svg xmlns=\"http://www.w3.org/2000/svg\" viewBox=\"0 0 480 480\" width=\"600\" height=\"480\" preserveAspectRatio=\"none\">"
}

// The group of backgrounds and mosaics, without soft edges between them, on black.
#[tactic(auto, using(crate::proofs::Markups::blocks_begin_bytes))]
fn blocks_begin() -> &'static [u8]
    ensures { result.now ≡ markup spec.blocks_begin }
{
    b"<g shape-rendering=\"crispEdges\">\n<rect width=\"480\" height=\"480\" fill=\"#000\"/>\n"
}

// The group of letters.
#[tactic(auto, using(crate::proofs::Markups::texts_begin_bytes))]
fn texts_begin() -> &'static [u8]
    ensures { result.now ≡ markup spec.texts_begin }
{
    b"<g font-family=\"DejaVu Sans Mono, Liberation Mono, Consolas, Menlo, monospace\" font-size=\"20\">\n"
}

// A group of what flashes.
#[tactic(auto, using(crate::proofs::Markups::flash_begin_bytes))]
pub fn flash_begin() -> &'static [u8]
    ensures { result.now ≡ markup spec.flash_begin }
{
    b"<g class=\"flash\"><animate attributeName=\"visibility\" values=\"visible;hidden\" calcMode=\"discrete\" dur=\"1s\" repeatCount=\"indefinite\"/>"
}

// ` name="value"`
#[tactic(auto, using(std::proofs::Common::append_assoc), unfolding(crate::specs::Svg::attribute))]
fn push_attribute(out: &mut Vec<u8>, name: &[u8], value: usize) -> Result<(), AllocError>
    ensures { OnOk result (out.new.items ≡ out.old.items ++ spec.attribute name.now value) }
{
    out.extend_from_slice(b" ")?;
    out.extend_from_slice(name)?;
    out.extend_from_slice(b"=\"")?;
    push_number(out, value as u64)?;
    out.extend_from_slice(b"\"")
}

// The left upper corner.
#[tactic(auto, using(std::proofs::Common::append_assoc), unfolding(crate::specs::Svg::corner))]
fn push_corner(out: &mut Vec<u8>, x: usize, y: usize) -> Result<(), AllocError>
    ensures { OnOk result (out.new.items ≡ out.old.items ++ spec.corner x y) }
{
    push_attribute(out, b"x", x)?;
    push_attribute(out, b"y", y)
}

// As wide as this many cells.
#[tactic(auto, using(std::proofs::Common::append_assoc), unfolding(crate::specs::Svg::svg_extent))]
fn push_extent(out: &mut Vec<u8>, count: usize) -> Result<(), AllocError>
    requires { count ≤ 40 }
    ensures { OnOk result (out.new.items ≡ out.old.items ++ spec.svg_extent count) }
{
    push_attribute(out, b"width", 12 * count)?;
    out.extend_from_slice(b" height=\"20\"")
}

fn rgb(colour: Colour) -> &'static [u8]
    ensures { result.now ≡ spec.rgb colour }
{
    match colour {
        Colour::Black => b"#000",
        Colour::Red => b"#f00",
        Colour::Green => b"#0f0",
        Colour::Yellow => b"#ff0",
        Colour::Blue => b"#00f",
        Colour::Magenta => b"#f0f",
        Colour::Cyan => b"#0ff",
        Colour::White => b"#fff",
    }
}

#[tactic(auto, using(std::proofs::Common::append_assoc), unfolding(crate::specs::Svg::fill))]
pub fn push_fill(out: &mut Vec<u8>, colour: Colour) -> Result<(), AllocError>
    ensures { OnOk result (out.new.items ≡ out.old.items ++ spec.fill colour) }
{
    out.extend_from_slice(b" fill=\"")?;
    out.extend_from_slice(rgb(colour))?;
    out.extend_from_slice(b"\"")
}

#[tactic(auto, using(std::proofs::Common::append_assoc, crate::proofs::Markups::ground_bytes))]
fn push_ground(
    out: &mut Vec<u8>,
    row: usize,
    column: usize,
    cells: &[Look],
    ink: Ink,
) -> Result<(), AllocError>
    requires row { row < 24 }
    requires columns { column + length cells.now ≤ 40 }
    ensures { OnOk result (out.new.items ≡ out.old.items ++ markup (spec.ground row column cells.now ink)) }
{
    out.extend_from_slice(b"<rect")?;
    push_corner(out, 12 * column, 20 * row)?;
    push_extent(out, cells.len())?;
    push_fill(out, ink.colour)?;
    out.extend_from_slice(b"/>\n")
}

#[tactic(auto, using(std::proofs::Common::append_assoc, crate::proofs::Markups::mosaics_bytes))]
fn push_path(
    out: &mut Vec<u8>,
    row: usize,
    column: usize,
    cells: &[Look],
    ink: Ink,
) -> Result<(), AllocError>
    requires row { row < 24 }
    requires columns { column + length cells.now ≤ 40 }
    ensures { OnOk result (out.new.items ≡ out.old.items ++ markup (spec.mosaics row column cells.now ink)) }
{
    out.extend_from_slice(b"<path")?;
    push_fill(out, ink.colour)?;
    out.extend_from_slice(b" d=\"")?;
    push_mosaics(out, (12 * column) as u16, (20 * row) as u16, cells)?;
    out.extend_from_slice(b"\"/>\n")
}

// Where letters are, up and down; upper halves have twice the height.
#[tactic(auto, using(std::proofs::Common::append_assoc))]
fn push_stretched(out: &mut Vec<u8>, tall: bool, row: usize) -> Result<(), AllocError>
    requires { row < 24 }
    ensures { OnOk result (out.new.items ≡ out.old.items ++ spec.stretched tall row) }
{
    if tall {
        push_attribute(out, b"y", 10 * row + 16)?;
        out.extend_from_slice(b" transform=\"scale(1 2)\"")
    } else {
        push_attribute(out, b"y", 20 * row + 16)
    }
}

// The characters of cells.
fn push_seen(out: &mut Vec<u8>, cells: &[Look]) -> Result<(), AllocError>
    ensures { OnOk result (out.new.items ≡ out.old.items ++ written Markup (map seen_char cells.now)) }
{
    for look in cells {
        push_char(out, Writing::Markup, seen_char(look))?;
    }
    Ok(())
}

// Letters take 12 units each.
#[tactic(auto, using(std::proofs::Common::append_assoc), unfolding(crate::specs::Svg::spacing))]
fn push_spacing(out: &mut Vec<u8>, count: usize) -> Result<(), AllocError>
    requires { count ≤ 40 }
    ensures { OnOk result (out.new.items ≡ out.old.items ++ spec.spacing count) }
{
    push_attribute(out, b"textLength", 12 * count)?;
    out.extend_from_slice(b" lengthAdjust=\"spacingAndGlyphs\"")
}

#[tactic(auto, using(std::proofs::Common::append_assoc), unfolding(crate::specs::Svg::letters_tag))]
fn push_letters_tag(
    out: &mut Vec<u8>,
    row: usize,
    column: usize,
    count: usize,
    ink: Ink,
) -> Result<(), AllocError>
    requires row { row < 24 }
    requires columns { column + count ≤ 40 }
    ensures { OnOk result (out.new.items ≡ out.old.items ++ spec.letters_tag row column count ink) }
{
    out.extend_from_slice(b"text")?;
    push_attribute(out, b"x", 12 * column)?;
    push_stretched(out, ink.tall, row)?;
    push_spacing(out, count)?;
    push_fill(out, ink.colour)
}

#[tactic(auto, using(std::proofs::Common::append_assoc, crate::proofs::Markups::letters_bytes))]
fn push_letters(
    out: &mut Vec<u8>,
    row: usize,
    column: usize,
    cells: &[Look],
    ink: Ink,
) -> Result<(), AllocError>
    requires row { row < 24 }
    requires columns { column + length cells.now ≤ 40 }
    ensures { OnOk result (out.new.items ≡ out.old.items ++ markup (spec.letters row column cells.now ink)) }
{
    out.extend_from_slice(b"<")?;
    push_letters_tag(out, row, column, cells.len(), ink)?;
    out.extend_from_slice(b">")?;
    push_seen(out, cells)?;
    out.extend_from_slice(b"</text>\n")
}

fn push_drawn(
    out: &mut Vec<u8>,
    layer: Layer,
    row: usize,
    column: usize,
    cells: &[Look],
    ink: Ink,
) -> Result<(), AllocError>
    requires row { row < 24 }
    requires columns { column + length cells.now ≤ 40 }
    ensures { OnOk result (out.new.items ≡ out.old.items ++ markup (spec.drawn layer row column cells.now ink)) }
{
    match layer {
        Layer::Grounds => push_ground(out, row, column, cells, ink),
        Layer::Mosaics => push_path(out, row, column, cells, ink),
        Layer::Letters => push_letters(out, row, column, cells, ink),
    }
}

// What flashes, in a group of its own.
#[tactic(auto, using(std::proofs::Common::append_assoc, crate::proofs::Markups::markup_append, crate::proofs::Markups::group_end_bytes))]
fn push_flashing(
    out: &mut Vec<u8>,
    layer: Layer,
    row: usize,
    column: usize,
    cells: &[Look],
    ink: Ink,
) -> Result<(), AllocError>
    requires row { row < 24 }
    requires columns { column + length cells.now ≤ 40 }
    ensures { OnOk result (out.new.items ≡ out.old.items ++ markup (spec.flash_begin ++
        spec.drawn layer row column cells.now ink ++ spec.group_end)) }
{
    out.extend_from_slice(flash_begin())?;
    push_drawn(out, layer, row, column, cells, ink)?;
    out.extend_from_slice(b"</g>\n")
}

// A run of cells in one ink, or none.
fn push_run(
    out: &mut Vec<u8>,
    layer: Layer,
    row: usize,
    column: usize,
    cells: &[Look],
) -> Result<(), AllocError>
    requires row { row < 24 }
    requires columns { column + length cells.now ≤ 40 }
    ensures { OnOk result (out.new.items ≡ out.old.items ++ markup (spec.run_pieces layer row column cells.now)) }
{
    match layer.first_ink(cells) {
        None => Ok(()),
        Some(ink) => {
            if ink.flash {
                push_flashing(out, layer, row, column, cells, ink)
            } else {
                push_drawn(out, layer, row, column, cells, ink)
            }
        }
    }
}

fn push_row(
    out: &mut Vec<u8>,
    layer: Layer,
    row: usize,
    looks: &[Look; 40],
) -> Result<(), AllocError>
    requires { row < 24 }
    ensures { OnOk result (out.new.items ≡ out.old.items ++ markup (spec.row_pieces layer row 0 [] looks.now)) }
{
    let mut from = 0;
    let mut ink = layer.ink(&looks[0]);
    for (column, look) in looks.iter().enumerate() {
        let next = layer.ink(look);
        if !same_ink(ink, next) {
            push_run(out, layer, row, from, &looks[from..column])?;
            from = column;
            ink = next;
        }
    }
    push_run(out, layer, row, from, &looks[from..])
}

fn push_layer(out: &mut Vec<u8>, layer: Layer, looks: &Looks) -> Result<(), AllocError>
    ensures { OnOk result (out.new.items ≡ out.old.items ++ markup (spec.layer_pieces layer 0 looks.now)) }
{
    for (row, cells) in looks.rows().iter().enumerate() {
        push_row(out, layer, row, cells)?;
    }
    Ok(())
}

fn push_id(out: &mut Vec<u8>, id: FrameId) -> Result<(), AllocError>
    ensures { OnOk result (out.new.items ≡ out.old.items ++ written Markup (frame_text id)) }
{
    let text = id.text();
    for byte in text.as_bytes() {
        push_char(out, Writing::Markup, char::from(*byte))?;
    }
    Ok(())
}

#[tactic(auto, using(std::proofs::Common::append_assoc, crate::proofs::Markups::title_bytes))]
pub fn push_title(out: &mut Vec<u8>, id: FrameId) -> Result<(), AllocError>
    ensures { OnOk result (out.new.items ≡ out.old.items ++ markup (spec.svg_title id)) }
{
    out.extend_from_slice(b"<title>")?;
    push_id(out, id)?;
    out.extend_from_slice(b"</title>\n")
}

// Backgrounds, and mosaics over them.
#[tactic(auto, using(std::proofs::Common::append_assoc, crate::proofs::Markups::markup_append, crate::proofs::Markups::group_end_bytes))]
pub fn push_blocks(out: &mut Vec<u8>, looks: &Looks) -> Result<(), AllocError>
    ensures { OnOk result (out.new.items ≡ out.old.items ++ markup (spec.blocks looks.now)) }
{
    out.extend_from_slice(blocks_begin())?;
    push_layer(out, Layer::Grounds, looks)?;
    push_layer(out, Layer::Mosaics, looks)?;
    out.extend_from_slice(b"</g>\n")
}

#[tactic(auto, using(std::proofs::Common::append_assoc, crate::proofs::Markups::markup_append, crate::proofs::Markups::group_end_bytes))]
fn push_texts(out: &mut Vec<u8>, looks: &Looks) -> Result<(), AllocError>
    ensures { OnOk result (out.new.items ≡ out.old.items ++ markup (spec.texts looks.now)) }
{
    out.extend_from_slice(texts_begin())?;
    push_layer(out, Layer::Letters, looks)?;
    out.extend_from_slice(b"</g>\n")
}

// A red frame round a cell.
#[tactic(auto, using(std::proofs::Common::append_assoc, crate::proofs::Markups::touched_bytes))]
fn push_frame(out: &mut Vec<u8>, cell: u16) -> Result<(), AllocError>
    ensures { OnOk result (out.new.items ≡ out.old.items ++ markup (spec.touch_mark (Some cell))) }
{
    out.extend_from_slice(b"<rect class=\"touched\"")?;
    push_corner(out, 12 * (cell as usize % 40), 20 * (cell as usize / 40))?;
    out.extend_from_slice(
        b" width=\"12\" height=\"20\" fill=\"none\" stroke=\"#f00\" stroke-width=\"2\"/>\n",
    )
}

fn push_touched(out: &mut Vec<u8>, cell: Option<u16>) -> Result<(), AllocError>
    ensures { OnOk result (out.new.items ≡ out.old.items ++ markup (spec.touch_mark cell)) }
{
    match cell {
        None => Ok(()),
        Some(cell) => push_frame(out, cell),
    }
}

/// Writes a picture of a frame's screen for an HTML file: one `svg` element of 480 by 480 units, in the proportions of a British
/// screen, with the frame's id as its title.
///
/// Backgrounds and mosaics are rectangles; letters are texts, a run of neighbouring ones each, in reading order, in a font that the
/// file can name. A cell at a position from 0 to 959 gets a red frame, the last element, of class `touched`.
#[tactic(auto, using(std::proofs::Common::append_assoc, crate::proofs::Markups::markup_append, crate::proofs::Markups::foot_bytes))]
pub fn push_svg(
    out: &mut Vec<u8>,
    id: FrameId,
    looks: &Looks,
    touched: Option<u16>,
) -> Result<(), AllocError>
    ensures { OnOk result (out.new.items ≡ out.old.items ++ spec.svg id looks.now touched) }
{
    out.extend_from_slice(svg_begin())?;
    push_title(out, id)?;
    push_blocks(out, looks)?;
    push_texts(out, looks)?;
    push_touched(out, touched)?;
    out.extend_from_slice(b"</svg>\n")
}
