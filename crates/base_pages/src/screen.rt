//! The screen of a frame: its picture and its text, and both with what it conceals.

ghost use Rattle.std.specs.Prelude.{◌≡◌, ◌++◌, OnOk, map};
ghost use Rattle.screens.specs.Looks.{looks};
ghost use Rattle.screens.specs.Svg.{markup};
ghost use Rattle.base_pages.specs.Loops as loops;
ghost use Rattle.base_pages.specs.Revealed as revealed;
ghost use Rattle.base_pages.specs.Sections as spec;

use crate::element::{Attribute, push_ending, push_opening, push_tag};
use page_ids::FrameId;
use screens::{Look, Looks, Writing, push_svg, push_text, screen_looks};
use std::alloc::AllocError;

// The attribute that conceals, and one without effect.
const CONCEAL: u8 = 0x98;

const NO_EFFECT: u8 = 0x80;

fn revealed_code(code: u8) -> u8
    ensures { result ≡ loops.revealed_code code }
{
    if code == CONCEAL { NO_EFFECT } else { code }
}

fn reveal(codes: &mut [u8; 960])
    ensures { codes.new ≡ map loops.revealed_code codes.old }
{
    for code in codes.iter_mut() {
        *code = revealed_code(*code);
    }
}

// How a screen looks with all that it conceals.
#[tactic(auto, using(crate::proofs::Revealed::looks_revealed))]
fn revealed_looks(codes: &[u8; 960]) -> Looks
    ensures { result ≡ revealed.revealed (looks codes.now) }
{
    let mut shown = *codes;
    reveal(&mut shown);
    screen_looks(&shown)
}

fn conceals(look: &Look) -> bool
    ensures { result ≡ revealed.conceals look.now }
{
    look.concealed && !look.glyph.is_space()
}

fn row_conceals(row: &[Look; 40]) -> bool
    ensures { result ≡ revealed.row_conceals row.now }
{
    row.iter().any(|look| conceals(look))
}

fn screen_conceals(looks: &Looks) -> bool
    ensures { result ≡ revealed.screen_conceals looks.now }
{
    looks.rows().iter().any(|row| row_conceals(row))
}

#[tactic(auto, unfolding(crate::specs::Sections::drawn_pieces))]
fn push_picture(
    out: &mut Vec<u8>,
    id: FrameId,
    looks: &Looks,
    cell: Option<u16>,
) -> Result<(), AllocError>
    ensures { OnOk result (out.new.items ≡ out.old.items ++ markup (spec.drawn_pieces id looks.now cell)) }
{
    push_svg(out, id, looks, cell)
}

#[tactic(auto, using(std::proofs::Common::append_assoc, crate::proofs::Bytes::element_bytes), unfolding(crate::specs::Sections::text_pieces))]
fn push_screen_text(out: &mut Vec<u8>, looks: &Looks) -> Result<(), AllocError>
    ensures { OnOk result (out.new.items ≡ out.old.items ++ markup (spec.text_pieces looks.now)) }
{
    push_tag(out, b"pre", &[])?;
    push_text(out, looks, Writing::Markup)?;
    push_ending(out, b"pre")
}

// The picture and the text of a screen that is revealed.
#[tactic(auto, using(std::proofs::Common::append_assoc, crate::proofs::Bytes::markup_append), unfolding(crate::specs::Sections::revealed_pieces))]
fn push_revealed(
    out: &mut Vec<u8>,
    id: FrameId,
    looks: &Looks,
    cell: Option<u16>,
) -> Result<(), AllocError>
    ensures { OnOk result (out.new.items ≡ out.old.items ++ markup (spec.revealed_pieces id looks.now cell)) }
{
    push_opening(out, b"div", &[Attribute::of(b"class", b"revealed")])?;
    push_picture(out, id, looks, cell)?;
    push_screen_text(out, looks)?;
    push_ending(out, b"div")
}

// The picture and the text of a screen, and both with what it conceals.
#[tactic(auto, using(std::proofs::Common::append_assoc, crate::proofs::Bytes::markup_append, crate::proofs::Bytes::nothing), unfolding(crate::specs::Sections::screen_pieces))]
pub fn push_screen(
    out: &mut Vec<u8>,
    id: FrameId,
    codes: &[u8; 960],
    cell: Option<u16>,
) -> Result<(), AllocError>
    ensures { OnOk result (out.new.items ≡ out.old.items ++ markup (spec.screen_pieces id (looks codes.now) cell)) }
{
    let looks = screen_looks(codes);
    push_picture(out, id, &looks, cell)?;
    push_screen_text(out, &looks)?;
    if screen_conceals(&looks) {
        push_revealed(out, id, &revealed_looks(codes), cell)
    } else {
        Ok(())
    }
}
