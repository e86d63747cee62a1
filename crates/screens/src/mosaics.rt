//! Mosaics as rectangles.

ghost use Rattle.std.specs.Prelude.{◌≡◌, ◌++◌, ◌+◌, ◌*◌, ◌≤◌, OnOk, decimal, length};
ghost use Rattle.std.specs.List.{flat_map};
ghost use Rattle.screens.specs.Mosaics as spec;

use crate::look::{Glyph, Height, Look};
use crate::mosaic::Mosaic;
use page_ids::push_number;
use std::alloc::AllocError;

/// A part of a mosaic, with two blocks side by side.
#[derive(Debug, Clone, Copy, PartialEq, Eq)]
pub enum Third {
    Top,
    Middle,
    Bottom,
}

/// Where something begins in its cell, and how many units it takes.
#[derive(Debug, Clone, Copy, PartialEq, Eq)]
pub struct Units {
    pub start: u16,
    pub size: u16,
}

impl Units {
    fn new(start: u16, size: u16) -> Units
        ensures { result ≡ spec.span start size }
    {
        Units { start, size }
    }
}

// The blocks of a part, up and down; half of a cell of double height has two parts.
fn down(separated: bool, height: Height, part: Third) -> Option<Units>
    ensures { result ≡ spec.down separated height part }
{
    match (separated, height, part) {
        (false, Height::Single, Third::Top) => Some(Units::new(0, 6)),
        (false, Height::Single, Third::Middle) => Some(Units::new(6, 8)),
        (false, Height::Single, Third::Bottom) => Some(Units::new(14, 6)),
        (false, Height::Upper, Third::Top) => Some(Units::new(0, 12)),
        (false, Height::Upper, Third::Middle) => Some(Units::new(12, 8)),
        (false, Height::Lower, Third::Middle) => Some(Units::new(0, 8)),
        (false, Height::Lower, Third::Bottom) => Some(Units::new(8, 12)),
        (true, Height::Single, Third::Top) => Some(Units::new(1, 4)),
        (true, Height::Single, Third::Middle) => Some(Units::new(7, 6)),
        (true, Height::Single, Third::Bottom) => Some(Units::new(15, 4)),
        (true, Height::Upper, Third::Top) => Some(Units::new(2, 8)),
        (true, Height::Upper, Third::Middle) => Some(Units::new(14, 6)),
        (true, Height::Lower, Third::Middle) => Some(Units::new(0, 6)),
        (true, Height::Lower, Third::Bottom) => Some(Units::new(10, 8)),
        (_, Height::Upper, Third::Bottom) | (_, Height::Lower, Third::Top) => None,
    }
}

// The blocks of a part, across: contiguous ones, and those that are apart.
const LEFT: Units = Units { start: 0, size: 6 };

const RIGHT: Units = Units { start: 6, size: 6 };

const BOTH: Units = Units { start: 0, size: 12 };

const LEFT_APART: Units = Units { start: 1, size: 4 };

const RIGHT_APART: Units = Units { start: 7, size: 4 };

// The blocks of two bits: 1 is the left one, 2 the right one.
fn across(separated: bool, bits: u8) -> &'static [Units]
    ensures { result.now ≡ spec.across separated bits }
{
    match (separated, bits) {
        (false, 1) => &[LEFT],
        (false, 2) => &[RIGHT],
        (false, 3) => &[BOTH],
        (true, 1) => &[LEFT_APART],
        (true, 2) => &[RIGHT_APART],
        (true, 3) => &[LEFT_APART, RIGHT_APART],
        _ => &[],
    }
}

fn bits_of(part: Third, number: u8) -> u8
    ensures { result ≡ spec.bits_of part number }
{
    match part {
        Third::Top => number % 4,
        Third::Middle => number / 4 % 4,
        Third::Bottom => number / 16,
    }
}

fn push_sum(out: &mut Vec<u8>, a: u16, b: u16) -> Result<(), AllocError>
    ensures { OnOk result (out.new.items ≡ out.old.items ++ decimal (a + b)) }
{
    push_number(out, a as u64 + b as u64)
}

#[tactic(auto, using(std::proofs::Common::append_assoc))]
fn push_rectangle(
    out: &mut Vec<u8>,
    x: u16,
    y: u16,
    wide: Units,
    high: Units,
) -> Result<(), AllocError>
    ensures { OnOk result (out.new.items ≡ out.old.items ++ spec.rectangle x y wide high) }
{
    out.extend_from_slice(b"M")?;
    push_sum(out, x, wide.start)?;
    out.extend_from_slice(b" ")?;
    push_sum(out, y, high.start)?;
    out.extend_from_slice(b"h")?;
    push_number(out, wide.size as u64)?;
    out.extend_from_slice(b"v")?;
    push_number(out, high.size as u64)?;
    out.extend_from_slice(b"h-")?;
    push_number(out, wide.size as u64)?;
    out.extend_from_slice(b"z")
}

fn push_rectangles(
    out: &mut Vec<u8>,
    x: u16,
    y: u16,
    wide: &[Units],
    high: Units,
) -> Result<(), AllocError>
    ensures { OnOk result (out.new.items ≡ out.old.items ++ flat_map (λ w. spec.rectangle x y w high) wide.now) }
{
    for span in wide {
        push_rectangle(out, x, y, *span, high)?;
    }
    Ok(())
}

fn push_part(
    out: &mut Vec<u8>,
    x: u16,
    y: u16,
    height: Height,
    mosaic: &Mosaic,
    part: Third,
) -> Result<(), AllocError>
    ensures { OnOk result (out.new.items ≡ out.old.items ++ spec.part_path x y height mosaic.now part) }
{
    let Some(high) = down(mosaic.separated, height, part) else {
        return Ok(());
    };
    let wide = across(mosaic.separated, bits_of(part, mosaic.sextants.get()));
    push_rectangles(out, x, y, wide, high)
}

#[tactic(auto, using(std::proofs::Common::append_assoc))]
fn push_mosaic(
    out: &mut Vec<u8>,
    x: u16,
    y: u16,
    height: Height,
    mosaic: &Mosaic,
) -> Result<(), AllocError>
    ensures { OnOk result (out.new.items ≡ out.old.items ++ spec.mosaic_path x y height mosaic.now) }
{
    push_part(out, x, y, height, mosaic, Third::Top)?;
    push_part(out, x, y, height, mosaic, Third::Middle)?;
    push_part(out, x, y, height, mosaic, Third::Bottom)
}

// Writes the mosaics of neighbouring cells of one row, the first of them at x and y, as one path.
pub fn push_mosaics(out: &mut Vec<u8>, x: u16, y: u16, cells: &[Look]) -> Result<(), AllocError>
    requires { x + 12 * length cells.now ≤ 480 }
    ensures { OnOk result (out.new.items ≡ out.old.items ++ spec.mosaics_path x y cells.now) }
{
    let mut x = x;
    for look in cells {
        if let Glyph::Block(mosaic) = &look.glyph {
            push_mosaic(out, x, y, look.height, mosaic)?;
        }
        x += 12;
    }
    Ok(())
}
