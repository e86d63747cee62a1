//! The files of frames' screens.

ghost use Rattle.std.specs.Prelude.{◌≡◌, ◌++◌, OnOk, map};
ghost use Rattle.screen_forms.specs.Bits.{low_bits};
ghost use Rattle.screen_forms.specs.Forms as spec;

use crate::links::push_address;
use crate::sheet_lines::push_tti;
use page_ids::{FrameId, push_id};
use std::alloc::{AllocError, Global};

/// A form of a file that holds the screen of a frame.
#[derive(Debug, Clone, Copy, PartialEq, Eq)]
pub enum SavedForm {
    /// The 960 codes.
    Cells,
    /// EP1: the codes' low seven bits between 6 bytes and 2.
    Ep1,
    /// TTI: a line for each of rows 0 to 22 that isn't blank, after the teletext page of the frame.
    Tti,
    /// A line with the id and an address of edit.tf.
    Link,
}

/// How a screen is written.
#[derive(Debug, Clone, Copy, PartialEq, Eq)]
pub enum Form {
    /// Characters, 24 lines.
    Text,
    /// The same in the colours of a terminal.
    Ansi,
    /// A picture.
    Svg,
    /// Its 960 codes.
    Cells,
    /// The address at which edit.tf shows it, and a line end.
    Link,
}

// The codes without their top bits.
fn low_codes(codes: &[u8; 960]) -> [u8; 960]
    ensures { result ≡ map low_bits codes.now }
{
    let mut low = *codes;
    for code in low.iter_mut() {
        *code %= 128;
    }
    low
}

#[tactic(auto, using(std::proofs::Common::append_assoc))]
fn push_ep1(out: &mut Vec<u8>, codes: &[u8; 960]) -> Result<(), AllocError>
    ensures { OnOk result (out.new.items ≡ out.old.items ++ spec.ep1_bytes codes.now) }
{
    out.extend_from_slice(&[0xFE, 0x01, 0x09, 0, 0, 0])?;
    out.extend_from_slice(&low_codes(codes))?;
    out.extend_from_slice(&[0, 0])
}

#[tactic(auto, using(std::proofs::Common::append_assoc))]
fn push_link(
    alloc: Global,
    out: &mut Vec<u8>,
    id: FrameId,
    codes: &[u8; 960],
) -> Result<(), AllocError>
    ensures { OnOk result (out.new.items ≡ out.old.items ++ spec.link_line id codes.now) }
{
    push_id(out, id)?;
    out.extend_from_slice(b" ")?;
    push_address(alloc, out, codes)?;
    out.extend_from_slice(b"\n")
}

/// Writes the file of a frame's screen.
pub fn push_form(
    alloc: Global,
    out: &mut Vec<u8>,
    form: SavedForm,
    id: FrameId,
    codes: &[u8; 960],
) -> Result<(), AllocError>
    ensures { OnOk result (out.new.items ≡ out.old.items ++ spec.form_bytes form id codes.now) }
{
    match form {
        SavedForm::Cells => out.extend_from_slice(codes),
        SavedForm::Ep1 => push_ep1(out, codes),
        SavedForm::Tti => push_tti(out, id, codes),
        SavedForm::Link => push_link(alloc, out, id, codes),
    }
}
