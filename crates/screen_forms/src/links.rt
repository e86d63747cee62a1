//! Addresses of edit.tf.

ghost use Rattle.std.specs.Prelude.{◌≡◌, ◌≤◌, ◌++◌, IfOk, OnOk, Some, length, map, true};
ghost use Rattle.screen_forms.specs.Forms.{address, address_head};
ghost use Rattle.screen_forms.specs.Links as spec;

use crate::bits::{packed, store_codes, unpacked};
use base64::DecodeAllocError;
use base64::engine::general_purpose::URL_SAFE_NO_PAD;
use std::alloc::{AllocError, Global};

// A row of blank cells, row 24, and two bits.
const BLANK_ROW: &[u8; 47] = b"QIECBAgQIECBAgQIECBAgQIECBAgQIECBAgQIECBAgQIECA";

// Writes the letters of a screen.
#[tactic(auto, using(std::proofs::Common::append_assoc), unfolding(crate::specs::Links::blank_row_letters))]
fn push_letters(alloc: Global, out: &mut Vec<u8>, codes: &[u8; 960]) -> Result<(), AllocError>
    ensures { OnOk result (out.new.items ≡ out.old.items ++ spec.link_letters codes.now) }
{
    let bytes = packed(alloc, codes)?;
    let letters = URL_SAFE_NO_PAD.encode(alloc, bytes.as_slice())?;
    out.extend_from_slice(letters.as_bytes())?;
    out.extend_from_slice(BLANK_ROW)
}

// Writes what comes before the letters.
#[tactic(auto, unfolding(crate::specs::Forms::address_head))]
fn push_address_head(out: &mut Vec<u8>) -> Result<(), AllocError>
    ensures { OnOk result (out.new.items ≡ out.old.items ++ address_head) }
{
    out.extend_from_slice(b"https://edit.tf/#0:")
}

/// Writes the address at which edit.tf shows a screen: 1,167 letters after `https://edit.tf/#0:`, seven bits a cell, of 25 rows, the
/// last of them blank.
#[tactic(auto, using(std::proofs::Common::append_assoc))]
pub fn push_address(alloc: Global, out: &mut Vec<u8>, codes: &[u8; 960]) -> Result<(), AllocError>
    ensures { OnOk result (out.new.items ≡ out.old.items ++ address codes.now) }
{
    push_address_head(out)?;
    push_letters(alloc, out, codes)
}

/// Whether a byte is one of the letters that hold a screen: those of base64 for addresses, or `+` and `/` for its last two.
pub fn is_link_letter(byte: u8) -> bool
    ensures { result ≡ spec.is_link_letter byte }
{
    matches!(byte, b'0'..=b'9' | b'A'..=b'Z' | b'a'..=b'z' | b'-' | b'_' | b'+' | b'/')
}

fn usual_letter(letter: u8) -> u8
    ensures { result ≡ spec.usual_letter letter }
{
    match letter {
        b'+' => b'-',
        b'/' => b'_',
        _ => letter,
    }
}

// A copy of letters in the form of addresses.
fn usual_letters(alloc: Global, letters: &[u8]) -> Result<Vec<u8>, AllocError>
    ensures { IfOk result (λ usual. usual.items ≡ map spec.usual_letter letters.now) }
{
    letters
        .iter()
        .map(|letter| usual_letter(*letter))
        .collect(alloc)
}

// The codes of all 24 rows.
fn whole_screen(cells: &[u8]) -> Option<[u8; 960]>
    ensures { result ≡ spec.whole_screen cells.now }
{
    if cells.len() != 960 {
        return None;
    }
    let mut codes = [b' '; 960];
    codes.copy_from_slice(cells);
    Some(codes)
}

// The screen of the bytes of 24 rows.
fn cells_of(alloc: Global, bytes: &[u8]) -> Result<Option<[u8; 960]>, AllocError>
    ensures { IfOk result (λ screen. screen ≡ spec.cells_of (Some bytes.now)) }
{
    let mut cells = unpacked(alloc, bytes)?;
    store_codes(cells.as_mut_slice());
    Ok(whole_screen(cells.as_slice()))
}

// The screen of the letters of 24 rows.
#[tactic(auto, using(crate::proofs::Letters::decoded_ok, crate::proofs::Letters::decoded_err))]
fn rows_codes(alloc: Global, letters: &[u8]) -> Result<Option<[u8; 960]>, AllocError>
    ensures { IfOk result (λ screen. screen ≡ spec.rows_codes letters.now) }
{
    let usual = usual_letters(alloc, letters)?;
    match URL_SAFE_NO_PAD.decode(alloc, usual.as_slice()) {
        Ok(bytes) => cells_of(alloc, bytes.as_slice()),
        Err(DecodeAllocError::DecodeError(_)) => Ok(None),
        Err(DecodeAllocError::OutOfMemory) => Err(AllocError),
    }
}

// Whether an address with these letters has 24 rows.
fn has_link_size(letters: &[u8]) -> bool
    ensures value { result ≡ spec.has_link_size (length letters.now) }
    ensures long { result ≡ true → 1120 ≤ length letters.now }
{
    letters.len() == 1120 || letters.len() == 1167
}

/// The codes of the letters of an address, as edit.tf and zxnet write them: 1,120 letters are 24 rows, 1,167 have a row 24, which is
/// dropped. Other lengths, and other bytes than these letters, are no screen.
pub fn link_codes(alloc: Global, letters: &[u8]) -> Result<Option<[u8; 960]>, AllocError>
    ensures { IfOk result (λ screen. screen ≡ spec.link_codes letters.now) }
{
    if has_link_size(letters) {
        rows_codes(alloc, &letters[..1120])
    } else {
        Ok(None)
    }
}
