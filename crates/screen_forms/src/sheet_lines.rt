//! The lines of TTI.

ghost use Rattle.std.specs.Prelude.{◌≡◌, ◌<◌, ◌++◌, ◌==◌, OnOk};
ghost use Rattle.std.specs.List.{flat_map, list_all};
ghost use Rattle.screen_forms.specs.Forms as spec;

use page_ids::{FrameId, Letter, PageNo, push_id, push_number};
use std::alloc::AllocError;

// The code of a cell.
fn push_cell(out: &mut Vec<u8>, code: u8) -> Result<(), AllocError>
    ensures { OnOk result (out.new.items ≡ out.old.items ++ spec.tti_cell code) }
{
    if code < 0x80 {
        out.extend_from_slice(&[code])
    } else {
        out.extend_from_slice(&[0x1B, code - 0x40])
    }
}

fn push_cells(out: &mut Vec<u8>, row: &[u8]) -> Result<(), AllocError>
    ensures { OnOk result (out.new.items ≡ out.old.items ++ flat_map spec.tti_cell row.now) }
{
    for code in row {
        push_cell(out, *code)?;
    }
    Ok(())
}

#[tactic(auto, using(std::proofs::Common::append_assoc))]
fn push_row_line(out: &mut Vec<u8>, number: usize, row: &[u8]) -> Result<(), AllocError>
    ensures { OnOk result (out.new.items ≡ out.old.items ++ spec.tti_row_line number row.now) }
{
    out.extend_from_slice(b"OL,")?;
    push_number(out, number as u64)?;
    out.extend_from_slice(b",")?;
    push_cells(out, row)?;
    out.extend_from_slice(b"\r\n")
}

fn is_blank(row: &[u8]) -> bool
    ensures { result ≡ list_all (λ c. c == 32) row.now }
{
    row.iter().all(|code| *code == b' ')
}

// Writes a row that isn't blank.
fn push_row(out: &mut Vec<u8>, codes: &[u8; 960], number: usize) -> Result<(), AllocError>
    requires { number < 24 }
    ensures { OnOk result (out.new.items ≡ out.old.items ++ spec.tti_row codes.now number) }
{
    let row = &codes[40 * number..40 * number + 40];
    if is_blank(row) {
        return Ok(());
    }
    push_row_line(out, number, row)
}

#[tactic(auto, using(crate::proofs::Pages::rows_more, crate::proofs::Pages::rows_none, std::proofs::Common::append_assoc))]
fn push_rows(out: &mut Vec<u8>, codes: &[u8; 960]) -> Result<(), AllocError>
    ensures { OnOk result (out.new.items ≡ out.old.items ++ spec.tti_rows codes.now 23 0) }
{
    for number in 0..23 {
        push_row(out, codes, number)?;
    }
    Ok(())
}

// The page of a teletext page number.
fn tti_page(page: PageNo) -> u32
    ensures { result ≡ spec.tti_page page }
{
    match page.get() {
        100..=899 => page.get(),
        _ => 100,
    }
}

// The place of a letter, in two digits.
fn tti_place(letter: Letter) -> [u8; 2]
    ensures { result ≡ spec.tti_place letter }
{
    let place = letter.get() - b'`';
    [b'0' + place / 10, b'0' + place % 10]
}

#[tactic(auto, using(std::proofs::Common::append_assoc))]
fn push_name(out: &mut Vec<u8>, id: FrameId) -> Result<(), AllocError>
    ensures { OnOk result (out.new.items ≡ out.old.items ++ spec.tti_name id) }
{
    out.extend_from_slice(b"DE,")?;
    push_id(out, id)?;
    out.extend_from_slice(b"\r\n")
}

#[tactic(auto, using(std::proofs::Common::append_assoc))]
fn push_page_number(out: &mut Vec<u8>, id: FrameId) -> Result<(), AllocError>
    ensures { OnOk result (out.new.items ≡ out.old.items ++ spec.tti_number id) }
{
    out.extend_from_slice(b"PN,")?;
    push_number(out, u64::from(tti_page(id.page)))?;
    out.extend_from_slice(&tti_place(id.letter))?;
    out.extend_from_slice(b"\r\n")
}

#[tactic(auto, using(std::proofs::Common::append_assoc))]
fn push_subpage(out: &mut Vec<u8>, id: FrameId) -> Result<(), AllocError>
    ensures { OnOk result (out.new.items ≡ out.old.items ++ spec.tti_subpage id) }
{
    out.extend_from_slice(b"SC,00")?;
    out.extend_from_slice(&tti_place(id.letter))?;
    out.extend_from_slice(b"\r\n")
}

#[tactic(auto, unfolding(crate::specs::Forms::tti_settings))]
fn push_settings(out: &mut Vec<u8>) -> Result<(), AllocError>
    ensures { OnOk result (out.new.items ≡ out.old.items ++ spec.tti_settings) }
{
    out.extend_from_slice(b"PS,8000\r\nRE,0\r\n")
}

// Writes the lines before the rows.
#[tactic(auto, using(std::proofs::Common::append_assoc))]
fn push_head(out: &mut Vec<u8>, id: FrameId) -> Result<(), AllocError>
    ensures { OnOk result (out.new.items ≡ out.old.items ++ spec.tti_head id) }
{
    push_name(out, id)?;
    push_page_number(out, id)?;
    push_subpage(out, id)?;
    push_settings(out)
}

// Writes the screen of a frame as TTI.
#[tactic(auto, using(std::proofs::Common::append_assoc))]
pub fn push_tti(out: &mut Vec<u8>, id: FrameId, codes: &[u8; 960]) -> Result<(), AllocError>
    ensures { OnOk result (out.new.items ≡ out.old.items ++ spec.tti_bytes id codes.now) }
{
    push_head(out, id)?;
    push_rows(out, codes)
}
