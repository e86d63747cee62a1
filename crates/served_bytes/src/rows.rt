//! The centre's rows, and the way back.

ghost use Rattle.std.specs.Prelude.{◌≡◌, ◌<◌, ◌≤◌, ◌++◌, OnOk, replicate};
ghost use Rattle.served_bytes.specs.Rows.{cell_in, text_row, top_bytes, bottom_bytes, back_bytes};

use std::alloc::AllocError;
use terminal_codes::Caret;

// The character of a text in a column: blank past its end, and for a code that is none.
fn cell_in(text: &[u8], column: usize) -> u8
    ensures { result ≡ cell_in text.now column }
{
    let code = text.get(column).copied().unwrap_or(0x20);
    if code >= 0x20 && code < 0x80 {
        code
    } else {
        0x20
    }
}

// 40 columns of a text.
#[tactic(auto, unfolding(crate::specs::Rows::text_row))]
fn push_row(out: &mut Vec<u8>, text: &[u8]) -> Result<(), AllocError>
    ensures { OnOk result (out.new.items ≡ out.old.items ++ text_row text.now) }
{
    for column in 0..40 {
        out.push(cell_in(text, column))?;
    }
    Ok(())
}

// Row 0.
#[tactic(auto, using(std::proofs::Common::append_assoc))]
pub fn push_top(out: &mut Vec<u8>, text: &[u8]) -> Result<(), AllocError>
    ensures { OnOk result (out.new.items ≡ out.old.items ++ top_bytes text.now) }
{
    out.push(0x1e)?;
    push_row(out, text)
}

// Row 23.
#[tactic(auto, using(std::proofs::Common::append_assoc))]
pub fn push_bottom(out: &mut Vec<u8>, text: &[u8]) -> Result<(), AllocError>
    ensures { OnOk result (out.new.items ≡ out.old.items ++ bottom_bytes text.now) }
{
    out.extend_from_slice(&[0x1e, 0x0b])?;
    push_row(out, text)
}

// A byte several times.
fn push_times(out: &mut Vec<u8>, count: u16, byte: u8) -> Result<(), AllocError>
    ensures { OnOk result (out.new.items ≡ out.old.items ++ replicate count byte) }
{
    for _ in 0..count {
        out.push(byte)?;
    }
    Ok(())
}

// The way back to where the frames left the terminal: at most 64 bytes.
#[tactic(auto, using(std::proofs::Common::append_assoc))]
pub fn push_back(out: &mut Vec<u8>, caret: Caret) -> Result<(), AllocError>
    ensures { OnOk result (out.new.items ≡ out.old.items ++ back_bytes caret) }
{
    out.push(0x1e)?;
    push_times(out, caret.at / 40, 0x0a)?;
    push_times(out, caret.at % 40, 0x09)?;
    if caret.pending {
        out.push(0x1b)?;
    }
    Ok(())
}
