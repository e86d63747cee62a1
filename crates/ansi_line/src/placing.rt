//! The screen, line by line.

ghost use Rattle.std.specs.Prelude.{◌≡◌, ◌++◌, IfOk, OnOk};
ghost use Rattle.ansi_line.specs.AnsiLines as spec;

use page_ids::push_number;
use screens::{push_ansi, screen_looks};
use std::alloc::{AllocError, Global};
use terminal_codes::Terminal;

// The last row of a screen; the first is 1.
const LAST_ROW: u8 = 24;

// Puts the cursor at the first column of a row, and erases what is there.
#[tactic(auto, using(std::proofs::Common::append_assoc))]
fn push_place(out: &mut Vec<u8>, row: u8) -> Result<(), AllocError>
    ensures { OnOk result (out.new.items ≡ out.old.items ++ spec.row_place row) }
{
    out.extend_from_slice(b"\x1b[")?;
    push_number(out, u64::from(row))?;
    out.extend_from_slice(b";1H")?;
    out.extend_from_slice(if row == LAST_ROW {
        b"\x1b[J"
    } else {
        b"\x1b[K"
    })
}

// One byte of a text of lines.
#[tactic(auto, using(std::proofs::Common::append_assoc))]
fn push_byte(out: &mut Vec<u8>, begins: bool, row: u8, byte: u8) -> Result<(), AllocError>
    ensures { OnOk result (out.new.items ≡ out.old.items ++
        (spec.before_byte (record { row = row; begins = begins }) ++ spec.byte_placed byte)) }
{
    if begins {
        push_place(out, row)?;
    }
    if byte != b'\n' {
        out.push(byte)?;
    }
    Ok(())
}

// The lines of a text, each after its place and without its end.
fn placed(alloc: Global, text: &[u8]) -> Result<Vec<u8>, AllocError>
    ensures { IfOk result (λ out. out.items ≡ spec.lines_placed spec.first_place text.now) }
{
    let mut out = Vec::new(alloc);
    let mut row = 1_u8;
    let mut begins = true;
    for byte in text {
        push_byte(&mut out, begins, row, *byte)?;
        begins = *byte == b'\n';
        if begins {
            row = row.saturating_add(1);
        }
    }
    Ok(out)
}

/// What a terminal of viewdata's shows, for a terminal of 24 rows and 80 columns with colours: the lines that `push_ansi` writes, each
/// after the control sequence CUP that places it and one that erases what else is in its row (EL), the last also what is below (ED).
/// None is followed by a line end.
pub fn screen_text(alloc: Global, terminal: &Terminal) -> Result<Vec<u8>, AllocError>
    ensures { IfOk result (λ text. text.items ≡ spec.screen_bytes terminal.now.cells) }
{
    let mut lines = Vec::new(alloc);
    push_ansi(&mut lines, &screen_looks(terminal.cells()))?;
    placed(alloc, lines.as_slice())
}
