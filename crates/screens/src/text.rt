//! The form `text`.

ghost use Rattle.std.specs.Prelude.{◌≡◌, ◌++◌, ◌∷◌, [], replicate, OnOk};
ghost use Rattle.screens.specs.Writing.{written};
ghost use Rattle.screens.specs.Text.{line, text};

use crate::ink::seen_char;
use crate::look::Look;
use crate::screen::Looks;
use crate::writing::{Writing, push_char};
use std::alloc::AllocError;

// A character after this many spaces.
#[tactic(auto, using(crate::proofs::Lines::put_last, crate::proofs::Lines::put_more))]
fn push_after(out: &mut Vec<u8>, writing: Writing, spaces: usize, c: char) -> Result<(), AllocError>
    ensures { OnOk result (out.new.items ≡ out.old.items ++ written writing (replicate spaces 0x20 ++ c ∷ [])) }
{
    for _ in 0..spaces {
        push_char(out, writing, ' ')?;
    }
    push_char(out, writing, c)
}

// The line of a row, with its newline.
fn push_line(out: &mut Vec<u8>, writing: Writing, row: &[Look; 40]) -> Result<(), AllocError>
    ensures { OnOk result (out.new.items ≡ out.old.items ++ written writing (line row.now ++ 10 ∷ [])) }
{
    let mut spaces = 0;
    for look in row {
        let c = seen_char(look);
        if c == ' ' {
            spaces += 1;
        } else {
            push_after(out, writing, spaces, c)?;
            spaces = 0;
        }
    }
    push_char(out, writing, '\n')
}

/// Writes what the cells of a screen show: 24 lines, without spaces at their ends, each ended by a newline. Concealed cells and
/// lower halves are spaces; a mosaic is one of the characters for legacy computing, from U+1FB00 on, or a half or full block.
pub fn push_text(out: &mut Vec<u8>, looks: &Looks, writing: Writing) -> Result<(), AllocError>
    ensures { OnOk result (out.new.items ≡ out.old.items ++ written writing (text looks.now)) }
{
    for row in looks.rows() {
        push_line(out, writing, row)?;
    }
    Ok(())
}
