//! The form `ansi`.

ghost use Rattle.std.specs.Prelude.{◌≡◌, ◌++◌, ◌<◌, OnOk};
ghost use Rattle.screens.specs.Text.{seen_char};
ghost use Rattle.screens.specs.Ansi as spec;

use crate::ink::seen_char;
use crate::look::{Colour, Look};
use crate::screen::Looks;
use crate::writing::{Writing, push_char};
use page_ids::push_number;
use std::alloc::AllocError;

/// What is set in a line: no colour before the first cell.
#[derive(Debug, Clone, Copy, PartialEq, Eq)]
pub struct Pen {
    pub foreground: Option<Colour>,
    pub background: Option<Colour>,
    pub flash: bool,
}

// The control sequence SGR.
#[tactic(auto, using(std::proofs::Common::append_assoc))]
fn push_sgr(out: &mut Vec<u8>, number: u8) -> Result<(), AllocError>
    ensures { OnOk result (out.new.items ≡ out.old.items ++ spec.sgr number) }
{
    out.extend_from_slice(b"\x1b[")?;
    push_number(out, number as u64)?;
    out.extend_from_slice(b"m")
}

fn is_set(set: Option<Colour>, colour: Colour) -> bool
    ensures { result ≡ spec.is_set set colour }
{
    match set {
        None => false,
        Some(set) => set.number() == colour.number(),
    }
}

impl Pen {
    const UNSET: Pen = Pen {
        foreground: None,
        background: None,
        flash: false,
    };

    fn push_ground(&self, out: &mut Vec<u8>, colour: Colour) -> Result<(), AllocError>
        ensures { OnOk result (out.new.items ≡ out.old.items ++ spec.ground_bytes self.now colour) }
    {
        if is_set(self.background, colour) {
            return Ok(());
        }
        push_sgr(out, 40 + colour.number())
    }

    fn push_ink(&self, out: &mut Vec<u8>, colour: Colour) -> Result<(), AllocError>
        ensures { OnOk result (out.new.items ≡ out.old.items ++ spec.ink_bytes self.now colour) }
    {
        if is_set(self.foreground, colour) {
            return Ok(());
        }
        push_sgr(out, 30 + colour.number())
    }

    fn push_flash(&self, out: &mut Vec<u8>, flash: bool) -> Result<(), AllocError>
        ensures { OnOk result (out.new.items ≡ out.old.items ++ spec.flash_by self.now.flash flash) }
    {
        match (self.flash, flash) {
            (true, false) => push_sgr(out, 25),
            (false, true) => push_sgr(out, 5),
            (true, true) | (false, false) => Ok(()),
        }
    }

    #[tactic(auto, using(std::proofs::Common::append_assoc))]
    fn push_inked(&self, out: &mut Vec<u8>, look: &Look, c: char) -> Result<(), AllocError>
        requires { c ≡ seen_char look.now }
        ensures { OnOk result (out.new.items ≡ out.old.items ++ spec.inked self.now look.now) }
    {
        self.push_ground(out, look.background)?;
        self.push_ink(out, look.foreground)?;
        self.push_flash(out, look.flash)?;
        push_char(out, Writing::Plain, c)
    }

    #[tactic(auto, using(std::proofs::Common::append_assoc))]
    fn push_blank(&self, out: &mut Vec<u8>, look: &Look) -> Result<(), AllocError>
        ensures { OnOk result (out.new.items ≡ out.old.items ++ spec.blanked self.now look.now) }
    {
        self.push_ground(out, look.background)?;
        self.push_flash(out, false)?;
        out.extend_from_slice(b" ")
    }

    fn push_cell(&self, out: &mut Vec<u8>, look: &Look) -> Result<(), AllocError>
        ensures { OnOk result (out.new.items ≡ out.old.items ++ spec.cell_bytes self.now look.now) }
    {
        match seen_char(look) {
            ' ' => self.push_blank(out, look),
            c => self.push_inked(out, look, c),
        }
    }

    // What is set after a cell.
    fn after(&self, look: &Look) -> Pen
        ensures { result ≡ spec.pen_after self.now look.now }
    {
        let is_blank = seen_char(look) == ' ';
        Pen {
            foreground: if is_blank {
                self.foreground
            } else {
                Some(look.foreground)
            },
            background: Some(look.background),
            flash: look.flash && !is_blank,
        }
    }
}

fn push_row(out: &mut Vec<u8>, row: &[Look; 40]) -> Result<(), AllocError>
    ensures { OnOk result (out.new.items ≡ out.old.items ++ spec.cells_bytes spec.unset row.now) }
{
    let mut pen = Pen::UNSET;
    for look in row {
        pen.push_cell(out, look)?;
        pen = pen.after(look);
    }
    push_sgr(out, 0)?;
    out.extend_from_slice(b"\n")
}

/// Writes what the cells of a screen show in the colours of a terminal: 24 lines of 40 characters, with control sequences SGR
/// 30 to 37, 40 to 47, 5 (flash), 25 and 0 alone, one number in each. The background of each cell is set, and the foreground
/// of what isn't blank; a reset comes before each newline.
pub fn push_ansi(out: &mut Vec<u8>, looks: &Looks) -> Result<(), AllocError>
    ensures { OnOk result (out.new.items ≡ out.old.items ++ spec.ansi looks.now) }
{
    for row in looks.rows() {
        push_row(out, row)?;
    }
    Ok(())
}
