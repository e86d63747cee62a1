//! Colours in a terminal.

ghost use Rattle.std.specs.Prelude.{◌≡◌, ◌++◌, OnOk};
ghost use Rattle.finding_forms.specs.Paints as spec;

use lint::Level;
use std::alloc::AllocError;

/// Whether the lines of a finding are in colour.
#[derive(Debug, Clone, Copy)]
pub enum Paint {
    Plain,
    /// The carets are in the colour of this level.
    Of(Level),
}

/// A colour: it is bold.
#[derive(Debug, Clone, Copy)]
pub enum Shade {
    /// That of the terminal.
    White,
    Blue,
    Red,
    Yellow,
}

/// What begins a colour.
pub fn begin_shade(shade: Shade) -> &'static [u8]
    ensures { result.now ≡ spec.begin_shade shade }
{
    match shade {
        Shade::White => b"\x1b[1m",
        Shade::Blue => b"\x1b[1;34m",
        Shade::Red => b"\x1b[1;31m",
        Shade::Yellow => b"\x1b[1;33m",
    }
}

/// Ends a colour.
pub fn push_end_shade(out: &mut Vec<u8>) -> Result<(), AllocError>
    ensures { OnOk result (out.new.items ≡ out.old.items ++ spec.end_shade) }
{
    out.extend_from_slice(b"\x1b[0m")
}

/// The colour of a level.
pub fn level_shade(level: Level) -> Shade
    ensures { result ≡ spec.level_shade level }
{
    match level {
        Level::Error => Shade::Red,
        Level::Warning => Shade::Yellow,
    }
}

impl Paint {
    /// Begins the colour of a line's number.
    pub fn push_begin_number(self, out: &mut Vec<u8>) -> Result<(), AllocError>
        ensures { OnOk result (out.new.items ≡ out.old.items ++ spec.begin_number self) }
    {
        match self {
            Paint::Plain => Ok(()),
            Paint::Of(_) => out.extend_from_slice(begin_shade(Shade::Blue)),
        }
    }

    /// Begins the colour of carets.
    pub fn push_begin_carets(self, out: &mut Vec<u8>) -> Result<(), AllocError>
        ensures { OnOk result (out.new.items ≡ out.old.items ++ spec.begin_carets self) }
    {
        match self {
            Paint::Plain => Ok(()),
            Paint::Of(level) => out.extend_from_slice(begin_shade(level_shade(level))),
        }
    }

    /// Ends a colour.
    pub fn push_end(self, out: &mut Vec<u8>) -> Result<(), AllocError>
        ensures { OnOk result (out.new.items ≡ out.old.items ++ spec.end_paint self) }
    {
        match self {
            Paint::Plain => Ok(()),
            Paint::Of(_) => push_end_shade(out),
        }
    }
}
