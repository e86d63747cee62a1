ghost use Rattle.std.specs.Prelude.{◌≡◌, ◌++◌, OnOk};
ghost use Rattle.lint_words.specs.Pieces.{counted};

use crate::piece::Piece::{Count, Text};
use crate::piece::Wording;
use std::alloc::AllocError;

/// Appends how many errors and warnings there are, as `3 errors, 1 warning`. A count of 0 is left out; for two of them
/// nothing is appended.
pub fn push_counted(out: &mut Vec<u8>, errors: usize, warnings: usize) -> Result<(), AllocError>
    ensures { OnOk result (out.new.items ≡ out.old.items ++ counted errors warnings) }
{
    let some_errors = Count(errors, "error", "errors");
    let some_warnings = Count(warnings, "warning", "warnings");
    if errors == 0 && warnings == 0 {
        Ok(())
    } else if warnings == 0 {
        out.say(&[some_errors])
    } else if errors == 0 {
        out.say(&[some_warnings])
    } else {
        out.say(&[some_errors, Text(", "), some_warnings])
    }
}
