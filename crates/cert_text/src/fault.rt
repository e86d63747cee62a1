ghost use Rattle.std.specs.Prelude.{◌≡◌};
ghost use Rattle.cert_text.specs.declared.fault.LineFault.TheVariants as line;

use std::alloc::{AllocError, AllocFailed};
use thiserror::Error;

/// What is wrong with a line.
#[derive(Debug, Clone, Copy, PartialEq, Eq, Error)]
pub enum LineCause {
    /// Line 1 is neither `PBC1` nor `PBC2`.
    #[error("Magic")]
    Magic,
    /// The line doesn't begin with its word and one space, a row has not just two spaces or no frame's id, or a line
    /// up to `end` has a 129th byte.
    #[error("Word")]
    Word,
    /// Decimal digits without a leading zero are missing.
    #[error("Number")]
    Number,
    /// A number, of any length, above its limit; a group 0, or a 17th group.
    #[error("Range")]
    Range,
    /// The id of a row isn't greater than that of the row before, or a group isn't greater than the one before.
    #[error("Order")]
    Order,
    /// What follows the rank is no cursor.
    #[error("Cursor")]
    Cursor,
    /// `end` is in the place of a row, or another line in the place of `end`.
    #[error("Count")]
    Count,
    /// A byte follows the line `end`.
    #[error("Tail")]
    Tail,
    /// The text ends before the line does.
    #[error("Truncated")]
    Truncated,
}

/// Why no certificate is read.
#[derive(Debug, Clone, Copy, PartialEq, Eq, Error)]
pub enum ReadFault {
    /// L1: the first line at fault, from 1, and its cause.
    #[error("line {0}: {1}")]
    Line(u32, LineCause),
    /// L2: a call of this reader was refused before.
    #[error("failed")]
    Failed,
    /// Memory was refused.
    #[error("memory refused")]
    Memory,
}

/// Why a line that has come isn't taken; the cause is never `Truncated`.
#[derive(Clone, Copy)]
pub enum LineFault {
    Memory,
    Says(LineCause),
}

impl From<LineCause> for LineFault {
    ghost from_gives = { λ c e. e ≡ line.Says c };

    fn from(cause: LineCause) -> LineFault {
        LineFault::Says(cause)
    }
}

impl From<AllocError> for LineFault {
    ghost from_gives = { λ _ e. e ≡ line.Memory };

    fn from(_e: AllocError) -> LineFault {
        LineFault::Memory
    }
}

impl<T: Drop> From<AllocFailed<T>> for LineFault {
    ghost from_gives = { λ _ e. e ≡ line.Memory };

    fn from(_e: AllocFailed<T>) -> LineFault {
        LineFault::Memory
    }
}
