//! Why a call isn't served, or not to its end.

use checker::Cause;
use edition_checks::ServedFault;

/// Why a call of an edition stopped before its end.
#[derive(Debug, Clone, Copy, PartialEq, Eq)]
pub enum ServeFault {
    /// The entry frame isn't found. No edition that is cleared is so.
    NotOpened,
    /// The line can't be read, or 2^64 - 1 bytes of it were.
    Read,
    /// The line can't be written.
    Write,
    /// A growth was refused.
    Memory,
}

/// Why a folder's edition isn't served, or not to the call's end. The folder's `current` is read first, then the edition's files,
/// then the edition is checked.
#[derive(Clone, Copy)]
pub enum CallFault {
    /// Nothing is published: there is no `current`.
    Unpublished,
    /// `current` names no edition. One that is half written names none.
    Unnamed,
    /// The folder can't be read.
    Folder,
    /// A file of the edition is missing or doesn't read.
    Edition(u32, ServedFault),
    /// The check refuses the edition.
    Refused(u32, Cause),
    /// The call began, and stopped before its end.
    Line(ServeFault),
    /// A growth was refused before the call began.
    Memory,
}
