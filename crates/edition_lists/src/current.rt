//! What `current` names, among the editions that are there.

ghost use Rattle.std.specs.Prelude.{◌≡◌, true, IfOk, IfSome};
ghost use Rattle.edition_checks.specs.Served.{IsUnchanged};
ghost use Rattle.edition_lists.specs.Currents as spec;

use crate::fault::FolderFault;
use editions::{EditionFolder, current_in};
use std::alloc::Global;

/// What `current` names.
#[derive(Debug, Clone, Copy, PartialEq, Eq)]
pub enum FoundCurrent {
    /// There is no such file.
    Nothing,
    /// The edition of this number, which is there.
    Edition(u32),
    /// The edition of this number, which isn't there.
    Lacking(u32),
    /// The text names no number: it may be half written.
    Unread,
}

/// The edition beside which the others are judged. If `current` names no number that is the last one, so that only one
/// line says so.
pub fn served_of(current: FoundCurrent, numbers: &[u32]) -> Option<u32>
    ensures { result ≡ spec.served_of current numbers.now }
{
    match current {
        FoundCurrent::Nothing => None,
        FoundCurrent::Edition(number) | FoundCurrent::Lacking(number) => Some(number),
        FoundCurrent::Unread => numbers.last().copied(),
    }
}

fn found_by_text(numbers: &[u32], text: &[u8]) -> FoundCurrent
    ensures { result ≡ spec.found_by_text numbers.now text.now }
{
    match current_in(text) {
        Some(number) if numbers.contains(&number) => FoundCurrent::Edition(number),
        Some(number) => FoundCurrent::Lacking(number),
        None => FoundCurrent::Unread,
    }
}

/// What `current` names, by the numbers of all editions.
pub fn read_current<F: EditionFolder>(
    alloc: Global,
    folder: &mut F,
    numbers: &[u32],
) -> Result<FoundCurrent, FolderFault>
    requires { (F.seen folder.old).held ≡ true }
    ensures unchanged { IsUnchanged (F.seen folder.old) (F.seen folder.new) }
    ensures found { IfOk result (λ current. IfSome (F.seen folder.old).state
        (λ f. current ≡ spec.found_current numbers.now f.current)) }
{
    match folder.read_current(alloc)? {
        Some(text) => Ok(found_by_text(numbers, text.as_slice())),
        None => Ok(FoundCurrent::Nothing),
    }
}
