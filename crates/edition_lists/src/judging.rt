//! An edition is judged: by itself, beside the one that it follows, and beside the one that is served.

ghost use Rattle.std.specs.Prelude.{◌≡◌, true, None, IfOk, IfSome};
ghost use Rattle.edition_checks.specs.Served.{IsUnchanged};
ghost use Rattle.edition_lists.specs.Judged.{IsJudgedRight};
ghost use Rattle.edition_lists.specs.Loops.{IsKeptBefore, IfRight, IsRightNow};

use crate::fault::{EditionFlaw, FolderFault};
use crate::following::{follows_fault, passed_fault};
use crate::kept::{KeptEdition, read_kept};
use crate::sealing::own_fault;
use edition_checks::ServedFault;
use editions::EditionFolder;
use std::alloc::Global;

/// An edition that is right, or what is wrong with one.
#[derive(Drop)]
pub enum JudgedEdition {
    Right(KeptEdition),
    Wrong(EditionFlaw),
}

// What is wrong with an edition, by itself or beside others.
fn edition_fault<F: EditionFolder>(
    alloc: Global,
    folder: &mut F,
    numbers: &[u32],
    current: Option<u32>,
    edition: &KeptEdition,
    before: &Option<KeptEdition>,
) -> Result<Option<EditionFlaw>, FolderFault>
    requires held { (F.seen folder.old).held ≡ true }
    requires kept { IsKeptBefore (F.seen folder.old) before.now }
    ensures unchanged { IsUnchanged (F.seen folder.old) (F.seen folder.new) }
    ensures right { IfOk result (λ o. o ≡ None → IfSome (F.seen folder.old).state
        (λ f. IsJudgedRight f numbers.now current edition.now)) }
{
    if let Some(fault) = own_fault(alloc, folder, edition)? {
        return Ok(Some(fault));
    }
    if let Some(fault) = follows_fault(alloc, folder, numbers, edition, before)? {
        return Ok(Some(fault));
    }
    Ok(passed_fault(numbers, current, edition))
}

// What is wrong with an edition that doesn't read.
fn unread(fault: ServedFault) -> Result<EditionFlaw, FolderFault> {
    match fault {
        ServedFault::Missing(file) => Ok(EditionFlaw::Missing(file)),
        ServedFault::Unread(file) => Ok(EditionFlaw::Unread(file)),
        ServedFault::Folder => Err(FolderFault::Broken),
        ServedFault::Memory => Err(FolderFault::Memory),
    }
}

/// Reads an edition and judges it. `numbers` are those of all editions, `current` is the one that is served; `before`
/// is the edition that was read before it, if that is right.
pub fn judge_edition<F: EditionFolder>(
    alloc: Global,
    folder: &mut F,
    numbers: &[u32],
    current: Option<u32>,
    number: u32,
    before: &Option<KeptEdition>,
) -> Result<JudgedEdition, FolderFault>
    requires held { (F.seen folder.old).held ≡ true }
    requires kept { IsKeptBefore (F.seen folder.old) before.now }
    ensures unchanged { IsUnchanged (F.seen folder.old) (F.seen folder.new) }
    ensures right { IfOk result (λ j. IfRight j (IsRightNow (F.seen folder.old) numbers.now current number)) }
{
    let edition = match read_kept(alloc, folder, number) {
        Ok(edition) => edition,
        Err(fault) => return Ok(JudgedEdition::Wrong(unread(fault)?)),
    };
    match edition_fault(alloc, folder, numbers, current, &edition, before)? {
        None => Ok(JudgedEdition::Right(edition)),
        Some(fault) => Ok(JudgedEdition::Wrong(fault)),
    }
}
