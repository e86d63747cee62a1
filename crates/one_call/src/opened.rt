//! The current edition of a folder, checked.

ghost use Rattle.std.specs.Prelude.{IfOk, IfErr};
ghost use Rattle.editions.specs.Folders.{IsLater};
ghost use Rattle.editions.specs.NumberLines.{current_in};
ghost use Rattle.edition_checks.specs.Served.{IfHeld};
ghost use Rattle.one_call.specs.Opened.{IsCurrentRead, IsToServe, NamesCurrent};
ghost use Rattle.one_call.specs.Loops.{IsEditionJudged, IsBeforeCheck, IsOpenRefused};

use crate::fault::CallFault;
use checker::{Verdict, check};
use edition_checks::{Served, ServedFault, read_edition};
use editions::{EditionFolder, StoreFault, current_in};
use std::alloc::Global;

// The number of the current edition.
pub fn current_number<F: EditionFolder>(alloc: Global, folder: &mut F) -> Result<u32, CallFault>
    ensures later { IsLater (F.seen folder.old) (F.seen folder.new) }
    ensures named { IfOk result (λ n. IfHeld (F.seen folder.old) (NamesCurrent n)) }
    ensures fault { IfErr result IsBeforeCheck }
{
    match folder.read_current(alloc) {
        Ok(Some(text)) => current_in(text.as_slice()).ok_or(CallFault::Unnamed),
        Ok(None) => Err(CallFault::Unpublished),
        Err(StoreFault::Broken) => Err(CallFault::Folder),
        Err(StoreFault::Memory) => Err(CallFault::Memory),
    }
}

// Why an edition isn't read.
fn read_fault(number: u32, fault: ServedFault) -> CallFault
    ensures { IsBeforeCheck result }
{
    match fault {
        ServedFault::Folder => CallFault::Folder,
        ServedFault::Memory => CallFault::Memory,
        ServedFault::Missing(_) | ServedFault::Unread(_) => CallFault::Edition(number, fault),
    }
}

// The current edition, before it is checked.
fn read_current<F: EditionFolder>(alloc: Global, folder: &mut F) -> Result<Served, CallFault>
    ensures later { IsLater (F.seen folder.old) (F.seen folder.new) }
    ensures read { IfOk result (IsCurrentRead (F.seen folder.old)) }
    ensures fault { IfErr result IsBeforeCheck }
{
    let number = current_number(alloc, folder)?;
    match read_edition(alloc, folder, number) {
        Ok(served) => Ok(served),
        Err(fault) => Err(read_fault(number, fault)),
    }
}

// The edition, if the check clears it by its own policy.
fn checked(served: Served) -> Result<Served, CallFault>
    ensures { IsEditionJudged served result }
{
    match check(&served.base, &served.policy, &served.cert) {
        Verdict::Cleared => Ok(served),
        Verdict::Refused(cause) => Err(CallFault::Refused(served.number, cause)),
    }
}

/// Reads the current edition and checks it by its own policy.
pub fn open_edition<F: EditionFolder>(alloc: Global, folder: &mut F) -> Result<Served, CallFault>
    ensures later { IsLater (F.seen folder.old) (F.seen folder.new) }
    ensures edition { IfOk result (IsToServe (F.seen folder.old)) }
    ensures fault { IfErr result (IsOpenRefused (F.seen folder.old)) }
{
    match read_current(alloc, folder) {
        Ok(served) => checked(served),
        Err(fault) => Err(fault),
    }
}
