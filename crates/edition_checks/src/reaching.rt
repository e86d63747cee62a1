//! From an edition to a later one, along what each of them follows.

ghost use Rattle.std.specs.Prelude.{◌≡◌, ◌<◌, ◌≤◌, Some, IfOk};
ghost use Rattle.editions.specs.Folders.{IsLater};
ghost use Rattle.edition_checks.specs.Served.{IfHeld};
ghost use Rattle.edition_checks.specs.NextEditions.{SaysFollows, IsNextEdition, IsEditionReached};

use crate::following::{Following, may_follow};
use crate::served::{Served, ServedFault, read_edition, read_follows};
use checker::{Verdict, check};
use editions::EditionFolder;
use std::alloc::Global;

/// Why an edition isn't reached from another.
#[derive(Debug, Clone, Copy, PartialEq, Eq)]
pub enum ReachFault {
    /// A file on the way is missing or doesn't read, a call of the folder failed, or a growth was refused.
    Unread,
    /// What the editions follow doesn't lead back to the first one.
    OtherBeginning,
    /// The check refuses an edition on the way, or a change.
    Refused,
}

impl From<ServedFault> for ReachFault {
    fn from(_fault: ServedFault) -> ReachFault {
        ReachFault::Unread
    }
}

// The number of the edition that follows one, on the way to a later one. It is looked for from the later one back.
fn number_after<F: EditionFolder>(
    alloc: Global,
    folder: &mut F,
    from: u32,
    to: u32,
) -> Result<u32, ReachFault>
    ensures later { IsLater (F.seen folder.old) (F.seen folder.new) }
    ensures follows { IfOk result (λ n. IfHeld (F.seen folder.old) (λ f. SaysFollows f n (Some from))) }
    ensures within { IfOk result (λ n. (from < n) × (n ≤ to)) }
{
    let mut number = to;
    while number > from {
        let Some(before) = read_follows(alloc, folder, number)? else {
            return Err(ReachFault::OtherBeginning);
        };
        if before == from {
            return Ok(number);
        }
        if before >= number {
            return Err(ReachFault::OtherBeginning);
        }
        number = before;
    }
    Err(ReachFault::OtherBeginning)
}

// The edition that follows one, on the way to a later one: the check clears it by its own policy, and the change to it.
fn edition_after<F: EditionFolder>(
    alloc: Global,
    folder: &mut F,
    old: &Served,
    to: u32,
) -> Result<Served, ReachFault>
    ensures later { IsLater (F.seen folder.old) (F.seen folder.new) }
    ensures next { IfOk result (IsNextEdition (F.seen folder.old) old.now) }
    ensures within { IfOk result (λ new. (old.now.number < new.number) × (new.number ≤ to)) }
{
    let number = number_after(alloc, folder, old.number, to)?;
    let new = read_edition(alloc, folder, number)?;
    if let Verdict::Refused(_) = check(&new.base, &new.policy, &new.cert) {
        return Err(ReachFault::Refused);
    }
    match may_follow(old, &new.base, &new.cert, &new.policy) {
        Following::Cleared => Ok(new),
        Following::OtherGroups | Following::Refused(_) => Err(ReachFault::Refused),
    }
}

/// Reads the edition of a later number, and before it those on the way to it, from what it follows back to the edition that is
/// given. Each has to be cleared by its own policy, and the change to each by the wider policy of the two.
///
/// Besides the given edition at most two are in memory at a time.
pub fn reach_edition<F: EditionFolder>(
    alloc: Global,
    folder: &mut F,
    served: &Served,
    number: u32,
) -> Result<Served, ReachFault>
    ensures later { IsLater (F.seen folder.old) (F.seen folder.new) }
    ensures reached { IfOk result (IsEditionReached (F.seen folder.old) served.now) }
    ensures number { IfOk result (λ new. new.number ≡ number) }
{
    let mut here = edition_after(alloc, folder, served, number)?;
    while here.number < number {
        here = edition_after(alloc, folder, &here, number)?;
    }
    Ok(here)
}
