//! The edition that a caller is served, while others are published.

ghost use Rattle.std.specs.Prelude.{◌≢◌, IfSome};
ghost use Rattle.editions.specs.Folders.{IsLater};
ghost use Rattle.edition_checks.specs.Served.{IfHeld};
ghost use Rattle.edition_checks.specs.NextEditions.{IsEditionReached};
ghost use Rattle.one_call.specs.Loops.{IsRenewed};
ghost use Rattle.one_call.specs.Opened.{NamesCurrent};

use crate::log::CallLog;
use crate::opened::current_number;
use edition_checks::{ReachFault, Served, reach_edition};
use editions::EditionFolder;
use std::alloc::Global;

// The edition that `current` names, if it names another than is served, and that is reached. The number of one that never will be is
// remembered, and passed over as long as `current` names it.
fn new_edition<F: EditionFolder>(
    alloc: Global,
    folder: &mut F,
    served: &Served,
    refused: &mut Option<u32>,
) -> Option<Served>
    ensures later { IsLater (F.seen folder.old) (F.seen folder.new) }
    ensures reached { IfSome result (IsEditionReached (F.seen folder.old) served.now) }
    ensures current { IfSome result (λ new. IfHeld (F.seen folder.old) (NamesCurrent new.number)) }
    ensures other { IfSome result (λ new. new.number ≢ served.now.number) }
{
    let Ok(number) = current_number(alloc, folder) else {
        return None;
    };
    if *refused == Some(number) {
        return None;
    }
    *refused = None;
    if number == served.number {
        return None;
    }
    match reach_edition(alloc, folder, served, number) {
        Ok(new) => Some(new),
        Err(ReachFault::Unread) => None,
        Err(ReachFault::OtherBeginning | ReachFault::Refused) => {
            *refused = Some(number);
            None
        }
    }
}

/// Looks at `current`. If it names an edition to which callers may be taken, that one is served from now on.
pub fn renew<F: EditionFolder, L: CallLog>(
    alloc: Global,
    folder: &mut F,
    served: &mut Served,
    refused: &mut Option<u32>,
    log: &mut L,
)
    ensures later { IsLater (F.seen folder.old) (F.seen folder.new) }
    ensures renewed { IsRenewed (F.seen folder.old) served.old served.new }
{
    if let Some(new) = new_edition(alloc, folder, served, refused) {
        log.changes(new.number);
        *served = new;
    }
}
