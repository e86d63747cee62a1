//! Whether an edition may follow the one that it says it follows, and whether `current` was passed.

ghost use Rattle.std.specs.Prelude.{◌≡◌, ◌<◌, ◌≤◌, true, None, IfOk, IfSome};
ghost use Rattle.std.specs.List.{All};
ghost use Rattle.editions.specs.Chains.{IsClearedAgainst};
ghost use Rattle.edition_checks.specs.Served.{IsUnchanged};
ghost use Rattle.edition_lists.specs.Judged.{kept_view, IsAfterKept, IsFollowingKept, IsNumberWithin, IsWithinNumbers};
ghost use Rattle.edition_lists.specs.Loops.{IsKeptBefore};

use crate::fault::{EditionFlaw, FolderFault};
use crate::kept::{KeptEdition, read_kept};
use edition_checks::{Following, ServedFault, may_follow};
use editions::EditionFolder;
use std::alloc::Global;

// What is wrong with the change from an edition.
fn refused_change(old: &KeptEdition, new: &KeptEdition) -> Option<EditionFlaw>
    ensures { result ≡ None → IsClearedAgainst (kept_view old.now) (kept_view new.now) }
{
    let served = &new.served;
    match may_follow(&old.served, &served.base, &served.cert, &served.policy) {
        Following::Cleared => None,
        Following::OtherGroups => Some(EditionFlaw::OtherGroups(old.served.number)),
        Following::Refused(verdict) => {
            Some(EditionFlaw::ChangeRefused(old.served.number, verdict))
        }
    }
}

// What is wrong with the change from an edition: the one that was read before, or another one.
fn change_after<F: EditionFolder>(
    alloc: Global,
    folder: &mut F,
    edition: &KeptEdition,
    number: u32,
    before: &Option<KeptEdition>,
) -> Result<Option<EditionFlaw>, FolderFault>
    requires held { (F.seen folder.old).held ≡ true }
    requires before { number < edition.now.served.number }
    requires kept { IsKeptBefore (F.seen folder.old) before.now }
    ensures unchanged { IsUnchanged (F.seen folder.old) (F.seen folder.new) }
    ensures after { IfOk result (λ o. o ≡ None → IfSome (F.seen folder.old).state
        (λ f. IsAfterKept f edition.now number)) }
{
    match before {
        Some(old) if old.served.number == number => Ok(refused_change(old, edition)),
        _ => match read_kept(alloc, folder, number) {
            Ok(old) => Ok(refused_change(&old, edition)),
            Err(ServedFault::Folder) => Err(FolderFault::Broken),
            Err(ServedFault::Memory) => Err(FolderFault::Memory),
            Err(_) => Ok(Some(EditionFlaw::FollowsWrong(number))),
        },
    }
}

/// What is wrong with an edition beside the one that it follows. `before` is the edition that was read before it, if
/// that is right.
pub fn follows_fault<F: EditionFolder>(
    alloc: Global,
    folder: &mut F,
    numbers: &[u32],
    edition: &KeptEdition,
    before: &Option<KeptEdition>,
) -> Result<Option<EditionFlaw>, FolderFault>
    requires held { (F.seen folder.old).held ≡ true }
    requires kept { IsKeptBefore (F.seen folder.old) before.now }
    ensures unchanged { IsUnchanged (F.seen folder.old) (F.seen folder.new) }
    ensures follows { IfOk result (λ o. o ≡ None → IfSome (F.seen folder.old).state
        (λ f. IsFollowingKept f edition.now edition.now.follows)) }
{
    match edition.follows {
        None => Ok(None),
        Some(number) if number >= edition.served.number => {
            Ok(Some(EditionFlaw::FollowsLater(number)))
        }
        Some(number) if numbers.binary_search(&number).is_err() => {
            Ok(Some(EditionFlaw::FollowsNone(number)))
        },
        Some(number) => change_after(alloc, folder, edition, number, before),
    }
}

// Whether no number is greater.
fn is_last(numbers: &[u32], number: u32) -> bool
    ensures { result ≡ true → All (λ k. k ≤ number) numbers.now }
{
    numbers.iter().all(|one| *one <= number)
}

// Whether the edition that is served isn't passed by one that follows another: that one isn't after it, or is the last
// and follows it.
fn is_within(numbers: &[u32], served: u32, number: u32, follows: u32) -> bool
    ensures { result ≡ true → IsNumberWithin numbers.now served number follows }
{
    number <= served || (follows == served && is_last(numbers, number))
}

/// Whether an edition passes the one that is served: it follows another, and wasn't made current.
pub fn passed_fault(
    numbers: &[u32],
    served: Option<u32>,
    edition: &KeptEdition,
) -> Option<EditionFlaw>
    ensures { result ≡ None →
        IsWithinNumbers numbers.now served edition.now.served.number edition.now.follows }
{
    match (edition.follows, served) {
        (None, _) => None,
        (Some(follows), Some(served))
            if is_within(numbers, served, edition.served.number, follows) => { None }
        (Some(follows), _) => Some(EditionFlaw::Passed(follows)),
    }
}
