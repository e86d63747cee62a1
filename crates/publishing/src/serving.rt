//! The edition that a folder serves. If a stop left the one that follows it, that one is made current first.

ghost use Rattle.std.specs.Prelude.{◌≡◌, ◌≤◌, true, false, Some, None, IfOk, IfSome};
ghost use Rattle.editions.specs.declared.edition_file.EditionFile.TheVariants.{Follows};
ghost use Rattle.editions.specs.declared.limits.TheConstants.{MOST_EDITION};
ghost use Rattle.editions.specs.Chains.{IsClearedEdition, IsClearedAgainst};
ghost use Rattle.editions.specs.Folders.{file_at};
ghost use Rattle.editions.specs.NumberLines.{number_line, follows_text};
ghost use Rattle.edition_checks.specs.Putting.{LeavesSound};
ghost use Rattle.edition_checks.specs.Served.{IsUnchanged, IsServed, served_view};
ghost use Rattle.publishing.specs.Loops.{IsLeftAfter};
ghost use Rattle.publishing.specs.Serving.{IsServedNow, ServesNow};

use crate::fault::{PublishFault, served_fault};
use checker::{ChangeVerdict, Verdict, check, check_change};
use edition_checks::{Served, ServedFault, read_served, wider_of};
use editions::{EditionFile, EditionStore, MOST_EDITION, current_in, follows_in, next_number};
use std::alloc::Global;

// Removes the parts that a stop left, unless nothing may be written.
fn remove_left_parts<S: EditionStore>(
    alloc: Global,
    store: &mut S,
    dry_run: bool,
) -> Result<(), PublishFault>
    requires { (S.seen store.old).held ≡ true }
    ensures sound { LeavesSound (S.seen store.old) (S.seen store.new) }
    ensures dry { dry_run ≡ true → (S.seen store.new).state ≡ (S.seen store.old).state }
{
    if dry_run {
        return Ok(());
    }
    Ok(store.remove_parts(alloc)?)
}

// The edition that the text of `current` names.
fn named_edition<S: EditionStore>(
    alloc: Global,
    store: &mut S,
    text: &[u8],
) -> Result<Served, PublishFault>
    requires { (S.seen store.old).held ≡ true }
    ensures unchanged { IsUnchanged (S.seen store.old) (S.seen store.new) }
    ensures served { IfOk result (λ s. IfSome (S.seen store.old).state (λ f. IsServed f s)) }
    ensures named { IfOk result (λ s. text.now ≡ number_line s.number) }
    ensures most { IfOk result (λ s. s.number ≤ MOST_EDITION) }
{
    let Some(number) = current_in(text) else {
        return Err(PublishFault::Current);
    };
    match read_served(alloc, store, number) {
        Ok(served) => Ok(served),
        Err(fault) => Err(served_fault(number, fault)),
    }
}

// The edition that `current` names, if there is one.
fn current_edition<S: EditionStore>(
    alloc: Global,
    store: &mut S,
) -> Result<Option<Served>, PublishFault>
    requires { (S.seen store.old).held ≡ true }
    ensures unchanged { IsUnchanged (S.seen store.old) (S.seen store.new) }
    ensures serves { IfOk result (λ served. IfSome (S.seen store.old).state (λ f. ServesNow f served)) }
{
    let Some(text) = store.read_current(alloc)? else {
        return Ok(None);
    };
    let served = named_edition(alloc, store, text.as_slice())?;
    Ok(Some(served))
}

// The greatest number of an edition, 0 if there is none.
fn greatest_number<S: EditionStore>(alloc: Global, store: &mut S) -> Result<u32, PublishFault>
    requires { (S.seen store.old).held ≡ true }
    ensures { IsUnchanged (S.seen store.old) (S.seen store.new) }
{
    let numbers = store.numbers(alloc)?;
    match next_number(numbers.as_slice()) {
        Some(number) => Ok(number.saturating_sub(1)),
        None => Ok(MOST_EDITION),
    }
}

// Whether an edition's own text says that it follows another.
fn says_follows<S: EditionStore>(
    alloc: Global,
    store: &mut S,
    number: u32,
    before: u32,
) -> Result<bool, PublishFault>
    requires { (S.seen store.old).held ≡ true }
    ensures unchanged { IsUnchanged (S.seen store.old) (S.seen store.new) }
    ensures says { IfOk result (λ b. b ≡ true → IfSome (S.seen store.old).state
        (λ f. file_at f number Follows ≡ Some (follows_text (Some before)))) }
{
    match store.read_file(alloc, number, EditionFile::Follows)? {
        Some(text) => Ok(is_follows(text.as_slice(), before)),
        None => Ok(false),
    }
}

fn is_follows(text: &[u8], before: u32) -> bool
    ensures { result ≡ true → text.now ≡ follows_text (Some before) }
{
    match follows_in(text) {
        Some(Some(number)) => number == before,
        _ => false,
    }
}

// An edition of the folder, if all its texts read.
fn whole_edition<S: EditionStore>(
    alloc: Global,
    store: &mut S,
    number: u32,
) -> Result<Option<Served>, PublishFault>
    requires { (S.seen store.old).held ≡ true }
    ensures unchanged { IsUnchanged (S.seen store.old) (S.seen store.new) }
    ensures whole { IfOk result (λ o. IfSome o (λ s. IfSome (S.seen store.old).state (λ f. IsServed f s))) }
    ensures number { IfOk result (λ o. IfSome o (λ s. s.number ≡ number)) }
{
    match read_served(alloc, store, number) {
        Ok(served) => Ok(Some(served)),
        Err(ServedFault::Folder) => Err(PublishFault::Folder),
        Err(ServedFault::Memory) => Err(PublishFault::Memory),
        Err(_) => Ok(None),
    }
}

fn is_cleared(left: &Served) -> bool
    ensures { result ≡ true → IsClearedEdition (served_view None left.now) }
{
    matches!(
        check(&left.base, &left.policy, &left.cert),
        Verdict::Cleared
    )
}

// Whether the check clears an edition, and the change to it.
fn is_cleared_after(served: &Served, left: &Served) -> bool
    ensures cleared { result ≡ true → IsClearedEdition (served_view None left.now) }
    ensures against { result ≡ true → IsClearedAgainst (served_view None served.now) (served_view None left.now) }
{
    let policy = wider_of(&served.policy, &left.policy);
    let change = check_change(&served.base, &served.cert, &left.base, &left.cert, &policy);
    is_cleared(left)
        && left.policy.groups.are_same(&served.policy.groups)
        && matches!(change, ChangeVerdict::Cleared)
}

// The edition of a number, if it follows the one that is served and all of it is right.
fn edition_after<S: EditionStore>(
    alloc: Global,
    store: &mut S,
    number: u32,
    served: &Served,
) -> Result<Option<Served>, PublishFault>
    requires held { (S.seen store.old).held ≡ true }
    requires most { number ≤ MOST_EDITION }
    ensures unchanged { IsUnchanged (S.seen store.old) (S.seen store.new) }
    ensures left { IfOk result (λ o. IfSome o (λ left. IfSome (S.seen store.old).state
        (λ f. IsLeftAfter f served.now left))) }
    ensures most { IfOk result (λ o. IfSome o (λ left. left.number ≤ MOST_EDITION)) }
{
    if !says_follows(alloc, store, number, served.number)? {
        return Ok(None);
    }
    match whole_edition(alloc, store, number)? {
        Some(left) if is_cleared_after(served, &left) => Ok(Some(left)),
        _ => Ok(None),
    }
}

// The edition that a stop left: that of the greatest number, if it follows the one that is served.
fn left_edition<S: EditionStore>(
    alloc: Global,
    store: &mut S,
    served: &Served,
) -> Result<Option<Served>, PublishFault>
    requires { (S.seen store.old).held ≡ true }
    ensures unchanged { IsUnchanged (S.seen store.old) (S.seen store.new) }
    ensures left { IfOk result (λ o. IfSome o (λ left. IfSome (S.seen store.old).state
        (λ f. IsLeftAfter f served.now left))) }
    ensures most { IfOk result (λ o. IfSome o (λ left. left.number ≤ MOST_EDITION)) }
{
    let number = greatest_number(alloc, store)?;
    if number <= MOST_EDITION && served.number < number {
        edition_after(alloc, store, number, served)
    } else {
        Ok(None)
    }
}

// Makes an edition current that a stop left, unless nothing may be written.
fn make_current<S: EditionStore>(
    alloc: Global,
    store: &mut S,
    left: Served,
    dry_run: bool,
) -> Result<Served, PublishFault>
    requires held { (S.seen store.old).held ≡ true }
    requires there { IfSome (S.seen store.old).state (λ f. IsServed f left) }
    requires most { left.number ≤ MOST_EDITION }
    ensures sound { LeavesSound (S.seen store.old) (S.seen store.new) }
    ensures dry { dry_run ≡ true → (S.seen store.new).state ≡ (S.seen store.old).state }
    ensures now { dry_run ≡ false → IfOk result (λ s. IfSome (S.seen store.new).state (λ f. IsServedNow f s)) }
{
    if dry_run {
        return Ok(left);
    }
    store.set_current(alloc, left.number)?;
    Ok(left)
}

// The edition that is served, after one that a stop left is made current.
fn finished<S: EditionStore>(
    alloc: Global,
    store: &mut S,
    served: Served,
    dry_run: bool,
) -> Result<Served, PublishFault>
    requires held { (S.seen store.old).held ≡ true }
    requires now { IfSome (S.seen store.old).state (λ f. IsServedNow f served) }
    ensures sound { LeavesSound (S.seen store.old) (S.seen store.new) }
    ensures dry { dry_run ≡ true → (S.seen store.new).state ≡ (S.seen store.old).state }
    ensures now { dry_run ≡ false → IfOk result (λ s. IfSome (S.seen store.new).state (λ f. IsServedNow f s)) }
{
    match left_edition(alloc, store, &served)? {
        Some(left) => make_current(alloc, store, left, dry_run),
        None => Ok(served),
    }
}

// The edition that is served, with the parts still there.
fn served_last<S: EditionStore>(
    alloc: Global,
    store: &mut S,
    dry_run: bool,
) -> Result<Option<Served>, PublishFault>
    requires { (S.seen store.old).held ≡ true }
    ensures sound { LeavesSound (S.seen store.old) (S.seen store.new) }
    ensures dry { dry_run ≡ true → (S.seen store.new).state ≡ (S.seen store.old).state }
    ensures serves { dry_run ≡ false → IfOk result (λ served. IfSome (S.seen store.new).state
        (λ f. ServesNow f served)) }
{
    let Some(served) = current_edition(alloc, store)? else {
        return Ok(None);
    };
    let served = finished(alloc, store, served, dry_run)?;
    Ok(Some(served))
}

/// The edition that is served, after the parts that a stop left are removed and an edition that it left is made current: whole,
/// cleared, and cleared against the one that `current` names. In a dry run the answer is the same, and nothing is written.
pub fn served_edition<S: EditionStore>(
    alloc: Global,
    store: &mut S,
    dry_run: bool,
) -> Result<Option<Served>, PublishFault>
    requires { (S.seen store.old).held ≡ true }
    ensures sound { LeavesSound (S.seen store.old) (S.seen store.new) }
    ensures dry { dry_run ≡ true → (S.seen store.new).state ≡ (S.seen store.old).state }
    ensures serves { dry_run ≡ false → IfOk result (λ served. IfSome (S.seen store.new).state
        (λ f. ServesNow f served)) }
{
    remove_left_parts(alloc, store, dry_run)?;
    served_last(alloc, store, dry_run)
}
