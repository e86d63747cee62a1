//! The run that lists a folder.

ghost use Rattle.std.specs.Prelude.{◌≡◌, true, false, IfOk, IfSome};
ghost use Rattle.edition_checks.specs.Served.{IsUnchanged};
ghost use Rattle.edition_lists.specs.Kept.{IsKeptEdition};
ghost use Rattle.edition_lists.specs.Judged.{AreNumbersOf};
ghost use Rattle.edition_lists.specs.Currents.{served_of};
ghost use Rattle.edition_lists.specs.Rows.{IsRowOf, AreEditionRows, AreListedIn, is_read};
ghost use Rattle.edition_lists.specs.Runs.{IsEditionsText, IsRun};
ghost use Rattle.edition_lists.specs.Loops.{AddsRow};

use crate::current::{FoundCurrent, read_current, served_of};
use crate::fault::{EditionsFault, FolderFault, kept_fault};
use crate::kept::{KeptEdition, read_kept};
use crate::list_lines::list_text;
use crate::numbers::sorted_numbers;
use crate::rows::{EditionRow, row_of};
use crate::saying::{Said, say};
use crate::status::EditionsStatus;
use devices::Sink;
use editions::EditionStore;
use std::alloc::Global;

// The edition of a number, which has to read.
fn read_one<S: EditionStore>(
    alloc: Global,
    store: &mut S,
    number: u32,
) -> Result<KeptEdition, FolderFault>
    requires { (S.seen store.old).held ≡ true }
    ensures unchanged { IsUnchanged (S.seen store.old) (S.seen store.new) }
    ensures kept { IfOk result (λ e. IfSome (S.seen store.old).state (λ f. IsKeptEdition f e)) }
    ensures number { IfOk result (λ e. e.served.number ≡ number) }
{
    read_kept(alloc, store, number).map_err(|fault| kept_fault(number, fault))
}

// The edition that another one follows, if it is there.
fn read_followed<S: EditionStore>(
    alloc: Global,
    store: &mut S,
    numbers: &[u32],
    edition: &KeptEdition,
) -> Result<Option<KeptEdition>, FolderFault>
    requires { (S.seen store.old).held ≡ true }
    ensures { IsUnchanged (S.seen store.old) (S.seen store.new) }
{
    match edition.follows {
        Some(number) if numbers.binary_search(&number).is_ok() => {
            Ok(Some(read_one(alloc, store, number)?))
        }
        _ => Ok(None),
    }
}

// The row of an edition, beside the one that it follows: the one that was read before it, or another one.
fn row_after<S: EditionStore>(
    alloc: Global,
    store: &mut S,
    numbers: &[u32],
    served: Option<u32>,
    edition: &KeptEdition,
    before: &Option<KeptEdition>,
) -> Result<EditionRow, FolderFault>
    requires { (S.seen store.old).held ≡ true }
    ensures unchanged { IsUnchanged (S.seen store.old) (S.seen store.new) }
    ensures row { IfOk result (IsRowOf numbers.now served edition.now) }
{
    match before {
        Some(old) if edition.follows == Some(old.served.number) => {
            Ok(row_of(alloc, numbers, served, edition, Some(old))?)
        }
        _ => {
            let old = read_followed(alloc, store, numbers, edition)?;
            Ok(row_of(alloc, numbers, served, edition, old.as_ref())?)
        }
    }
}

// Reads an edition, and adds its row.
fn list_next<S: EditionStore>(
    alloc: Global,
    store: &mut S,
    rows: &mut Vec<EditionRow>,
    numbers: &[u32],
    served: Option<u32>,
    number: u32,
    before: &Option<KeptEdition>,
) -> Result<KeptEdition, FolderFault>
    requires { (S.seen store.old).held ≡ true }
    ensures unchanged { IsUnchanged (S.seen store.old) (S.seen store.new) }
    ensures kept { IfOk result (λ e. IfSome (S.seen store.old).state (λ f. IsKeptEdition f e)) }
    ensures number { IfOk result (λ e. e.served.number ≡ number) }
    ensures row { IfOk result (λ e. AddsRow numbers.now served e rows.old.items rows.new.items) }
{
    let edition = read_one(alloc, store, number)?;
    let row = row_after(alloc, store, numbers, served, &edition, before)?;
    match rows.push(row) {
        Ok(()) => Ok(edition),
        Err(_) => Err(FolderFault::Memory),
    }
}

// A row for each edition. Two editions at most are in memory.
fn list_all<S: EditionStore>(
    alloc: Global,
    store: &mut S,
    numbers: &[u32],
    served: Option<u32>,
) -> Result<Vec<EditionRow>, FolderFault>
    requires { (S.seen store.old).held ≡ true }
    ensures unchanged { IsUnchanged (S.seen store.old) (S.seen store.new) }
    ensures rows { IfOk result (λ rows. IfSome (S.seen store.old).state
        (λ f. AreEditionRows f numbers.now served numbers.now rows.items)) }
{
    let mut rows = Vec::new(alloc);
    let mut before = None;
    for number in numbers {
        let edition = list_next(alloc, store, &mut rows, numbers, served, *number, &before)?;
        before = Some(edition);
    }
    Ok(rows)
}

// The edition that is served; a `current` that names no number is a fault.
fn named_number(current: FoundCurrent, numbers: &[u32]) -> Result<Option<u32>, FolderFault>
    ensures read { IfOk result (λ _. is_read current ≡ true) }
    ensures number { IfOk result (λ served. served ≡ served_of current numbers.now) }
{
    match current {
        FoundCurrent::Unread => Err(FolderFault::Current),
        _ => Ok(served_of(current, numbers)),
    }
}

// The rows of a folder, by the numbers of its editions.
fn list_by<S: EditionStore>(
    alloc: Global,
    store: &mut S,
    numbers: &[u32],
) -> Result<Vec<EditionRow>, FolderFault>
    requires held { (S.seen store.old).held ≡ true }
    requires all { IfSome (S.seen store.old).state (λ f. AreNumbersOf f numbers.now) }
    ensures unchanged { IsUnchanged (S.seen store.old) (S.seen store.new) }
    ensures rows { IfOk result (λ rows. IfSome (S.seen store.old).state (λ f. AreListedIn f numbers.now rows.items)) }
{
    let current = read_current(alloc, store, numbers)?;
    let served = named_number(current, numbers)?;
    list_all(alloc, store, numbers, served)
}

// Lists a folder; what is to be printed of it.
fn listed<S: EditionStore>(alloc: Global, store: &mut S) -> Result<Said, FolderFault>
    requires { (S.seen store.old).held ≡ true }
    ensures unchanged { IsUnchanged (S.seen store.old) (S.seen store.new) }
    ensures said { IfOk result (λ said. IsEditionsText (S.seen store.old) said.text.items said.status) }
{
    let numbers = sorted_numbers(alloc, store)?;
    let rows = list_by(alloc, store, numbers.as_slice())?;
    let text = list_text(alloc, numbers.as_slice(), rows.as_slice())?;
    Ok(Said {
        text,
        status: EditionsStatus::Listed,
    })
}

/// Lists the editions of a folder, a line for each, in the order of their numbers.
///
/// The folder's lock is held by the caller. A line has the edition's number, whether it is served, what it follows, its
/// frames and what changed from the edition that it follows. An edition of which a file is missing or doesn't read ends
/// the run. Two editions at most are in memory. The text is written at the end; how it says what changed is tested, not
/// proved.
pub fn run_list<S: EditionStore, O: Sink>(
    alloc: Global,
    store: &mut S,
    out: &mut O,
) -> Result<EditionsStatus, EditionsFault>
    requires held { (S.seen store.old).held ≡ true }
    requires out_open { (O.seen out.old).failed ≡ false }

    // It only reads.
    ensures unchanged { IsUnchanged (S.seen store.old) (S.seen store.new) }

    // What is printed.
    ensures run { IsRun (IsEditionsText (S.seen store.old)) (O.seen out.old) (O.seen out.new) result }
{
    match listed(alloc, store) {
        Ok(said) => say(out, &said),
        Err(fault) => Err(EditionsFault::Folder(fault)),
    }
}
