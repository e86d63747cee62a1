//! The run that verifies a folder.

ghost use Rattle.std.specs.Prelude.{◌≡◌, ◌++◌, ◌∷◌, [], true, false, Ok, IfOk, IfSome};
ghost use Rattle.edition_checks.specs.Served.{IsUnchanged};
ghost use Rattle.edition_lists.specs.Findings.{AreFindings, IsFoundIn};
ghost use Rattle.edition_lists.specs.Findings as spec;
ghost use Rattle.edition_lists.specs.Loops as loops;
ghost use Rattle.edition_lists.specs.Runs.{IsVerification, IsRun};
ghost use Rattle.edition_lists.specs.FolderChains.{AreChainsSafe};
ghost use Rattle.edition_lists.specs.Verified.{IsVerifiedFolder};
ghost use Rattle.edition_lists.specs.Loops.{IsKeptBefore, IsRightNow, IfRight};

use crate::current::{FoundCurrent, read_current, served_of};
use crate::fault::{EditionsFault, FolderFault};
use crate::finding::{EditionFinding, are_right, note_of};
use crate::forks::first_fork;
use crate::judging::{JudgedEdition, judge_edition};
use crate::kept::KeptEdition;
use crate::numbers::sorted_numbers;
use crate::saying::{Said, say};
use crate::status::EditionsStatus;
use crate::verify_lines::verify_text;
use devices::Sink;
use editions::EditionStore;
use std::alloc::Global;

// Judges an edition, and adds what is found of it.
fn judge_next<S: EditionStore>(
    alloc: Global,
    store: &mut S,
    findings: &mut Vec<EditionFinding>,
    numbers: &[u32],
    served: Option<u32>,
    number: u32,
    before: &Option<KeptEdition>,
) -> Result<JudgedEdition, FolderFault>
    requires held { (S.seen store.old).held ≡ true }
    requires kept { IsKeptBefore (S.seen store.old) before.now }
    ensures unchanged { IsUnchanged (S.seen store.old) (S.seen store.new) }
    ensures right { IfOk result (λ j. IfRight j (IsRightNow (S.seen store.old) numbers.now served number)) }
    ensures added { IfOk result (λ j. findings.new.items ≡ findings.old.items ++ loops.finding_with number j ∷ []) }
{
    let judged = judge_edition(alloc, store, numbers, served, number, before)?;
    let note = note_of(&judged);
    match findings.push(EditionFinding { number, note }) {
        Ok(()) => Ok(judged),
        Err(_) => Err(FolderFault::Memory),
    }
}

// The edition that was read, if it is right.
fn kept_if_right(judged: JudgedEdition) -> Option<KeptEdition>
    ensures { result ≡ loops.kept_if_right judged }
{
    match judged {
        JudgedEdition::Right(edition) => Some(edition),
        JudgedEdition::Wrong(_) => None,
    }
}

// What is found of each edition. Two editions at most are in memory: one, and the one before it.
fn judge_all<S: EditionStore>(
    alloc: Global,
    store: &mut S,
    numbers: &[u32],
    served: Option<u32>,
) -> Result<Vec<EditionFinding>, FolderFault>
    requires { (S.seen store.old).held ≡ true }
    ensures unchanged { IsUnchanged (S.seen store.old) (S.seen store.new) }
    ensures found { IfOk result (λ findings. IfSome (S.seen store.old).state
        (λ f. AreFindings f numbers.now served numbers.now findings.items)) }
{
    let mut findings = Vec::new(alloc);
    let mut before = None;
    for number in numbers {
        let judged = judge_next(
            alloc,
            store,
            &mut findings,
            numbers,
            served,
            *number,
            &before,
        )?;
        before = kept_if_right(judged);
    }
    Ok(findings)
}

// What was found in a folder.
#[derive(Drop)]
struct FoundFolder {
    numbers: Vec<u32>,
    current: FoundCurrent,
    findings: Vec<EditionFinding>,
}

// What is found in a folder.
fn find_all<S: EditionStore>(alloc: Global, store: &mut S) -> Result<FoundFolder, FolderFault>
    requires { (S.seen store.old).held ≡ true }
    ensures unchanged { IsUnchanged (S.seen store.old) (S.seen store.new) }
    ensures found { IfOk result (λ found. IfSome (S.seen store.old).state
        (λ f. IsFoundIn f found.numbers.items found.current found.findings.items)) }
{
    let numbers = sorted_numbers(alloc, store)?;
    let current = read_current(alloc, store, numbers.as_slice())?;
    let served = served_of(current, numbers.as_slice());
    let findings = judge_all(alloc, store, numbers.as_slice(), served)?;
    Ok(FoundFolder {
        numbers,
        current,
        findings,
    })
}

fn is_right_current(current: FoundCurrent) -> bool
    ensures { result ≡ spec.is_right_current current }
{
    matches!(current, FoundCurrent::Nothing | FoundCurrent::Edition(_))
}

fn verify_status(current: FoundCurrent, findings: &[EditionFinding]) -> EditionsStatus
    ensures { result ≡ spec.verify_status current findings.now }
{
    if is_right_current(current) && are_right(findings) && first_fork(findings).is_none() {
        EditionsStatus::Cleared
    } else {
        EditionsStatus::Refused
    }
}

// Verifies a folder; what is to be printed of it.
fn verified<S: EditionStore>(
    alloc: Global,
    store: &mut S,
    folder: &str,
) -> Result<Said, FolderFault>
    requires { (S.seen store.old).held ≡ true }
    ensures unchanged { IsUnchanged (S.seen store.old) (S.seen store.new) }
    ensures said { IfOk result (λ said. IsVerification (S.seen store.old) folder.now said.text.items said.status) }
{
    let found = find_all(alloc, store)?;
    let findings = found.findings.as_slice();
    let served = served_of(found.current, found.numbers.as_slice());
    let status = verify_status(found.current, findings);
    let text = verify_text(alloc, folder, found.current, served, findings, status)?;
    Ok(Said { text, status })
}

/// Verifies a folder of editions. `folder` is its path, as it is printed before the files in it.
///
/// The folder's lock is held by the caller. In the order of their numbers, each edition is read, and compared with its
/// sums; the check is asked about it by its own policy, and about the change from the edition that it follows by the
/// wider of the two. What is wrong is printed, for each edition the first fault only, then the first edition that
/// another one comes between, the number of editions and the verdict. Two editions at most are in memory. The text is
/// written at the end, if the folder was read.
pub fn run_verify<S: EditionStore, O: Sink>(
    alloc: Global,
    store: &mut S,
    out: &mut O,
    folder: &str,
) -> Result<EditionsStatus, EditionsFault>
    requires held { (S.seen store.old).held ≡ true }
    requires out_open { (O.seen out.old).failed ≡ false }

    // It only reads.
    ensures unchanged { IsUnchanged (S.seen store.old) (S.seen store.new) }

    // What is printed, and the status.
    ensures run { IsRun (IsVerification (S.seen store.old) folder.now) (O.seen out.old) (O.seen out.new) result }

    // Cleared: each edition is whole, has its sums, and was cleared, by itself and against the one that it follows; no
    // two follow the same one; and `current` names the last edition of its chain, but for one that isn't served yet.
    ensures verified { result ≡ Ok EditionsStatus.Cleared → IfSome (S.seen store.old).state IsVerifiedFolder }

    // So callers, in whichever edition they began, were safe along its chain.
    ensures safe { result ≡ Ok EditionsStatus.Cleared → IfSome (S.seen store.old).state AreChainsSafe }
{
    match verified(alloc, store, folder) {
        Ok(said) => say(out, &said),
        Err(fault) => Err(EditionsFault::Folder(fault)),
    }
}
