ghost use Rattle.std.specs.Prelude.{◌≡◌, IfOk, MatchOption};
ghost use Rattle.frame_records.specs.Bases.{IsBase};
ghost use Rattle.finder.specs.Finds.{EntryIsFound, IsFinding};
ghost use Rattle.fault_scripts.specs.Faults.{AreFaults};
ghost use Rattle.fault_scripts.specs.Loops.{IsWhole, IsTableInOrder, IsSortedTable};
ghost use Rattle.fault_scripts.specs.Outcomes.{AreAllFaults, IsOutcome, DecidesSafety, AreShown};

use crate::fault::{FaultList, plain_fault};
use crate::frames::{Judge, judge_all};
use crate::outcome::Outcome;
use crate::table::GatheredRows;
use base_faults::FaultKind;
use cert_table::Certificate;
use checker::Policy;
use finder::Survey;
use frame_records::{Base, Groups, Sought};
use std::alloc::{AllocError, Global};

// The one fault of a base whose entry frame isn't found; `None` if it is found.
fn entry_fault(alloc: Global, base: &Base, policy: &Policy) -> Result<Option<FaultList>, AllocError>
    ensures fault { IfOk result (λ list.
        MatchOption list (EntryIsFound policy.now.groups base.now) (AreAllFaults base.now policy.now)) }
    ensures valid { IsBase base.now }
{
    let entry = base.entry_frame();
    let kind = match base.seek(entry, &policy.groups) {
        Sought::Missing => FaultKind::EntryMissing,
        Sought::Closed => FaultKind::EntryClosed,
        Sought::Found(_) => return Ok(None),
    };
    let mut faults = Vec::new(alloc);
    faults.push(plain_fault(alloc, kind, entry, &[])?)?;
    Ok(Some(FaultList::of(faults)))
}

// All discovered frames, judged.
fn judged(alloc: Global, survey: &Survey, policy: &Policy) -> Result<Judge, AllocError>
    requires valid { IsBase survey.now.base }
    requires groups { survey.now.groups ≡ policy.now.groups }
    requires finding { IsFinding policy.now.groups survey.now.base survey.now.found }
    ensures { IfOk result (IsWhole survey.now.base policy.now) }
{
    let judge = judge_all(alloc, survey, policy)?;
    Ok(judge)
}

// The certificate of a table's rows, in the order of their ids.
fn certificate_of(base: &Base, groups: &Groups, table: GatheredRows) -> Certificate
    requires { IsTableInOrder table.rows.items }
    ensures { IsSortedTable base.now groups.now table result }
{
    let mut rows = table.rows;
    rows.sort_unstable_by_key(|row| row.id);
    Certificate::of(
        base.entry(),
        table.ceiling,
        table.keyings,
        groups.copy(),
        rows,
    )
}

/// The faults of a base whose frames a survey found for the policy's groups, as [`faults`] finds them.
pub fn faults_surveyed(
    alloc: Global,
    survey: &Survey,
    policy: &Policy,
) -> Result<FaultList, AllocError>
    requires groups { survey.now.groups ≡ policy.now.groups }
    requires finding { IsFinding policy.now.groups survey.now.base survey.now.found }
    ensures { IfOk result (AreFaults survey.now.base policy.now) }
{
    match entry_fault(alloc, survey.base(), policy)? {
        Some(faults) => Ok(faults),
        None => Ok(FaultList::of(judged(alloc, survey, policy)?.reporter.faults)),
    }
}

/// Every fault of a base, for a caller who is in the policy's groups and no others.
///
/// The faults are in the order of the discovery of their frames, and within a frame Price, Touches, Missing and Closed by key
/// (`0` to `9`, `#`), NoReturn. If the entry frame is missing or closed, that is the one fault.
pub fn faults(alloc: Global, base: &Base, policy: &Policy) -> Result<FaultList, AllocError>
    ensures { IfOk result (AreFaults base.now policy.now) }
{
    let survey = Survey::of(alloc, base, &policy.groups)?;
    faults_surveyed(alloc, &survey, policy)
}

// The outcome of a base whose entry frame is found.
fn outcome_found(alloc: Global, survey: &Survey, policy: &Policy) -> Result<Outcome, AllocError>
    requires valid { IsBase survey.now.base }
    requires found { EntryIsFound policy.now.groups survey.now.base }
    requires groups { survey.now.groups ≡ policy.now.groups }
    requires finding { IsFinding policy.now.groups survey.now.base survey.now.found }
    ensures { IfOk result (IsOutcome survey.now.base policy.now) }
{
    let judge = judged(alloc, survey, policy)?;
    if judge.reporter.faults.as_slice().is_empty() {
        Ok(Outcome::Certified(certificate_of(survey.base(), &policy.groups, judge.table)))
    } else {
        Ok(Outcome::Faulty(FaultList::of(judge.reporter.faults)))
    }
}

/// The outcome for a base whose frames a survey found for the policy's groups, as [`audit`] gives it.
pub fn audit_surveyed(
    alloc: Global,
    survey: &Survey,
    policy: &Policy,
) -> Result<Outcome, AllocError>
    requires groups { survey.now.groups ≡ policy.now.groups }
    requires finding { IsFinding policy.now.groups survey.now.base survey.now.found }
    ensures is { IfOk result (IsOutcome survey.now.base policy.now) }
    ensures valid { IsBase survey.now.base }
{
    match entry_fault(alloc, survey.base(), policy)? {
        Some(faults) => Ok(Outcome::Faulty(faults)),
        None => outcome_found(alloc, survey, policy),
    }
}

/// Audits a base for a caller of exactly the policy's groups: a certificate if and only if every session is
/// safe within the policy, else every fault.
///
/// The certificate covers exactly the frames that can be reached, with least ranks, the greatest price of a covered frame as
/// its ceiling, the greatest rank as its keyings, and the policy's groups; `check` clears it. Each frame is painted once.
pub fn audit(alloc: Global, base: &Base, policy: &Policy) -> Result<Outcome, AllocError>
    ensures outcome { IfOk result (IsOutcome base.now policy.now) }
    ensures safety { IfOk result (DecidesSafety base.now policy.now) }
    ensures shown { IfOk result (AreShown base.now policy.now) }
{
    let survey = Survey::of(alloc, base, &policy.groups)?;
    audit_surveyed(alloc, &survey, policy)
}
