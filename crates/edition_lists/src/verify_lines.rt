//! What `editions --verify` prints.

ghost use Rattle.std.specs.Prelude.{◌≡◌, ◌++◌, IfOk, OnOk};
ghost use Rattle.edition_lists.specs.VerifyLines as spec;

use crate::current::FoundCurrent;
use crate::fault::EditionFlaw;
use crate::finding::{EditionFinding, EditionNote};
use crate::forks::{Fork, first_fork};
use crate::numbered::push_numbered;
use crate::serving::{Serving, serving_of};
use crate::status::EditionsStatus;
use audit_report::{change_text, verdict_text};
use editions::EditionFile;
use page_ids::push_number;
use std::alloc::{AllocError, Global};

// The path of a file of an edition.
fn push_file(
    out: &mut Vec<u8>,
    folder: &str,
    number: u32,
    file: EditionFile,
) -> Result<(), AllocError>
    ensures { OnOk result (out.new.items ≡ out.old.items ++ spec.file_words folder.now number file) }
{
    out.extend_from_slice(folder.as_bytes())?;
    push_numbered(out, b"/editions/", number, b"/")?;
    out.extend_from_slice(file.name().as_bytes())?;
    out.extend_from_slice(b": ")
}

// What is wrong with a file of an edition.
fn push_wrong(
    out: &mut Vec<u8>,
    folder: &str,
    number: u32,
    file: EditionFile,
    wrong: &[u8],
) -> Result<(), AllocError>
    ensures { OnOk result (out.new.items ≡ out.old.items ++ (spec.file_words folder.now number file ++ wrong.now)) }
{
    push_file(out, folder, number, file)?;
    out.extend_from_slice(wrong)
}

fn sum_words(file: EditionFile) -> &'static [u8]
    ensures { result.now ≡ spec.sum_words file }
{
    match file {
        EditionFile::Sums => b"it lacks the sums of the other four files\n".as_slice(),
        _ => b"it was changed: its sum isn't the one in SHA256SUMS\n".as_slice(),
    }
}

// What is wrong with what an edition follows.
fn push_follows(
    out: &mut Vec<u8>,
    number: u32,
    follows: u32,
    wrong: &[u8],
) -> Result<(), AllocError>
    ensures { OnOk result (out.new.items ≡ out.old.items ++ spec.follows_line number follows wrong.now) }
{
    push_numbered(out, b"edition ", number, b" follows ")?;
    push_number(out, u64::from(follows))?;
    out.extend_from_slice(wrong)
}

// The line of what is wrong with an edition: it names the file, or the edition that it follows.
fn push_flaw(
    alloc: Global,
    out: &mut Vec<u8>,
    folder: &str,
    number: u32,
    flaw: &EditionFlaw,
) -> Result<(), AllocError>
    ensures { OnOk result (out.new.items ≡ out.old.items ++ spec.flaw_line folder.now number flaw.now) }
{
    match flaw {
        EditionFlaw::Missing(file) => push_wrong(out, folder, number, *file, b"no such file\n"),
        EditionFlaw::Unread(file) => {
            push_wrong(out, folder, number, *file, b"it isn't what was published\n")
        }
        EditionFlaw::Sum(file) => push_wrong(out, folder, number, *file, sum_words(*file)),
        EditionFlaw::Refused(verdict) => {
            let line = verdict_text(alloc, verdict)?;
            push_wrong(out, folder, number, EditionFile::Cert, line.as_slice())
        }
        EditionFlaw::FollowsNone(k) => push_follows(out, number, *k, b", which isn't there\n"),
        EditionFlaw::FollowsLater(k) => {
            push_follows(out, number, *k, b", which isn't before it\n")
        }
        EditionFlaw::FollowsWrong(k) => {
            push_follows(out, number, *k, b", which isn't what was published\n")
        }
        EditionFlaw::OtherGroups(k) => {
            push_follows(out, number, *k, b", and its policy has other groups\n")
        }
        EditionFlaw::ChangeRefused(k, verdict) => {
            push_follows(out, number, *k, b": ")?;
            out.extend_from_slice(change_text(alloc, verdict)?.as_slice())
        }
        EditionFlaw::Passed(k) => {
            push_follows(out, number, *k, b", and is after the one that is served\n")
        }
    }
}

// What is printed of an edition: nothing, unless it is wrong or isn't served yet.
fn push_finding(
    alloc: Global,
    out: &mut Vec<u8>,
    folder: &str,
    served: Option<u32>,
    finding: &EditionFinding,
) -> Result<(), AllocError>
    ensures { OnOk result (out.new.items ≡ out.old.items ++ spec.finding_line folder.now served finding.now) }
{
    let number = finding.number;
    match &finding.note {
        EditionNote::Right(follows) => match (serving_of(served, number, *follows), *follows) {
            (Serving::NotYet, Some(follows)) => {
                push_follows(out, number, follows, b", and isn't served yet\n")
            }
            _ => Ok(()),
        },
        EditionNote::Wrong(flaw) => push_flaw(alloc, out, folder, number, flaw),
    }
}

fn findings_text(
    alloc: Global,
    folder: &str,
    served: Option<u32>,
    findings: &[EditionFinding],
) -> Result<Vec<u8>, AllocError>
    ensures { IfOk result (λ text. text.items ≡ spec.findings_text folder.now served findings.now) }
{
    let mut out = Vec::new(alloc);
    for finding in findings {
        push_finding(alloc, &mut out, folder, served, finding)?;
    }
    Ok(out)
}

fn push_fork(out: &mut Vec<u8>, fork: Option<Fork>) -> Result<(), AllocError>
    ensures { OnOk result (out.new.items ≡ out.old.items ++ spec.fork_line fork) }
{
    match fork {
        Some(fork) => {
            push_follows(out, fork.number, fork.follows, b"")?;
            push_numbered(
                out,
                b", but edition ",
                fork.between,
                b" comes between them\n",
            )
        }
        None => Ok(()),
    }
}

// What is wrong with `current`.
fn push_current(out: &mut Vec<u8>, folder: &str, current: FoundCurrent) -> Result<(), AllocError>
    ensures { OnOk result (out.new.items ≡ out.old.items ++ spec.current_line folder.now current) }
{
    match current {
        FoundCurrent::Lacking(number) => {
            out.extend_from_slice(folder.as_bytes())?;
            push_numbered(out, b"/current: edition ", number, b" isn't there\n")
        }
        FoundCurrent::Unread => {
            out.extend_from_slice(folder.as_bytes())?;
            out.extend_from_slice(b"/current: has to hold an edition's number and a line end\n")
        }
        _ => Ok(()),
    }
}

fn push_count(out: &mut Vec<u8>, count: usize) -> Result<(), AllocError>
    ensures { OnOk result (out.new.items ≡ out.old.items ++ spec.count_words count) }
{
    push_number(out, count as u64)?;
    if count == 1 {
        out.extend_from_slice(b" edition")
    } else {
        out.extend_from_slice(b" editions")
    }
}

fn push_served(out: &mut Vec<u8>, current: FoundCurrent) -> Result<(), AllocError>
    ensures { OnOk result (out.new.items ≡ out.old.items ++ spec.served_words current) }
{
    match current {
        FoundCurrent::Nothing => out.extend_from_slice(b"; none is served\n"),
        FoundCurrent::Edition(number) => push_numbered(out, b"; edition ", number, b" is served\n"),
        FoundCurrent::Lacking(number) => push_numbered(out, b"; edition ", number, b" is served\n"),
        FoundCurrent::Unread => out.extend_from_slice(b"\n"),
    }
}

fn status_line(status: EditionsStatus) -> &'static [u8]
    ensures { result.now ≡ spec.status_line status }
{
    match status {
        EditionsStatus::Listed => b"".as_slice(),
        EditionsStatus::Cleared => b"CLEARED\n".as_slice(),
        EditionsStatus::Refused => b"REFUSED\n".as_slice(),
    }
}

// How many editions there are, which is served, and the verdict.
fn push_end(
    out: &mut Vec<u8>,
    count: usize,
    current: FoundCurrent,
    status: EditionsStatus,
) -> Result<(), AllocError>
    ensures { OnOk result (out.new.items ≡
        out.old.items ++ (spec.count_words count ++ (spec.served_words current ++ spec.status_line status))) }
{
    push_count(out, count)?;
    push_served(out, current)?;
    out.extend_from_slice(status_line(status))
}

/// What is printed of a folder: what is wrong with `current` and with each edition, in the order of their numbers, and
/// which one isn't served yet; how many editions there are, and the verdict.
pub fn verify_text(
    alloc: Global,
    folder: &str,
    current: FoundCurrent,
    served: Option<u32>,
    findings: &[EditionFinding],
    status: EditionsStatus,
) -> Result<Vec<u8>, AllocError>
    ensures { IfOk result (λ text. text.items ≡ spec.verify_text folder.now current served findings.now status) }
{
    let lines = findings_text(alloc, folder, served, findings)?;
    let mut out = Vec::new(alloc);
    push_current(&mut out, folder, current)?;
    out.extend_from_slice(lines.as_slice())?;
    push_fork(&mut out, first_fork(findings))?;
    push_end(&mut out, findings.len(), current, status)?;
    Ok(out)
}
