//! The lints.

use crate::expected::{ALL, policy, sink, source, taken};
use audit_report::RunFault;
use checker::Policy;
use pageaudit::{Counts, Format, Ignored, Level, LintReport, run_lint, status_of_lint};
use std::alloc::Global;
use std::test::Fail;
use test_support::same_in;

const TEXT: &str = "entry = 1\n[[frame]]\nid = \"1a\"\nrows = []\nroutes = { 3 = 4 }\n";

const LINE: &str =
    "x/b.toml:5:12: error: MISSING: key 3 of frame 1a leads to page 4, which has no frame a (keys 3); write frame 4a, or list 4 in outside\n";

// What a lint answers, its status, how often the file is read and the output flushed, and how many bytes of the line are taken.
type Linted = (Result<Counts, RunFault>, u8, u32, u32, usize);

fn linted(alloc: Global, kept: usize, room: usize, policy: &Policy) -> Linted {
    let mut base = source(TEXT, ALL, kept);
    let mut out = sink(alloc, LINE, room);
    let answer = run_lint(
        alloc,
        &mut base,
        &mut out,
        "x/b.toml",
        policy,
        &LintReport::all(Format::Line),
    );
    let status = status_of_lint(&answer, Level::Error);
    (answer, status, base.calls, out.flushes, taken(&out, LINE))
}

#[test]
fn findings_are_written_under_the_path(rt: HostRuntime) -> Result<(), Fail> {
    let counts = Counts {
        errors: 1,
        warnings: 0,
    };
    let got = linted(rt.alloc(), ALL, ALL, &policy(50, 3)?);
    same_in("all", got, (Ok(counts), 1, 2, 1, LINE.len()))
}

// Nothing is asked for after a read that fails, a write that fails and a flush that fails.
#[test]
fn a_lint_that_fails_asks_for_no_more(rt: HostRuntime) -> Result<(), Fail> {
    let policy = policy(50, 3)?;
    let rows: [(usize, usize, Linted); 5] = [
        (0, ALL, (Err(RunFault::ReadBase), 3, 1, 0, 0)),
        (5, ALL, (Err(RunFault::ReadBase), 3, 2, 0, 0)),
        (ALL, 0, (Err(RunFault::Write(0)), 3, 2, 0, 0)),
        (ALL, 7, (Err(RunFault::Write(7)), 3, 2, 0, 7)),
        (
            ALL,
            LINE.len(),
            (Err(RunFault::Write(LINE.len() as u64)), 3, 2, 1, LINE.len()),
        ),
    ];
    for (kept, room, wanted) in rows {
        let got = linted(rt.alloc(), kept, room, &policy);
        same_in((kept, room), got, wanted)?;
    }
    Ok(())
}

// A text that is no base is a finding: the file was read to its end, and the line is flushed once.
#[test]
fn a_text_at_fault_is_read_once(rt: HostRuntime) -> Result<(), Fail> {
    let line = "b.toml:1:1: error: X4 Absent: the base needs a key 'entry', its page\n";
    let mut base = source("", ALL, ALL);
    let mut out = sink(rt.alloc(), line, ALL);
    let answer = run_lint(
        rt.alloc(),
        &mut base,
        &mut out,
        "b.toml",
        &policy(50, 3)?,
        &LintReport::all(Format::Line),
    );
    let got = (
        status_of_lint(&answer, Level::Error),
        base.calls,
        out.flushes,
    );
    same_in("no entry", got, (1, 1, 1))
}

// How many errors and warnings there are, which level is denied, and the status.
const STATUSES: [(usize, usize, Level, u8); 6] = [
    (0, 0, Level::Warning, 0),
    (0, 1, Level::Error, 0),
    (0, 1, Level::Warning, 1),
    (1, 0, Level::Error, 1),
    (1, 0, Level::Warning, 1),
    (2, 3, Level::Error, 1),
];

#[test]
fn warnings_count_if_they_are_denied() -> Result<(), Fail> {
    for (errors, warnings, denied, status) in STATUSES {
        let counts = Counts { errors, warnings };
        same_in(
            (errors, warnings),
            status_of_lint(&Ok(counts), denied),
            status,
        )?;
    }
    Ok(())
}

// A text with two warnings.
const WARNED: &str =
    "entry = 1\n[[frame]]\nid = \"1a\"\nrows = ['\\u0081']\n[[frame]]\nid = \"2a\"\nrows = []\n";

const UNREACHED: &str =
    "b.toml:6:6: warning: UNREACHED: no key leads to frame 2a from the entry page\n";

// The numbers of findings, the exit status if warnings count, and how many bytes of the line are written.
fn reported(
    alloc: Global,
    report: &LintReport,
) -> Result<(Result<Counts, RunFault>, u8, usize), Fail> {
    let mut base = source(WARNED, ALL, ALL);
    let mut out = sink(alloc, UNREACHED, ALL);
    let answer = run_lint(
        alloc,
        &mut base,
        &mut out,
        "b.toml",
        &policy(50, 3)?,
        report,
    );
    let status = status_of_lint(&answer, Level::Warning);
    Ok((answer, status, taken(&out, UNREACHED)))
}

#[test]
fn ignored_warnings_do_not_count_and_quiet_ones_are_not_written(
    rt: HostRuntime,
) -> Result<(), Fail> {
    let all = LintReport::all(Format::Line);
    let counts = |warnings| {
        Ok(Counts {
            errors: 0,
            warnings,
        })
    };
    let escape = Ignored {
        escape: true,
        ..Ignored::NONE
    };
    let one = LintReport {
        ignored: escape,
        ..all
    };
    same_in(
        "one",
        reported(rt.alloc(), &one)?,
        (counts(1), 1, UNREACHED.len()),
    )?;
    let none = LintReport {
        ignored: Ignored {
            unreached: true,
            ..escape
        },
        ..all
    };
    same_in("none", reported(rt.alloc(), &none)?, (counts(0), 0, 0))?;
    let quiet = LintReport {
        is_quiet: true,
        ..all
    };
    same_in("quiet", reported(rt.alloc(), &quiet)?, (counts(2), 1, 0))
}
