//! The command `lint`: one base after another, and one count at the end.

use crate::fix_files::{fixed_text, print_diff, print_text, replace_text};
use crate::reports::report;
use audit_report::{FromRead, IntoWrite, RunFault};
use command_words::{Colouring, Fixing, Lint};
use disk_files::{Unfinished, ended, is_input, open_base, shows_colours};
use pageaudit::{Counts, Format, LintReport, counted_text, run_lint, status_of_lint};
use std::alloc::Global;
use std::io;
use std::rt::{Env, Files, Stderr};

// What was found and done in all.
#[derive(Clone, Copy)]
struct Sum {
    counts: Counts,
    fixes: usize,
    // Whether a diff was printed.
    differs: bool,
}

impl Sum {
    fn add(&mut self, more: &Sum) {
        self.counts.errors = self.counts.errors.saturating_add(more.counts.errors);
        self.counts.warnings = self.counts.warnings.saturating_add(more.counts.warnings);
        self.fixes = self.fixes.saturating_add(more.fixes);
        self.differs = self.differs || more.differs;
    }
}

const NOTHING: Sum = Sum {
    counts: Counts {
        errors: 0,
        warnings: 0,
    },
    fixes: 0,
    differs: false,
};

fn found(counts: Counts, fixes: usize) -> Sum {
    Sum {
        counts,
        fixes,
        differs: false,
    }
}

// The findings of a base.
fn lint_path<R: Files + Input + Print + AllocGlobal>(
    rt: &R,
    path: &str,
    asked: &Lint,
    how: &LintReport,
) -> Result<Sum, Unfinished> {
    match open_base(rt, path) {
        Ok(base) => {
            let mut base = FromRead::new(base);
            let mut out = IntoWrite::new(io::writer(rt));
            let run = run_lint(rt.alloc(), &mut base, &mut out, path, &asked.policy, how);
            match ended(run, &out) {
                Ok(counts) => Ok(found(counts, 0)),
                Err(unfinished) => Err(unfinished),
            }
        }
        Err(unfinished) => Err(unfinished),
    }
}

// The findings of a text that was fixed.
fn lint_text<W: io::Write + Drop>(
    alloc: Global,
    out: W,
    path: &str,
    text: &[u8],
    asked: &Lint,
    how: &LintReport,
) -> Result<Counts, Unfinished> {
    let mut base = FromRead::new(text);
    let mut out = IntoWrite::new(out);
    let run = run_lint(alloc, &mut base, &mut out, path, &asked.policy, how);
    ended(run, &out)
}

// Fixes a base, and finds what is left. Of standard input the text is printed, and the findings on standard error.
fn fix_path<R: Files + Input + Print + AllocGlobal>(
    rt: &R,
    errors: &Stderr,
    path: &str,
    asked: &Lint,
    how: &LintReport,
) -> Result<Sum, Unfinished> {
    let (base, fixed) = match fixed_text(rt, path, &asked.policy) {
        Ok(texts) => texts,
        Err(unfinished) => return Err(unfinished),
    };
    let text = fixed.text.as_slice();
    let counts = if is_input(path) {
        match print_text(rt, text) {
            Ok(()) => lint_text(rt.alloc(), io::writer(errors), path, text, asked, how),
            Err(unfinished) => Err(unfinished),
        }
    } else if fixed.fixes == 0 {
        lint_text(rt.alloc(), io::writer(rt), path, text, asked, how)
    } else {
        match replace_text(rt, path, &base, text) {
            Ok(()) => lint_text(rt.alloc(), io::writer(rt), path, text, asked, how),
            Err(unfinished) => Err(unfinished),
        }
    };
    match counts {
        Ok(counts) => Ok(found(counts, fixed.fixes)),
        Err(unfinished) => Err(unfinished),
    }
}

// Prints what would be fixed in a base. If that is nothing, its findings are counted.
fn diff_path<R: Files + Input + Print + AllocGlobal>(
    rt: &R,
    path: &str,
    asked: &Lint,
    how: &LintReport,
) -> Result<Sum, Unfinished> {
    match print_diff(rt, path, &asked.policy) {
        Ok(Some(text)) => {
            match lint_text(rt.alloc(), io::sink(), path, text.as_slice(), asked, how) {
                Ok(counts) => Ok(found(counts, 0)),
                Err(unfinished) => Err(unfinished),
            }
        }
        Ok(None) => Ok(Sum {
            differs: true,
            ..NOTHING
        }),
        Err(unfinished) => Err(unfinished),
    }
}

// The numbers of fixes and findings, if there are some. Without memory for the line it isn't printed: the findings are.
fn print_sum<R: Eprint + AllocGlobal>(rt: &R, fixing: Fixing, sum: &Sum) {
    let Ok(text) = counted_text(rt.alloc(), &sum.counts) else {
        return;
    };
    let Ok(line) = str::from_utf8(text.as_slice()) else {
        return;
    };
    let _ = match (fixing, sum.fixes, line.is_empty()) {
        (Fixing::Shown, _, false) => eprint!(rt; "nothing to fix, {line}"),
        (_, 0, _) => eprint!(rt; "{line}"),
        (_, fixes, true) => eprintln!(rt; "{fixes} fixed"),
        (_, fixes, false) => eprint!(rt; "{fixes} fixed, {line}"),
    };
}

/// Prints the numbers of findings, if there are some. Without memory for the line it isn't printed: the findings are.
pub fn print_counts<R: Eprint + AllocGlobal>(rt: &R, counts: &Counts) {
    print_sum(rt, Fixing::None, &found(*counts, 0));
}

// What is printed of findings: the form `full` is in colour if it was asked for, or suits standard output.
fn report_of<R: Files + Env + AllocGlobal>(rt: &R, asked: &Lint) -> Result<LintReport, RunFault> {
    let is_coloured = match (asked.format, asked.colouring) {
        (Format::Full, Colouring::Always) => true,
        (Format::Full, Colouring::Auto) => shows_colours(rt)?,
        _ => false,
    };
    let format = if is_coloured {
        Format::Coloured
    } else {
        asked.format
    };
    Ok(LintReport {
        format,
        ignored: asked.ignored,
        is_quiet: asked.is_quiet,
    })
}

/// Prints the findings of each base, or what would be fixed in it, and on standard error how many fixes and findings there are in
/// all, unless it is to be quiet or there is a diff; the exit status. A base that can't be read or replaced is named there and makes
/// the status 3, and the others are judged. Nothing is judged after a write that failed or memory that was refused.
pub fn lint<R: Files + Env + Input + Print + Eprint + AllocGlobal>(
    rt: &R,
    errors: Stderr,
    asked: &Lint,
) -> u8 {
    match report_of(rt, asked) {
        Ok(report) => lint_bases(rt, errors, asked, report),
        Err(fault) => report(rt, "output", &Unfinished::Fault(fault)),
    }
}

// The exit status of bases that were all read: of diffs 1 if there is one.
fn end_status(asked: &Lint, sum: &Sum) -> u8 {
    match asked.fixing {
        Fixing::Shown => u8::from(sum.differs),
        _ => status_of_lint(&Ok(sum.counts), asked.denied),
    }
}

fn lint_bases<R: Files + Input + Print + Eprint + AllocGlobal>(
    rt: &R,
    errors: Stderr,
    asked: &Lint,
    how: LintReport,
) -> u8 {
    let mut sum = NOTHING;
    let mut failed = None;
    for path in asked.bases {
        let done = match asked.fixing {
            Fixing::None => lint_path(rt, path, asked, &how),
            Fixing::Made => fix_path(rt, &errors, path, asked, &how),
            Fixing::Shown => diff_path(rt, path, asked, &how),
        };
        match done {
            Ok(more) => sum.add(&more),
            Err(unfinished) => {
                let status = report(rt, path, &unfinished);
                match unfinished {
                    Unfinished::Unread(_) | Unfinished::Unwritten(_) => failed = Some(status),
                    _ => return status,
                }
            }
        }
    }
    if !how.is_quiet && !sum.differs {
        print_sum(rt, asked.fixing, &sum);
    }
    failed.unwrap_or(end_status(asked, &sum))
}
