ghost use Rattle.std.specs.Prelude.{◌≡◌, false, IfOk};
ghost use Rattle.pageaudit.specs.Files.{device};
ghost use Rattle.pageaudit.specs.LintRun.{AreCounted, IsLintRun, all_count, lint_number, reaches};

use crate::output::write_text;
use crate::status::status_of;
use audit_report::{RunFault, Sink, Source, SourceFault, read_whole};
use base_text::MOST_TEXT;
use checker::Policy;
use finding_forms::{Format, findings_text};
use lint::{Counts, Finding, Ignored, Level, lint, remove_warnings};
use std::alloc::{AllocError, Global};

/// Which findings count, which are written, and how.
#[derive(Debug, Clone, Copy)]
pub struct LintReport {
    pub format: Format,
    /// These warnings don't count and aren't written.
    pub ignored: Ignored,
    /// Whether warnings count and aren't written.
    pub is_quiet: bool,
}

impl LintReport {
    /// All findings count and are written in this form.
    pub fn all(format: Format) -> LintReport
        ensures { result ≡ record { format = format; ignored = all_count; is_quiet = false } }
    {
        LintReport {
            format,
            ignored: Ignored::NONE,
            is_quiet: false,
        }
    }
}

// The findings of a text that count, and how many there are.
fn counted(
    alloc: Global,
    text: &[u8],
    policy: &Policy,
    ignored: Ignored,
) -> Result<(Vec<Finding>, Counts), AllocError>
    ensures { IfOk result (λ r. AreCounted text.now policy.now ignored r.0.items r.1) }
{
    let mut findings = lint(alloc, text, policy)?;
    ignored.remove_from(&mut findings);
    let counts = Counts::of(findings.as_slice());
    Ok((findings, counts))
}

/// Finds every fault of a base's file, and what is worth a warning, and writes of them what the report asks for under the path that is
/// given; if there is nothing to write, nothing is written. The answer counts the findings that aren't ignored.
///
/// The file is read whole first: one byte more than a base may have is enough. A fault of its text is a finding and no fault of
/// the run. On every fault except `Write`, nothing was written. A device is not called again after it returned an error.
pub fn run_lint<B: Source, O: Sink>(
    alloc: Global,
    base: &mut B,
    out: &mut O,
    path: &str,
    policy: &Policy,
    report: &LintReport,
) -> Result<Counts, RunFault>
    requires base_open { (B.seen base.old).failed ≡ false }
    requires out_open { (O.seen out.old).failed ≡ false }
    ensures { IsLintRun (device B.seen base.old base.new)
        (device O.seen out.old out.new) path.now policy.now report.now result }
{
    let text = match read_whole(alloc, base, MOST_TEXT + 1) {
        Ok(text) => text,
        Err(SourceFault::Broken) => return Err(RunFault::ReadBase),
        Err(SourceFault::Memory) => return Err(RunFault::Memory),
    };
    let Ok((mut findings, counts)) = counted(alloc, text.as_slice(), policy, report.ignored) else {
        return Err(RunFault::Memory);
    };
    if report.is_quiet {
        remove_warnings(&mut findings);
    }
    match findings_text(
        alloc,
        report.format,
        path.as_bytes(),
        text.as_slice(),
        findings.as_slice(),
    ) {
        Ok(lines) => write_text(out, lines.as_slice(), counts),
        Err(_) => Err(RunFault::Memory),
    }
}

// Whether there is a finding of this level or a worse one.
fn reaches(counts: &Counts, level: Level) -> bool
    ensures { result ≡ reaches level counts.now }
{
    match level {
        Level::Error => counts.errors > 0,
        Level::Warning => counts.errors > 0 || counts.warnings > 0,
    }
}

/// The program's exit status after lint: 1 if there is a finding of the denied level or a worse one, else 0; of a fault as
/// `status_of`.
pub fn status_of_lint(run: &Result<Counts, RunFault>, denied: Level) -> u8
    ensures { result ≡ lint_number denied run.now }
{
    match run {
        Ok(counts) if reaches(counts, denied) => 1,
        Ok(_) => 0,
        Err(fault) => status_of(&Err(*fault)),
    }
}
