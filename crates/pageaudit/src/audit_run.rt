ghost use Rattle.std.specs.Prelude.{◌≡◌, ◌≢◌, Err, false};
ghost use Rattle.audit_report.specs.ReportLines.{report_text, IsReport};
ghost use Rattle.audit_report.specs.Statuses.{status_of_outcome};
ghost use Rattle.pageaudit.specs.Files.{device, IsTextWritten};
ghost use Rattle.pageaudit.specs.AuditRun.{IsAuditRun, IsAuditIntoRun, IsSplitWritten};

use crate::input::read_base;
use crate::output::write_text;
use audit_report::{RunFault, Sink, Source, Status, report};
use checker::Policy;
use fault_scripts::{Outcome, audit};
use std::alloc::Global;

// Writes the report of an outcome.
fn write_report<O: Sink>(alloc: Global, out: &mut O, outcome: &Outcome) -> Result<Status, RunFault>
    requires { (O.seen out.old).failed ≡ false }
    ensures written { IsTextWritten (device O.seen out.old out.new) (report_text outcome.now)
        (status_of_outcome outcome.now) result }
    ensures in_grammar { result ≢ Err RunFault.Memory → IsReport (report_text outcome.now) outcome.now }
{
    let text = report(alloc, outcome).map_err(|_| RunFault::Memory)?;
    write_text(out, text.as_slice(), Status::of_outcome(outcome))
}

/// Audits a base and writes the certificate, or every fault with the keys that show it.
///
/// The base is read whole and judged first. On every fault except `Write`, nothing was written. A device is not called
/// again after it returned an error.
pub fn run_audit<B: Source, O: Sink>(
    alloc: Global,
    base: &mut B,
    out: &mut O,
    policy: &Policy,
) -> Result<Status, RunFault>
    requires base_open { (B.seen base.old).failed ≡ false }
    requires out_open { (O.seen out.old).failed ≡ false }

    // A status: the base's file was read to its end, no device failed, and the report and its status are those of what was
    // read. A fault: the first one, of the base's file or of the output.
    ensures { IsAuditRun (device B.seen base.old base.new) (device O.seen out.old out.new) policy.now result }
{
    let base = read_base(alloc, base)?;
    let Ok(outcome) = audit(alloc, &base, policy) else {
        return Err(RunFault::Memory);
    };
    write_report(alloc, out, &outcome)
}

// Writes the report of an outcome: a certificate to its own file, faults to the output.
fn write_split<C: Sink, O: Sink>(
    alloc: Global,
    cert: &mut C,
    out: &mut O,
    outcome: &Outcome,
) -> Result<Status, RunFault>
    requires cert_open { (C.seen cert.old).failed ≡ false }
    requires out_open { (O.seen out.old).failed ≡ false }
    ensures written { IsSplitWritten (device C.seen cert.old cert.new)
        (device O.seen out.old out.new) outcome.now result }
    ensures in_grammar { result ≢ Err RunFault.Memory → IsReport (report_text outcome.now) outcome.now }
{
    match outcome {
        Outcome::Certified(_) => write_report(alloc, cert, outcome),
        Outcome::Faulty(_) => write_report(alloc, out, outcome),
    }
}

/// Audits a base and writes the certificate to a file of its own, or every fault to the output.
///
/// Otherwise as [`run_audit`]. `Write` is the fault of whichever of the two was written.
pub fn run_audit_into<B: Source, C: Sink, O: Sink>(
    alloc: Global,
    base: &mut B,
    cert: &mut C,
    out: &mut O,
    policy: &Policy,
) -> Result<Status, RunFault>
    requires base_open { (B.seen base.old).failed ≡ false }
    requires cert_open { (C.seen cert.old).failed ≡ false }
    requires out_open { (O.seen out.old).failed ≡ false }

    // As for `run_audit`. Of the two outputs at most one is written: the certificate's file if and only if there is one.
    ensures { IsAuditIntoRun (device B.seen base.old base.new) (device C.seen cert.old cert.new)
        (device O.seen out.old out.new) policy.now result }
{
    let base = read_base(alloc, base)?;
    let Ok(outcome) = audit(alloc, &base, policy) else {
        return Err(RunFault::Memory);
    };
    write_split(alloc, cert, out, &outcome)
}
