ghost use Rattle.std.specs.Prelude.{◌≡◌, false};
ghost use Rattle.audit_report.specs.Lines.{verdict_text};
ghost use Rattle.audit_report.specs.Statuses.{status_of_verdict};
ghost use Rattle.pageaudit.specs.Files.{device, IsTextWritten};
ghost use Rattle.pageaudit.specs.CheckRun.{IsCheckRun, HoldsOfFiles};

use crate::input::{read_base, read_cert};
use crate::output::write_text;
use audit_report::{RunFault, Sink, Source, Status, verdict_text};
use checker::{Policy, Verdict, check};
use std::alloc::Global;

// Writes the line of a verdict.
fn write_verdict<O: Sink>(alloc: Global, out: &mut O, verdict: &Verdict) -> Result<Status, RunFault>
    requires { (O.seen out.old).failed ≡ false }
    ensures { IsTextWritten (device O.seen out.old out.new) (verdict_text verdict.now)
        (status_of_verdict verdict.now) result }
{
    let text = verdict_text(alloc, verdict).map_err(|_| RunFault::Memory)?;
    write_text(out, text.as_slice(), Status::of_verdict(verdict))
}

/// Checks a certificate against a base and writes the line of the verdict.
///
/// The base is read whole and judged before anything is read of the certificate. The certificate is judged as it comes,
/// in pieces of at most 4,096 bytes, and nothing is read after its first bad line. On every fault except `Write`, nothing
/// was written. A device is not called again after it returned an error.
#[tactic(auto, using(crate::proofs::Within::base_within, crate::proofs::Within::cert_within))]
pub fn run_check<B: Source, C: Source, O: Sink>(
    alloc: Global,
    base: &mut B,
    cert: &mut C,
    out: &mut O,
    policy: &Policy,
) -> Result<Status, RunFault>
    requires base_open { (B.seen base.old).failed ≡ false }
    requires cert_open { (C.seen cert.old).failed ≡ false }
    requires out_open { (O.seen out.old).failed ≡ false }

    // A status: both files were read to their ends, no device failed, and the verdict's line and its status are those of
    // what was read. A fault: the first one, of the base's file, of the certificate's, or of the output.
    ensures run { IsCheckRun (device B.seen base.old base.new) (device C.seen cert.old cert.new)
        (device O.seen out.old out.new) policy.now result }

    // If the status is Clear, the headline holds of the bytes that were read.
    ensures headline { result ≡ Ok Status.Clear
        → HoldsOfFiles (device B.seen base.old base.new) (device C.seen cert.old cert.new) policy.now }
{
    let base = match read_base(alloc, base) {
        Ok(base) => base,
        Err(fault) => return Err(RunFault::from(fault)),
    };
    let cert = match read_cert(alloc, cert) {
        Ok(cert) => cert,
        Err(fault) => return Err(RunFault::from(fault)),
    };
    let verdict = check(&base, policy, &cert);
    write_verdict(alloc, out, &verdict)
}
