ghost use Rattle.std.specs.Prelude.{◌≡◌, false};
ghost use Rattle.audit_report.specs.Lines.{change_text};
ghost use Rattle.audit_report.specs.Statuses.{status_of_change};
ghost use Rattle.pageaudit.specs.Files.{device, IsTextWritten};
ghost use Rattle.pageaudit.specs.ChangeRun.{IsChangeRun, HoldsOfChange, edition_files};

use crate::edition::{new_fault, old_fault, read_edition};
use crate::output::write_text;
use audit_report::{RunFault, Sink, Source, Status, change_text};
use checker::{ChangeVerdict, Policy, check_change};
use std::alloc::Global;

// Writes the line of a verdict.
fn write_change<O: Sink>(
    alloc: Global,
    out: &mut O,
    verdict: &ChangeVerdict,
) -> Result<Status, RunFault>
    requires { (O.seen out.old).failed ≡ false }
    ensures { IsTextWritten (device O.seen out.old out.new) (change_text verdict.now)
        (status_of_change verdict.now) result }
{
    let text = change_text(alloc, verdict).map_err(|_| RunFault::Memory)?;
    write_text(out, text.as_slice(), Status::of_change(verdict))
}

/// Checks if a new edition may take an old one's place while callers are inside, and writes the line of the verdict.
///
/// The files are read in the order of the arguments. Each is judged before the next one is read, and the first fault ends
/// the run. On every fault except `Write`, nothing was written. A device is not called again after it returned an error.
pub fn run_change<B: Source, C: Source, N: Source, M: Source, O: Sink>(
    alloc: Global,
    old: &mut B,
    old_cert: &mut C,
    new: &mut N,
    new_cert: &mut M,
    out: &mut O,
    policy: &Policy,
) -> Result<Status, RunFault>
    requires old_open { (B.seen old.old).failed ≡ false }
    requires old_cert_open { (C.seen old_cert.old).failed ≡ false }
    requires new_open { (N.seen new.old).failed ≡ false }
    requires new_cert_open { (M.seen new_cert.old).failed ≡ false }
    requires out_open { (O.seen out.old).failed ≡ false }

    // A status: all four files were read to their ends, no device failed, and the verdict's line and its status are those
    // of what was read. A fault: the first one, of the old edition's files, of the new edition's, or of the output.
    ensures run { IsChangeRun
        (edition_files (device B.seen old.old old.new) (device C.seen old_cert.old old_cert.new))
        (edition_files (device N.seen new.old new.new) (device M.seen new_cert.old new_cert.new))
        (device O.seen out.old out.new) policy.now result }

    // If the status is Clear, callers stay safe over the change, from the old edition's entry page and after any keys.
    ensures safe { result ≡ Ok Status.Clear → HoldsOfChange
        (edition_files (device B.seen old.old old.new) (device C.seen old_cert.old old_cert.new))
        (edition_files (device N.seen new.old new.new) (device M.seen new_cert.old new_cert.new))
        policy.now }
{
    let (old, old_cert) = match read_edition(alloc, old, old_cert) {
        Ok(edition) => edition,
        Err(fault) => return Err(old_fault(fault)),
    };
    let (new, new_cert) = match read_edition(alloc, new, new_cert) {
        Ok(edition) => edition,
        Err(fault) => return Err(new_fault(fault)),
    };
    let verdict = check_change(&old, &old_cert, &new, &new_cert, policy);
    write_change(alloc, out, &verdict)
}
