ghost use Rattle.std.specs.Prelude.{◌≡◌, false};
ghost use Rattle.pageaudit.specs.Files.{device};
ghost use Rattle.pageaudit.specs.PagesRun.{IsPagesFileRun, pages_number, run_of};

use crate::input::read_lined;
use crate::status::status_of;
use audit_report::{RunFault, Sink, Source};
use base_pages::{BaseSource, PagesFault, PagesStatus, write_pages};
use checker::Policy;
use finder::View;
use std::alloc::Global;

// A fault of the file as one of the run.
fn run_of(run: Result<PagesStatus, PagesFault>) -> Result<PagesStatus, RunFault>
    ensures { result ≡ run_of run }
{
    match run {
        Ok(status) => Ok(status),
        Err(PagesFault::Write(wrote)) => Err(RunFault::Write(wrote)),
        Err(PagesFault::Memory) => Err(RunFault::Memory),
    }
}

/// Writes the frames of a view of a base as one HTML file, with its audit and the name of the base's file, for a caller of the
/// policy's groups. If the base lacks the frame `a` of the view's page, nothing is written, and the status is NoPage.
///
/// The base is read whole and judged first. The file may be longer than memory, and is written section by section. On a fault
/// of the base's file nothing was written; if memory is refused, a front of the file may have been. A device is not called again
/// after it returned an error.
pub fn run_pages<B: Source, O: Sink>(
    alloc: Global,
    base: &mut B,
    policy: &Policy,
    view: &View,
    name: &str,
    out: &mut O,
) -> Result<PagesStatus, RunFault>
    requires base_open { (B.seen base.old).failed ≡ false }
    requires out_open { (O.seen out.old).failed ≡ false }

    // A status: the base's file was read to its end, no device failed, and the file is that of what was read. A fault: the
    // first one, of the base's file or of the output.
    ensures { IsPagesFileRun (device B.seen base.old base.new)
        (device O.seen out.old out.new) name.now policy.now view.now result }
{
    let read = match read_lined(alloc, base) {
        Ok(read) => read,
        Err(fault) => return Err(RunFault::from(fault)),
    };
    let source = BaseSource {
        name,
        lines: &read.lines,
    };
    run_of(write_pages(alloc, &source, &read.base, policy, view, out))
}

/// The program's exit status after such a run: 0 a file, 2 no such page; of a fault as `status_of`.
pub fn status_of_pages(run: &Result<PagesStatus, RunFault>) -> u8
    ensures { result ≡ pages_number run.now }
{
    match run {
        Ok(PagesStatus::Written) => 0,
        Ok(PagesStatus::NoPage) => 2,
        Err(fault) => status_of(&Err(*fault)),
    }
}
