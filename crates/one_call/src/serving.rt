ghost use Rattle.std.specs.Prelude.{◌≡◌, false, IfOk};
ghost use Rattle.one_call.specs.Calls.{IsCallServed, IsKeptCall};

use crate::fault::CallFault;
use crate::line::serve_line;
use crate::log::CallLog;
use crate::opened::open_edition;
use devices::{Sink, Source};
use editions::EditionFolder;
use std::alloc::Global;

/// Serves the current edition of a folder to one caller, who is in the groups of the edition's policy and in no others, and the
/// editions that become current while the caller is inside.
///
/// The edition is read and checked before anything is read of the source or written to the sink. The call ends without a fault when
/// the caller keys `*90#` or leaves the base, or the source is at its end. A new edition that isn't cleared, doesn't follow the one
/// that is served or can't be read ends no call: the caller stays in the one that is served.
pub fn serve<F: EditionFolder, R: Source, W: Sink, L: CallLog>(
    alloc: Global,
    folder: &mut F,
    source: &mut R,
    sink: &mut W,
    log: &mut L,
) -> Result<(), CallFault>
    requires reads { (R.seen source.old).failed ≡ false }
    requires writes { (W.seen sink.old).failed ≡ false }
    ensures call { IsCallServed (F.seen folder.old) (R.seen source.old) (R.seen source.new)
        (W.seen sink.old) (W.seen sink.new) result }

    // The headline of a whole call, whatever the caller's terminal was.
    ensures kept { IfOk result (λ _. IsKeptCall (F.seen folder.old) (R.seen source.old) (R.seen source.new)
        (W.seen sink.old) (W.seen sink.new)) }
{
    let served = match open_edition(alloc, folder) {
        Ok(served) => served,
        Err(fault) => return Err(fault),
    };
    match serve_line(alloc, folder, served, source, sink, log) {
        Ok(()) => Ok(()),
        Err(fault) => Err(CallFault::Line(fault)),
    }
}
