ghost use Rattle.std.specs.Prelude.{◌≡◌, false};
ghost use Rattle.pageaudit.specs.Files.{device, IsTextWritten};
ghost use Rattle.pageaudit.specs.ListRun.{IsListRun, status_of_entry};

use crate::input::read_base;
use audit_report::{ListForm, Listing, RunFault, Sink, Source, Status, list};
use frame_records::Groups;
use std::alloc::Global;

// Clear if and only if the entry frame is found.
fn status_of_entry(is_found: bool) -> Status
    ensures { result ≡ status_of_entry is_found }
{
    if is_found {
        Status::Clear
    } else {
        Status::Faulty
    }
}

// Writes a list.
fn write_listing<O: Sink>(out: &mut O, listing: Listing<'_>) -> Result<Status, RunFault>
    requires { (O.seen out.old).failed ≡ false }
    ensures { IsTextWritten (device O.seen out.old out.new) listing.entry.text
        (status_of_entry listing.entry.entry_is_found) result }
{
    let status = status_of_entry(listing.entry_is_found());
    match listing.write(out) {
        Ok(()) => Ok(status),
        Err(fault) => Err(RunFault::Write(fault.wrote)),
    }
}

/// Lists the frames of a base, in a form: those that a caller of the groups can reach, and then the others. If the entry
/// frame is missing or closed to the caller, its line is the only one, and the status is Faulty.
///
/// The base is read whole and judged first, and all the memory is taken that the list needs, which is written piece by piece. On
/// every fault except `Write`, nothing was written. A device is not called again after it returned an error.
pub fn run_list<B: Source, O: Sink>(
    alloc: Global,
    base: &mut B,
    form: ListForm,
    groups: &Groups,
    out: &mut O,
) -> Result<Status, RunFault>
    requires base_open { (B.seen base.old).failed ≡ false }
    requires out_open { (O.seen out.old).failed ≡ false }

    // A status: the base's file was read to its end, no device failed, and the list and its status are those of what was
    // read. A fault: the first one, of the base's file or of the output.
    ensures { IsListRun (device B.seen base.old base.new) (device O.seen out.old out.new) groups.now form result }
{
    let base = read_base(alloc, base)?;
    let Ok(listing) = list(alloc, form, &base, groups) else {
        return Err(RunFault::Memory);
    };
    write_listing(out, listing)
}
