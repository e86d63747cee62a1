//! A call on a line.

ghost use Rattle.std.specs.Prelude.{◌≡◌, false};
ghost use Rattle.editions.specs.Folders.{SeenFolder, IsLater};
ghost use Rattle.one_call.specs.Lines.{IsLineServed};
ghost use Rattle.one_call.specs.Loops.{IsBegun, IsByteAnswered};
ghost use Rattle.one_call.specs.Opened.{IsToServe};

use crate::caller::OneCall;
use crate::fault::ServeFault;
use crate::log::CallLog;
use crate::renewing::renew;
use devices::{Sink, Source, write_whole};
use edition_checks::Served;
use editions::EditionFolder;
use frame_records::{Base, Groups};
use std::alloc::Global;

// Begins the call, and writes its first bytes.
fn begin<W: Sink>(
    alloc: Global,
    base: &Base,
    groups: &Groups,
    sink: &mut W,
) -> Result<OneCall, ServeFault>
    requires { (W.seen sink.old).failed ≡ false }
    ensures { IsBegun groups.now base.now (W.seen sink.old) (W.seen sink.new) result }
{
    let mut text = Vec::new(alloc);
    let call = OneCall::begin(alloc, &mut text, base, groups)?;
    write_whole(sink, text.as_slice()).map_err(|_| ServeFault::Write)?;
    Ok(call)
}

// Hears a byte, and writes what it asks for.
fn answer<W: Sink, L: CallLog>(
    alloc: Global,
    base: &Base,
    call: &mut OneCall,
    byte: u8,
    sink: &mut W,
    log: &mut L,
) -> Result<(), ServeFault>
    requires open { (W.seen sink.old).failed ≡ false }
    requires goes_on { call.old.over ≡ false }
    ensures { IsByteAnswered base.now call.old byte (W.seen sink.old) (W.seen sink.new) call.new result }
{
    let mut text = Vec::new(alloc);
    match call.hear(alloc, &mut text, base, byte) {
        Ok(true) => log.key(),
        Ok(false) => {}
        Err(_) => return Err(ServeFault::Memory),
    }
    write_whole(sink, text.as_slice()).map_err(|_| ServeFault::Write)
}

/// Serves a call of a caller of the groups of an edition's policy: the entry frame, and then an answer for each byte that asks for
/// one, until the caller leaves, keys `*90#`, or the source is at its end. Each answer is written and flushed before the next byte is
/// read, of which one is asked for at a time. Before a byte is heard, the edition that is current takes the place of the one that is
/// served, if callers may be taken there.
pub fn serve_line<F: EditionFolder, R: Source, W: Sink, L: CallLog>(
    alloc: Global,
    folder: &mut F,
    first: Served,
    source: &mut R,
    sink: &mut W,
    log: &mut L,
) -> Result<(), ServeFault>
    requires reads { (R.seen source.old).failed ≡ false }
    requires writes { (W.seen sink.old).failed ≡ false }

    // If the edition was to be served since the folder was as it was at the start.
    ensures { (start : SeenFolder) → IsLater start (F.seen folder.old) → IsToServe start first →
        IsLineServed first.policy.groups start (R.seen source.old) (R.seen source.new)
        (W.seen sink.old) (W.seen sink.new) result }
{
    log.begins(first.number);
    let mut call = match begin(alloc, &first.base, &first.policy.groups, sink) {
        Ok(call) => call,
        Err(fault) => return Err(fault),
    };
    let mut served = first;
    let mut refused = None;
    let mut byte = [0; 1];
    for _ in 0..u64::MAX {
        if call.is_over() {
            return Ok(());
        }
        match source.read(&mut byte) {
            Ok(0) => return Ok(()),
            Ok(_) => {}
            Err(_) => return Err(ServeFault::Read),
        }
        renew(alloc, folder, &mut served, &mut refused, log);
        match answer(alloc, &served.base, &mut call, byte[0], sink, log) {
            Ok(()) => {}
            Err(fault) => return Err(fault),
        }
    }
    Err(ServeFault::Read)
}
