//! A text on its way to a sink, piece by piece.

ghost use Rattle.std.specs.Prelude.{◌≡◌, ◌↔◌, ◌<◌, ◌+◌, ◌^◌, ◌++◌, List, ℕ, false, true, OnOk, IfOk, IfErr};
ghost use Rattle.std.specs.Vec.{vec_len};
ghost use Rattle.devices.specs.Devices.{Seen, WroteWhole, IsOnItsWay};
ghost use Rattle.base_pages.specs.Loops.{IsStopped};

use crate::fault::PagesFault;
use audit_report::Sink;
use devices::{write_last, write_piece};

// Whether the number of a text's bytes fits.
fn fits(wrote: u64, kept: usize) -> bool
    ensures { result ≡ true ↔ wrote + kept < 2 ^ 64 }
{
    wrote <= u64::MAX - kept as u64
}

// Writes what is kept of a text, if it is long enough; returns how many of its bytes the sink has taken.
pub fn send<S: Sink>(sink: &mut S, kept: &mut Vec<u8>, wrote: u64) -> Result<u64, PagesFault>
    requires open { (S.seen sink.old).failed ≡ false }
    ensures few { OnOk result (vec_len kept.new < 65536) }
    ensures open { OnOk result ((S.seen sink.new).failed ≡ false) }
    ensures taken { (start : Seen) (text : List ℕ) → IsOnItsWay start (S.seen sink.old) kept.old.items wrote text →
        IfOk result (λ n. IsOnItsWay start (S.seen sink.new) kept.new.items n text) }
    ensures part { (start : Seen) (text rest : List ℕ) → IsOnItsWay start (S.seen sink.old) kept.old.items wrote text →
        IfErr result (λ fault. IsStopped start (S.seen sink.new) (text ++ rest) fault) }
{
    if !fits(wrote, kept.len()) {
        return Err(PagesFault::Memory);
    }
    match write_piece(sink, kept, wrote) {
        Ok(count) => Ok(count),
        Err(fault) => Err(PagesFault::Write(fault.wrote)),
    }
}

// Writes the last bytes of a text, then flushes once.
pub fn send_last<S: Sink>(sink: &mut S, kept: &[u8], wrote: u64) -> Result<(), PagesFault>
    requires open { (S.seen sink.old).failed ≡ false }
    ensures whole { (start : Seen) (text : List ℕ) → IsOnItsWay start (S.seen sink.old) kept.now wrote text →
        OnOk result (WroteWhole start (S.seen sink.new) text) }
    ensures part { (start : Seen) (text : List ℕ) → IsOnItsWay start (S.seen sink.old) kept.now wrote text →
        IfErr result (λ fault. IsStopped start (S.seen sink.new) text fault) }
{
    if !fits(wrote, kept.len()) {
        return Err(PagesFault::Memory);
    }
    match write_last(sink, kept, wrote) {
        Ok(()) => Ok(()),
        Err(fault) => Err(PagesFault::Write(fault.wrote)),
    }
}
