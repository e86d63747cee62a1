//! Texts that are made and written piece by piece.

ghost use Rattle.std.specs.Prelude.{◌≡◌, ◌<◌, ◌+◌, ◌++◌, ◌^◌, List, ℕ, false, OnOk, IfOk, IfErr, length};
ghost use Rattle.std.specs.Vec.{vec_len, vec_capacity};
ghost use Rattle.devices.specs.Devices.{Seen, WroteWhole, WrotePart, IsOnItsWay};

use crate::device::Sink;
use crate::writing::{WriteFault, write_all, write_whole};

// From how many bytes on a piece is written.
const PIECE: usize = 65_536;

/// Writes the bytes of a text that are kept, and clears them, if they are 65,536 or more; without a flush. The sink has taken
/// `wrote` bytes of the text before; returns how many it has taken now. It takes no memory.
pub fn write_piece<S: Sink>(sink: &mut S, kept: &mut Vec<u8>, wrote: u64) -> Result<u64, WriteFault>
    requires open { (S.seen sink.old).failed ≡ false }
    requires counted { wrote + vec_len kept.old < 2 ^ 64 }
    ensures few { OnOk result (vec_len kept.new < 65536) }
    ensures capacity { vec_capacity kept.new ≡ vec_capacity kept.old }
    ensures count { IfOk result (λ n. n + vec_len kept.new ≡ wrote + vec_len kept.old) }
    ensures open { OnOk result ((S.seen sink.new).failed ≡ false) }
    ensures taken { (start : Seen) (text : List ℕ) → IsOnItsWay start (S.seen sink.old) kept.old.items wrote text →
        IfOk result (λ n. IsOnItsWay start (S.seen sink.new) kept.new.items n text) }
    ensures part { (start : Seen) (text rest : List ℕ) → IsOnItsWay start (S.seen sink.old) kept.old.items wrote text →
        IfErr result (λ fault. WrotePart start (S.seen sink.new) (text ++ rest) fault.wrote) }
{
    if kept.len() < PIECE {
        return Ok(wrote);
    }
    match write_all(sink, kept.as_slice()) {
        Ok(()) => {}
        Err(fault) => {
            return Err(WriteFault {
                wrote: wrote + fault.wrote,
            });
        }
    }
    let wrote = wrote + kept.len() as u64;
    kept.clear();
    Ok(wrote)
}

/// Writes the last bytes of a text, then flushes once. The sink has taken `wrote` bytes of the text before.
pub fn write_last<S: Sink>(sink: &mut S, kept: &[u8], wrote: u64) -> Result<(), WriteFault>
    requires open { (S.seen sink.old).failed ≡ false }
    requires counted { wrote + length kept.now < 2 ^ 64 }
    ensures whole { (start : Seen) (text : List ℕ) → IsOnItsWay start (S.seen sink.old) kept.now wrote text →
        OnOk result (WroteWhole start (S.seen sink.new) text) }
    ensures part { (start : Seen) (text : List ℕ) → IsOnItsWay start (S.seen sink.old) kept.now wrote text →
        IfErr result (λ fault. WrotePart start (S.seen sink.new) text fault.wrote) }
{
    match write_whole(sink, kept) {
        Ok(()) => Ok(()),
        Err(fault) => Err(WriteFault {
            wrote: wrote + fault.wrote,
        }),
    }
}
