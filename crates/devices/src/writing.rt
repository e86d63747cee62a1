ghost use Rattle.std.specs.Prelude.{◌≡◌, false, OnOk, IfErr};
ghost use Rattle.devices.specs.Devices.{TookAll, WroteWhole, WrotePart};
ghost use Rattle.devices.specs.Loops.{TookPart};

use crate::device::Sink;
use thiserror::Error;

/// A sink failed.
#[derive(Debug, Clone, Copy, PartialEq, Eq, Error)]
#[error("write failed after {wrote} bytes")]
pub struct WriteFault {
    /// How many of the bytes it had taken.
    pub wrote: u64,
}

// Writes all the bytes, without a flush.
pub fn write_all<S: Sink>(sink: &mut S, bytes: &[u8]) -> Result<(), WriteFault>
    requires { (S.seen sink.old).failed ≡ false }
    ensures whole { OnOk result (TookAll (S.seen sink.old) (S.seen sink.new) bytes.now) }
    ensures part { IfErr result (λ fault. TookPart (S.seen sink.old) (S.seen sink.new) bytes.now fault.wrote) }
{
    let mut wrote = 0;
    while wrote < bytes.len() {
        match sink.write(&bytes[wrote..]) {
            Ok(count) => wrote += count,
            Err(_) => {
                return Err(WriteFault {
                    wrote: wrote as u64,
                });
            }
        }
    }
    Ok(())
}

/// Writes all the bytes, then flushes once. It stops at the sink's first error and fails for no other reason.
pub fn write_whole<S: Sink>(sink: &mut S, bytes: &[u8]) -> Result<(), WriteFault>
    requires { (S.seen sink.old).failed ≡ false }
    ensures whole { OnOk result (WroteWhole (S.seen sink.old) (S.seen sink.new) bytes.now) }
    ensures part { IfErr result (λ fault. WrotePart (S.seen sink.old) (S.seen sink.new) bytes.now fault.wrote) }
{
    write_all(sink, bytes)?;
    match sink.flush() {
        Ok(()) => Ok(()),
        Err(_) => Err(WriteFault {
            wrote: bytes.len() as u64,
        }),
    }
}
