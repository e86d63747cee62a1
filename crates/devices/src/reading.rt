ghost use Rattle.std.specs.Prelude.{◌≡◌, ◌<◌, false, IfOk, OnOk, IfErr, IfSome, take};
ghost use Rattle.devices.specs.Devices.{IsWholeRead, IsSourceFault};
ghost use Rattle.devices.specs.Loops.{IsPieceRead};

use crate::device::Source;
use std::alloc::Global;
use thiserror::Error;

/// Why a source wasn't read whole.
#[derive(Debug, Clone, Copy, PartialEq, Eq, Error)]
pub enum SourceFault {
    /// A read returned an error.
    #[error("read failed")]
    Broken,
    /// A growth was refused.
    #[error("memory refused")]
    Memory,
}

// How many bytes are asked for at once.
const PIECE: usize = 65_536;

// Reads once, at most `most` bytes, and appends them; returns their number, 0 at the end. `piece` is a buffer to read into.
fn read_piece<S: Source>(
    source: &mut S,
    piece: &mut [u8; PIECE],
    bytes: &mut Vec<u8>,
    most: usize,
) -> Result<usize, SourceFault>
    requires open { (S.seen source.old).failed ≡ false }
    requires some { 0 < most }
    ensures piece { IfOk result (IsPieceRead most (S.seen source.old)
        (S.seen source.new) bytes.old.items bytes.new.items) }
    ensures fault { IfErr result (IsSourceFault most (S.seen source.old) (S.seen source.new)) }
    ensures unbroken { OnOk result ((S.seen source.new).failed ≡ false) }
{
    let room = most.min(PIECE);
    let count = source
        .read(&mut piece[..room])
        .map_err(|_| SourceFault::Broken)?;
    bytes
        .extend_from_slice(&piece[..count])
        .map_err(|_| SourceFault::Memory)?;
    Ok(count)
}

/// The bytes that a source has left, up to a limit. If they are fewer than the limit, the source has reached its end.
///
/// Reads in pieces of at most 65,536 bytes and never asks for more than the limit; a short read is followed by another one.
/// After a fault the bytes that were read are lost: fewer than the limit after `Broken`, at most the limit after `Memory`.
#[tactic(auto, using(crate::proofs::Sources::fault_after))]
pub fn read_whole<S: Source>(
    alloc: Global,
    source: &mut S,
    limit: usize,
) -> Result<Vec<u8>, SourceFault>
    requires { (S.seen source.old).failed ≡ false }
    ensures whole { IfOk result (λ bytes. IsWholeRead limit (S.seen source.old) (S.seen source.new) bytes.items) }
    ensures known { IfOk result (λ bytes. IfSome (S.seen source.old).bytes (λ xs. bytes.items ≡ take limit xs)) }
    ensures unbroken { OnOk result ((S.seen source.new).failed ≡ false) }
    ensures fault { IfErr result (IsSourceFault limit (S.seen source.old) (S.seen source.new)) }
{
    let mut bytes = Vec::new(alloc);
    let mut piece = [0; PIECE];
    while bytes.len() < limit {
        let most = limit - bytes.len();
        let count = read_piece(source, &mut piece, &mut bytes, most)?;
        if count == 0 {
            break;
        }
    }
    Ok(bytes)
}
