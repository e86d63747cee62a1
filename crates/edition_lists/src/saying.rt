//! What is to be printed is written.

ghost use Rattle.std.specs.Prelude.{◌≡◌, false};
ghost use Rattle.edition_lists.specs.Loops.{IsSaid};

use crate::fault::EditionsFault;
use crate::status::EditionsStatus;
use devices::{Sink, write_whole};

/// What is to be printed, and the status after it.
#[derive(Drop)]
pub struct Said {
    pub text: Vec<u8>,
    pub status: EditionsStatus,
}

/// Writes what is to be printed.
pub fn say<O: Sink>(out: &mut O, said: &Said) -> Result<EditionsStatus, EditionsFault>
    requires { (O.seen out.old).failed ≡ false }
    ensures { IsSaid (O.seen out.old) (O.seen out.new) said.now.text.items said.now.status result }
{
    match write_whole(out, said.text.as_slice()) {
        Ok(()) => Ok(said.status),
        Err(fault) => Err(EditionsFault::Write(fault.wrote)),
    }
}
