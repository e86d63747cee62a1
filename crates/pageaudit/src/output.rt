ghost use Rattle.std.specs.Prelude.{◌≡◌, false};
ghost use Rattle.pageaudit.specs.Files.{device, IsTextWritten};

use audit_report::{RunFault, Sink, write_whole};

// Writes a text to the output; returns its status if all of it was taken and flushed.
pub fn write_text<S: Sink, T: Copy>(out: &mut S, text: &[u8], status: T) -> Result<T, RunFault>
    requires { (S.seen out.old).failed ≡ false }
    ensures { IsTextWritten (device S.seen out.old out.new) text.now status result }
{
    match write_whole(out, text) {
        Ok(()) => Ok(status),
        Err(fault) => Err(RunFault::Write(fault.wrote)),
    }
}
