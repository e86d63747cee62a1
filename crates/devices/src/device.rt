ghost use Rattle.std.specs.Prelude.{◌≡◌};
ghost use Rattle.std.specs.Io.{ReadsAtMost};
ghost use Rattle.std.specs.Io.KnownBytes.{ReadConsumes, WriteAppends, Keeps};
ghost use Rattle.devices.specs.Devices.{Seen, Flags, WritesSome, one_more};

use thiserror::Error;

/// A call of a device returned an error.
#[derive(Debug, Clone, Copy, PartialEq, Eq, Error)]
#[error("the device failed")]
pub struct Broken;

/// Where bytes come from. Contracts see `seen`: the bytes still to come, if the source shows them, and whether a call has
/// failed.
pub trait Source {
    ghost seen: { Self → Seen };

    /// Reads some bytes into the front of a slice and returns their number. 0 for a slice that isn't empty is the end. A
    /// call that fails has read nothing.
    fn read(&mut self, into: &mut [u8]) -> Result<usize, Broken>
        ensures fits { ReadsAtMost result into.new }
        ensures bytes { ReadConsumes (seen self.old).bytes (seen self.new).bytes result into.new }
        ensures flag { Flags (seen self.old) (seen self.new) result };

    /// Whether a call has returned an error.
    fn failed(&self) -> bool
        ensures { result ≡ (seen self.now).failed };
}

/// Where bytes go. Contracts see `seen`: the bytes taken so far, if the sink shows them, whether a call has failed, and how
/// often it was flushed.
pub trait Sink {
    ghost seen: { Self → Seen };

    /// Takes some of the bytes, from the front, and returns their number: at least one if there is one. A call that
    /// fails takes none.
    fn write(&mut self, bytes: &[u8]) -> Result<usize, Broken>
        ensures fits { WritesSome result bytes.now }
        ensures bytes { WriteAppends (seen self.old).bytes (seen self.new).bytes result bytes.now }
        ensures unflushed { (seen self.new).flushes ≡ (seen self.old).flushes }
        ensures flag { Flags (seen self.old) (seen self.new) result };

    /// Sends on what was taken; it takes nothing.
    fn flush(&mut self) -> Result<(), Broken>
        ensures bytes { Keeps (seen self.old).bytes (seen self.new).bytes }
        ensures flushed { (seen self.new).flushes ≡ one_more (seen self.old).flushes }
        ensures flag { Flags (seen self.old) (seen self.new) result };

    /// Whether a call has returned an error.
    fn failed(&self) -> bool
        ensures { result ≡ (seen self.now).failed };
}
