ghost use Rattle.std.specs.Prelude.{◌≡◌, false};

use crate::device::{Broken, Sink};
use std::io::{ErrorKind, Write};

/// A writer of std as a sink. A write that takes none of some bytes is an error here.
#[derive(Drop)]
pub struct IntoWrite<W> {
    inner: W,
    failed: bool,
    flushes: u8,
    closed: bool,
}

impl<W: Write> IntoWrite<W> {
    /// A sink whose bytes go to the writer.
    pub fn new(inner: W) -> IntoWrite<W>
        ensures { ⟦<IntoWrite<W> as Sink>⟧.seen result ≡
            record { bytes = W.contents inner; failed = false; flushes = 0 } }
    {
        IntoWrite {
            inner,
            failed: false,
            flushes: 0,
            closed: false,
        }
    }

    /// Whether the last error says that nobody reads any more, as that of a pipe without a reader does.
    pub fn is_closed(&self) -> bool
        ensures { result ≡ self.now.closed }
    {
        self.closed
    }
}

impl<W: Write> Sink for IntoWrite<W> {
    ghost seen = { λ s. record { bytes = W.contents s.inner; failed = s.failed; flushes = s.flushes } };

    fn write(&mut self, bytes: &[u8]) -> Result<usize, Broken> {
        match self.inner.write(bytes) {
            Ok(count) if count > 0 || bytes.is_empty() => Ok(count),
            Ok(_) => {
                self.failed = true;
                Err(Broken)
            }
            Err(error) => {
                self.failed = true;
                self.closed = error.kind() == ErrorKind::BrokenPipe;
                Err(Broken)
            }
        }
    }

    fn flush(&mut self) -> Result<(), Broken> {
        self.flushes = self.flushes.saturating_add(1);
        match self.inner.flush() {
            Ok(()) => Ok(()),
            Err(error) => {
                self.failed = true;
                self.closed = error.kind() == ErrorKind::BrokenPipe;
                Err(Broken)
            }
        }
    }

    fn failed(&self) -> bool {
        self.failed
    }
}
