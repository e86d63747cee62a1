//! The two ends of a caller's line: standard input and output.

ghost use Rattle.std.specs.Prelude.{◌≡◌, true, false, None};

use audit_report::{Broken, Sink, Source};
use std::io;
use std::io::{ErrorKind, Read, Write};

// EIO, which a terminal answers once its line is cut.
const LINE_CUT: i32 = 5;

// Whether an error says that the caller has rung off.
fn is_rung_off(error: &io::Error) -> bool {
    match error.kind() {
        ErrorKind::BrokenPipe
        | ErrorKind::ConnectionReset
        | ErrorKind::ConnectionAborted
        | ErrorKind::HostUnreachable
        | ErrorKind::NetworkDown
        | ErrorKind::NetworkUnreachable
        | ErrorKind::TimedOut => true,
        _ => error.raw_os_error() == Some(LINE_CUT),
    }
}

/// What the caller sends. A line on which the caller has rung off is at its end.
#[derive(Drop)]
pub struct CallerInput<I> {
    inner: I,
    failed: bool,
}

impl<I: Read> CallerInput<I> {
    pub fn new(inner: I) -> CallerInput<I>
        ensures { result.failed ≡ false }
    {
        CallerInput {
            inner,
            failed: false,
        }
    }
}

impl<I: Read> Source for CallerInput<I> {
    ghost seen = { λ s. record { bytes = None; failed = s.failed; flushes = 0 } };

    fn read(&mut self, into: &mut [u8]) -> Result<usize, Broken> {
        match self.inner.read(into) {
            Ok(count) => Ok(count),
            Err(error) if is_rung_off(&error) => Ok(0),
            Err(_) => {
                self.failed = true;
                Err(Broken)
            }
        }
    }

    fn failed(&self) -> bool {
        self.failed
    }
}

/// What the caller's terminal is sent.
#[derive(Drop)]
pub struct CallerOutput<W> {
    inner: W,
    failed: bool,
    flushes: u8,
    /// Whether the caller has rung off.
    pub is_closed: bool,
}

impl<W> CallerOutput<W> {
    pub fn new(inner: W) -> CallerOutput<W>
        ensures { result.failed ≡ false }
    {
        CallerOutput {
            inner,
            failed: false,
            flushes: 0,
            is_closed: false,
        }
    }

    fn fail(&mut self, error: &io::Error) -> Broken
        ensures failed { self.new.failed ≡ true }
        ensures unflushed { self.new.flushes ≡ self.old.flushes }
        ensures inner { self.new.inner ≡ self.old.inner }
    {
        self.failed = true;
        self.is_closed = is_rung_off(error);
        Broken
    }
}

impl<W: Write> Sink for CallerOutput<W> {
    ghost seen = { λ s. record { bytes = None; failed = s.failed; flushes = s.flushes } };

    fn write(&mut self, bytes: &[u8]) -> Result<usize, Broken> {
        match self.inner.write(bytes) {
            Ok(count) if count > 0 || bytes.is_empty() => Ok(count),
            Ok(_) => {
                self.failed = true;
                Err(Broken)
            }
            Err(error) => Err(self.fail(&error)),
        }
    }

    fn flush(&mut self) -> Result<(), Broken> {
        self.flushes = self.flushes.saturating_add(1);
        match self.inner.flush() {
            Ok(()) => Ok(()),
            Err(error) => Err(self.fail(&error)),
        }
    }

    fn failed(&self) -> bool {
        self.failed
    }
}
