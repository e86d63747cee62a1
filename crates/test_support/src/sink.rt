ghost use Rattle.std.specs.Prelude.{◌≡◌, true, false, None, min, MatchResult};
ghost use Rattle.devices.specs.Devices.{WritesSome, one_more};

use devices::{Broken, Sink};
use std::alloc::Global;
use std::io;
use std::io::{ErrorKind, Write};

/// Takes `step` bytes a call until it is full; then it fails once, and then takes more.
#[derive(Drop)]
pub struct FakeSink {
    step: usize,
    room: usize,
    stalls: bool,
    flush_fails: bool,
    /// How many writes there were.
    pub writes: u32,
    /// How many flushes there were.
    pub flushes: u32,
    /// The bytes that were taken.
    pub taken: Vec<u8>,
    /// How many bytes were taken before the latest flush.
    pub flushed: usize,
    /// Whether a write or a flush failed.
    pub failed: bool,
}

impl FakeSink {
    /// It fails after `room` bytes.
    pub fn full(alloc: Global, step: usize, room: usize) -> FakeSink
        ensures { result.failed ≡ false }
    {
        FakeSink {
            step,
            room,
            stalls: false,
            flush_fails: false,
            writes: 0,
            flushes: 0,
            taken: Vec::new(alloc),
            flushed: 0,
            failed: false,
        }
    }

    /// It never fails.
    pub fn of(alloc: Global, step: usize) -> FakeSink
        ensures { result.failed ≡ false }
    {
        FakeSink::full(alloc, step, usize::MAX)
    }

    /// Its first flush fails.
    pub fn unflushed(alloc: Global, step: usize) -> FakeSink
        ensures { result.failed ≡ false }
    {
        FakeSink {
            flush_fails: true,
            ..FakeSink::of(alloc, step)
        }
    }

    /// After `room` bytes, as a writer of std, it takes none at a call where it would otherwise fail.
    pub fn stalling(alloc: Global, step: usize, room: usize) -> FakeSink
        ensures { result.failed ≡ false }
    {
        FakeSink {
            stalls: true,
            ..FakeSink::full(alloc, step, room)
        }
    }

    // The call fails, and there is room again.
    fn fail(&mut self) -> Broken
        ensures failed { self.new.failed ≡ true }
        ensures unflushed { self.new.flushes ≡ self.old.flushes }
    {
        self.failed = true;
        self.room = usize::MAX;
        Broken
    }

    // A write, also to a sink that has failed.
    fn take(&mut self, bytes: &[u8]) -> Result<usize, Broken>
        ensures fits { WritesSome result bytes.now }
        ensures unflushed { self.new.flushes ≡ self.old.flushes }
        ensures flag { MatchResult result (λ _. self.new.failed ≡ self.old.failed) (λ _. self.new.failed ≡ true) }
    {
        self.writes = self.writes.wrapping_add(1);
        let count = bytes.len().min(self.step.max(1)).min(self.room);
        let is_full = count == 0 && !bytes.is_empty();
        if is_full || self.taken.extend_from_slice(&bytes[..count]).is_err() {
            return Err(self.fail());
        }
        self.room -= count;
        Ok(count)
    }

    // A flush, also of a sink that has failed.
    fn send(&mut self) -> Result<(), Broken>
        ensures flushed { min self.new.flushes 255 ≡ one_more (min self.old.flushes 255) }
        ensures flag { MatchResult result (λ _. self.new.failed ≡ self.old.failed) (λ _. self.new.failed ≡ true) }
    {
        self.flushes = self.flushes.saturating_add(1);
        if self.flush_fails {
            self.flush_fails = false;
            return Err(self.fail());
        }
        self.flushed = self.taken.len();
        Ok(())
    }
}

impl Sink for FakeSink {
    ghost seen = { λ s. record { bytes = None; failed = s.failed; flushes = min s.flushes 255 } };

    fn write(&mut self, bytes: &[u8]) -> Result<usize, Broken> {
        self.take(bytes)
    }

    fn flush(&mut self) -> Result<(), Broken> {
        self.send()
    }

    fn failed(&self) -> bool {
        self.failed
    }
}

impl Write for FakeSink {
    fn write(&mut self, bytes: &[u8]) -> io::Result<usize> {
        match self.take(bytes) {
            Ok(count) => Ok(count),
            Err(_) if self.stalls => Ok(0),
            Err(_) => Err(io::Error::from(ErrorKind::Other)),
        }
    }

    fn flush(&mut self) -> io::Result<()> {
        self.send().map_err(|_| io::Error::from(ErrorKind::Other))
    }
}
