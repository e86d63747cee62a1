ghost use Rattle.std.specs.Prelude.{◌≡◌, true, false, None, MatchResult};
ghost use Rattle.std.specs.Io.{ReadsAtMost};

use devices::{Broken, Source};
use std::io;
use std::io::{ErrorKind, Read};

/// Gives its bytes, `step` of them a call, then ends or fails once, and then gives the bytes in `after`.
#[derive(Drop)]
pub struct FakeSource<'a> {
    /// What it gives before it ends or fails.
    pub bytes: &'a [u8],
    after: &'a [u8],
    step: usize,
    fails: bool,
    /// How many reads there were.
    pub calls: u32,
    /// Whether a read failed.
    pub failed: bool,
}

impl<'a> FakeSource<'a> {
    /// It ends, and then gives the bytes in `after`.
    pub fn with_more(bytes: &'a [u8], step: usize, after: &'a [u8]) -> FakeSource<'a>
        ensures { result.failed ≡ false }
    {
        FakeSource {
            bytes,
            after,
            step,
            fails: false,
            calls: 0,
            failed: false,
        }
    }

    /// It ends after its bytes.
    pub fn of(bytes: &'a [u8], step: usize) -> FakeSource<'a>
        ensures { result.failed ≡ false }
    {
        FakeSource::with_more(bytes, step, &[])
    }

    /// It fails after `kept` bytes, and then gives the others.
    pub fn broken(bytes: &'a [u8], step: usize, kept: usize) -> FakeSource<'a>
        ensures { result.failed ≡ false }
    {
        let (front, after) = bytes.split_at(kept.min(bytes.len()));
        FakeSource {
            bytes: front,
            after,
            step,
            fails: true,
            calls: 0,
            failed: false,
        }
    }

    // A read, also of a source that has failed.
    fn give(&mut self, into: &mut [u8]) -> Result<usize, Broken>
        ensures fits { ReadsAtMost result into.new }
        ensures flag { MatchResult result (λ _. self.new.failed ≡ self.old.failed) (λ _. self.new.failed ≡ true) }
    {
        self.calls = self.calls.wrapping_add(1);
        if self.bytes.is_empty() {
            self.bytes = self.after;
            self.after = &[];
            if self.fails {
                self.fails = false;
                self.failed = true;
                return Err(Broken);
            }
            return Ok(0);
        }
        let count = into.len().min(self.step).min(self.bytes.len());
        into[..count].copy_from_slice(&self.bytes[..count]);
        self.bytes = &self.bytes[count..];
        Ok(count)
    }
}

impl Source for FakeSource<'_> {
    ghost seen = { λ s. record { bytes = None; failed = s.failed; flushes = 0 } };

    fn read(&mut self, into: &mut [u8]) -> Result<usize, Broken> {
        self.give(into)
    }

    fn failed(&self) -> bool {
        self.failed
    }
}

impl Read for FakeSource<'_> {
    fn read(&mut self, into: &mut [u8]) -> io::Result<usize> {
        self.give(into)
            .map_err(|_| io::Error::from(ErrorKind::Other))
    }
}
