ghost use Rattle.std.specs.Prelude.{◌≡◌, false};

use crate::device::{Broken, Source};
use std::io::Read;

/// A reader of std as a source.
#[derive(Drop)]
pub struct FromRead<R> {
    inner: R,
    failed: bool,
}

impl<R: Read> FromRead<R> {
    /// A source of the bytes that the reader still gives.
    pub fn new(inner: R) -> FromRead<R>
        ensures { ⟦<FromRead<R> as Source>⟧.seen result ≡
            record { bytes = R.remaining inner; failed = false; flushes = 0 } }
    {
        FromRead {
            inner,
            failed: false,
        }
    }
}

impl<R: Read> Source for FromRead<R> {
    ghost seen = { λ s. record { bytes = R.remaining s.inner; failed = s.failed; flushes = 0 } };

    fn read(&mut self, into: &mut [u8]) -> Result<usize, Broken> {
        match self.inner.read(into) {
            Ok(count) => Ok(count),
            Err(_) => {
                self.failed = true;
                Err(Broken)
            }
        }
    }

    fn failed(&self) -> bool {
        self.failed
    }
}
