//! A folder of editions in memory that keeps one edition and the number of its writes, one of which fails.

ghost use Rattle.std.specs.Prelude.{true, None};

use editions::{EditionFile, EditionFolder, EditionStore, StoreFault, WholeEdition};
use std::alloc::Global;

#[derive(Drop)]
pub struct FakeFolder {
    /// The numbers of the editions.
    pub numbers: Vec<u32>,
    /// The files of the edition that was there at first, in the order of `EditionFile`.
    pub files: Vec<(EditionFile, Vec<u8>)>,
    /// The number that `current` names.
    pub current: Option<u32>,
    /// How many writes there were.
    pub writes: usize,
    /// The write that fails, from 1.
    pub fails_at: usize,
}

impl FakeFolder {
    fn write(&mut self) -> Result<(), StoreFault> {
        self.writes = self.writes.saturating_add(1);
        if self.writes == self.fails_at {
            Err(StoreFault::Broken)
        } else {
            Ok(())
        }
    }
}

// A copy of bytes.
fn copied(alloc: Global, bytes: &[u8]) -> Result<Option<Vec<u8>>, StoreFault> {
    let mut copy = Vec::new(alloc);
    match copy.extend_from_slice(bytes) {
        Ok(()) => Ok(Some(copy)),
        Err(_) => Err(StoreFault::Memory),
    }
}

impl EditionFolder for FakeFolder {
    ghost seen = { λ s. record { state = None; held = true } };

    fn read_current(&mut self, alloc: Global) -> Result<Option<Vec<u8>>, StoreFault> {
        match self.current {
            Some(number) => match editions::current_text(alloc, number) {
                Ok(text) => Ok(Some(text)),
                Err(_) => Err(StoreFault::Memory),
            },
            None => Ok(None),
        }
    }

    fn read_policy(&mut self, _alloc: Global) -> Result<Option<Vec<u8>>, StoreFault> {
        Ok(None)
    }

    fn read_file(
        &mut self,
        alloc: Global,
        number: u32,
        file: EditionFile,
    ) -> Result<Option<Vec<u8>>, StoreFault> {
        if Some(number) != self.numbers.first().copied() {
            return Ok(None);
        }
        for (kept, bytes) in &self.files {
            if *kept == file {
                return copied(alloc, bytes.as_slice());
            }
        }
        Ok(None)
    }
}

impl EditionStore for FakeFolder {
    fn numbers(&mut self, alloc: Global) -> Result<Vec<u32>, StoreFault> {
        let mut copy = Vec::new(alloc);
        match copy.extend_from_slice(self.numbers.as_slice()) {
            Ok(()) => Ok(copy),
            Err(_) => Err(StoreFault::Memory),
        }
    }

    fn remove_parts(&mut self, _alloc: Global) -> Result<(), StoreFault> {
        self.write()
    }

    fn write_edition(
        &mut self,
        _alloc: Global,
        number: u32,
        _edition: &WholeEdition,
    ) -> Result<(), StoreFault> {
        match self.write() {
            Ok(()) => match self.numbers.push(number) {
                Ok(()) => Ok(()),
                Err(_) => Err(StoreFault::Memory),
            },
            Err(fault) => Err(fault),
        }
    }

    fn set_current(&mut self, _alloc: Global, number: u32) -> Result<(), StoreFault> {
        match self.write() {
            Ok(()) => {
                self.current = Some(number);
                Ok(())
            }
            Err(fault) => Err(fault),
        }
    }
}
