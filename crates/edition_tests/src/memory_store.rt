//! A folder of editions in memory. One of its writes fails, before or after it is done.

ghost use Rattle.std.specs.Prelude.{true, None};

use editions::{EditionFile, EditionFolder, EditionStore, StoreFault, WholeEdition, current_text};
use std::alloc::{AllocError, Global};

#[derive(Drop)]
pub struct MemoryStore {
    pub editions: Vec<(u32, WholeEdition)>,
    /// How many parts a stop left.
    pub parts: usize,
    /// The bytes of `current`.
    pub current: Option<Vec<u8>>,
    pub policy: Option<Vec<u8>>,
    /// How many writes there were.
    pub writes: usize,
    /// The write that fails, from 1.
    pub fails_at: usize,
    /// Whether it is done before it fails.
    pub is_done: bool,
}

impl MemoryStore {
    pub fn new(alloc: Global) -> MemoryStore {
        MemoryStore {
            editions: Vec::new(alloc),
            parts: 0,
            current: None,
            policy: None,
            writes: 0,
            fails_at: 0,
            is_done: false,
        }
    }

    fn fails(&self) -> bool {
        self.writes == self.fails_at
    }

    // Whether the next write is done.
    fn begin(&mut self) -> bool {
        self.writes = self.writes.saturating_add(1);
        self.is_done || !self.fails()
    }

    fn end(&self) -> Result<(), StoreFault> {
        if self.fails() {
            Err(StoreFault::Broken)
        } else {
            Ok(())
        }
    }

    /// The edition of a number.
    pub fn edition(&self, number: u32) -> Option<&WholeEdition> {
        for (kept, edition) in &self.editions {
            if *kept == number {
                return Some(edition);
            }
        }
        None
    }
}

/// A copy of bytes.
pub fn copied(alloc: Global, bytes: &[u8]) -> Result<Vec<u8>, AllocError> {
    let mut copy = Vec::new(alloc);
    copy.extend_from_slice(bytes)?;
    Ok(copy)
}

fn copied_edition(alloc: Global, edition: &WholeEdition) -> Result<WholeEdition, AllocError> {
    Ok(WholeEdition {
        base: copied(alloc, edition.base.as_slice())?,
        cert: copied(alloc, edition.cert.as_slice())?,
        policy: copied(alloc, edition.policy.as_slice())?,
        follows: copied(alloc, edition.follows.as_slice())?,
        sums: copied(alloc, edition.sums.as_slice())?,
    })
}

fn read(alloc: Global, bytes: Option<&[u8]>) -> Result<Option<Vec<u8>>, StoreFault> {
    match bytes {
        Some(bytes) => match copied(alloc, bytes) {
            Ok(copy) => Ok(Some(copy)),
            Err(_) => Err(StoreFault::Memory),
        },
        None => Ok(None),
    }
}

fn file_of<'e>(edition: &'e WholeEdition, file: EditionFile) -> &'e [u8] {
    match file {
        EditionFile::Base => edition.base.as_slice(),
        EditionFile::Cert => edition.cert.as_slice(),
        EditionFile::Policy => edition.policy.as_slice(),
        EditionFile::Follows => edition.follows.as_slice(),
        EditionFile::Sums => edition.sums.as_slice(),
    }
}

impl EditionFolder for MemoryStore {
    ghost seen = { λ s. record { state = None; held = true } };

    fn read_current(&mut self, alloc: Global) -> Result<Option<Vec<u8>>, StoreFault> {
        match &self.current {
            Some(text) => read(alloc, Some(text.as_slice())),
            None => Ok(None),
        }
    }

    fn read_policy(&mut self, alloc: Global) -> Result<Option<Vec<u8>>, StoreFault> {
        match &self.policy {
            Some(text) => read(alloc, Some(text.as_slice())),
            None => Ok(None),
        }
    }

    fn read_file(
        &mut self,
        alloc: Global,
        number: u32,
        file: EditionFile,
    ) -> Result<Option<Vec<u8>>, StoreFault> {
        match self.edition(number) {
            Some(edition) => read(alloc, Some(file_of(edition, file))),
            None => Ok(None),
        }
    }
}

impl EditionStore for MemoryStore {
    fn numbers(&mut self, alloc: Global) -> Result<Vec<u32>, StoreFault> {
        let mut numbers = Vec::new(alloc);
        for (number, _) in &self.editions {
            if numbers.push(*number).is_err() {
                return Err(StoreFault::Memory);
            }
        }
        Ok(numbers)
    }

    fn remove_parts(&mut self, _alloc: Global) -> Result<(), StoreFault> {
        if self.begin() {
            self.parts = 0;
        }
        self.end()
    }

    fn write_edition(
        &mut self,
        alloc: Global,
        number: u32,
        edition: &WholeEdition,
    ) -> Result<(), StoreFault> {
        self.parts = self.parts.saturating_add(1);
        if self.begin() {
            let Ok(copy) = copied_edition(alloc, edition) else {
                return Err(StoreFault::Memory);
            };
            if self.editions.push((number, copy)).is_err() {
                return Err(StoreFault::Memory);
            }
            self.parts = self.parts.saturating_sub(1);
        }
        self.end()
    }

    fn set_current(&mut self, alloc: Global, number: u32) -> Result<(), StoreFault> {
        if self.begin() {
            let Ok(text) = current_text(alloc, number) else {
                return Err(StoreFault::Memory);
            };
            self.current = Some(text);
        }
        self.end()
    }
}
