//! A folder of one edition, and both ends of a line, of which the source sees what the sink has flushed.

ghost use Rattle.std.specs.Prelude.{true, false, None};

use devices::{Broken, Sink, Source};
use editions::{EditionFile, EditionFolder, StoreFault};
use one_call::CallLog;
use page_ids::push_number;
use std::alloc::Global;
use std::cell::Cell;

/// What `current` says, and the texts of the edition 7.
#[derive(Drop)]
pub struct OneEdition<'a> {
    pub current: &'a str,
    pub base: &'a str,
    pub cert: &'a str,
    pub policy: &'a str,
}

// A copy of a text; one that is empty isn't there, and `!` can't be read.
pub fn copied(alloc: Global, text: &str) -> Result<Option<Vec<u8>>, StoreFault> {
    if text.is_empty() {
        return Ok(None);
    }
    if text == "!" {
        return Err(StoreFault::Broken);
    }
    let mut copy = Vec::new(alloc);
    match copy.extend_from_slice(text.as_bytes()) {
        Ok(()) => Ok(Some(copy)),
        Err(_) => Err(StoreFault::Memory),
    }
}

impl EditionFolder for OneEdition<'_> {
    ghost seen = { λ s. record { state = None; held = false } };

    fn read_current(&mut self, alloc: Global) -> Result<Option<Vec<u8>>, StoreFault> {
        copied(alloc, self.current)
    }

    fn read_policy(&mut self, _alloc: Global) -> Result<Option<Vec<u8>>, StoreFault> {
        Err(StoreFault::Broken)
    }

    fn read_file(
        &mut self,
        alloc: Global,
        number: u32,
        file: EditionFile,
    ) -> Result<Option<Vec<u8>>, StoreFault> {
        if number != 7 {
            return Ok(None);
        }
        match file {
            EditionFile::Base => copied(alloc, self.base),
            EditionFile::Cert => copied(alloc, self.cert),
            EditionFile::Policy => copied(alloc, self.policy),
            EditionFile::Follows | EditionFile::Sums => Err(StoreFault::Broken),
        }
    }
}

/// What the sink has taken and not flushed, and how often it was flushed with something taken since.
#[derive(Drop)]
pub struct Wire {
    waiting: Cell<usize>,
    answers: Cell<usize>,
}

impl Wire {
    pub fn new() -> Wire {
        Wire {
            waiting: Cell::new(0),
            answers: Cell::new(0),
        }
    }
}

/// The caller's end: gives its bytes, and notes how many answers had come before each read. A read while bytes wait for a flush
/// is noted as 999.
#[derive(Drop)]
pub struct CallerKeys<'a> {
    pub wire: &'a Wire,
    pub bytes: &'a [u8],
    pub before: Vec<usize>,
    pub failed: bool,
}

impl Source for CallerKeys<'_> {
    ghost seen = { λ s. record { bytes = None; failed = s.failed; flushes = 0 } };

    fn read(&mut self, into: &mut [u8]) -> Result<usize, Broken> {
        let note = if self.wire.waiting.get() == 0 {
            self.wire.answers.get()
        } else {
            999
        };
        if self.before.push(note).is_err() {
            self.failed = true;
            return Err(Broken);
        }
        let count = into.len().min(self.bytes.len());
        into[..count].copy_from_slice(&self.bytes[..count]);
        self.bytes = &self.bytes[count..];
        Ok(count)
    }

    fn failed(&self) -> bool {
        self.failed
    }
}

/// The centre's end: keeps what it takes, and fails after `room` bytes.
#[derive(Drop)]
pub struct CallerTerminal<'a> {
    pub wire: &'a Wire,
    pub taken: Vec<u8>,
    pub room: usize,
    pub flushes: u8,
    pub failed: bool,
}

impl Sink for CallerTerminal<'_> {
    ghost seen = { λ s. record { bytes = None; failed = s.failed; flushes = s.flushes } };

    fn write(&mut self, bytes: &[u8]) -> Result<usize, Broken> {
        let count = bytes.len().min(self.room);
        let is_full = count == 0 && !bytes.is_empty();
        if is_full || self.taken.extend_from_slice(&bytes[..count]).is_err() {
            self.failed = true;
            return Err(Broken);
        }
        self.room -= count;
        self.wire
            .waiting
            .set(self.wire.waiting.get().saturating_add(count));
        Ok(count)
    }

    fn flush(&mut self) -> Result<(), Broken> {
        if self.wire.waiting.get() > 0 {
            self.wire
                .answers
                .set(self.wire.answers.get().saturating_add(1));
        }
        self.wire.waiting.set(0);
        self.flushes = self.flushes.saturating_add(1);
        Ok(())
    }

    fn failed(&self) -> bool {
        self.failed
    }
}

/// What was noted of a call: `+7` its beginning in edition 7, `>8` a change to edition 8, `k` a key.
#[derive(Drop)]
pub struct Notes {
    pub text: Vec<u8>,
}

impl Notes {
    pub fn new(alloc: Global) -> Notes {
        Notes {
            text: Vec::new(alloc),
        }
    }

    fn note(&mut self, sign: u8, number: u32) {
        let _ = self.text.push(sign);
        let _ = push_number(&mut self.text, u64::from(number));
    }
}

impl CallLog for Notes {
    fn begins(&mut self, number: u32) {
        self.note(b'+', number);
    }

    fn changes(&mut self, number: u32) {
        self.note(b'>', number);
    }

    fn key(&mut self) {
        let _ = self.text.push(b'k');
    }
}
