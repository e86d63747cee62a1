//! A folder of editions on the disk, as it is read.
//!
//! A file that isn't there is no fault; why another one can't be read is kept, with its path.

ghost use Rattle.std.specs.Prelude.{◌≡◌, true, None};

use crate::opening::{Unfinished, unread, unwritten};
use audit_report::{FromRead, SourceFault, read_whole};
use base_text::MOST_TEXT;
use editions::{EditionFile, EditionFolder, StoreFault};
use policy_text::{MOST_POLICY_TEXT, widest_text};
use std::alloc::{AllocError, Global};
use std::rt::Files;
use std::{fs, io};

// One byte more than any number's line has.
const MOST_LINE: usize = 11;

// More than four lines of sums have.
const MOST_SUMS: usize = 1_024;

// More than a certificate of 65,535 rows has.
const MOST_CERT: usize = 16_777_216;

/// Why a file of the folder can't be read or written.
#[derive(Drop)]
pub struct Failed {
    pub path: String,
    pub why: Unfinished,
}

/// A folder of editions. Contracts see that its lock is held, if it is, and nothing of what is in it.
#[derive(Drop)]
pub struct FolderFiles<'a, R> {
    pub rt: &'a R,
    /// The folder's path.
    pub path: &'a str,
    /// Whether this program holds the lock, until it ends.
    pub held: bool,
    /// Whether there is no such folder: it then has the widest policy.
    pub is_missing: bool,
    /// The last call that failed, but for refused memory.
    pub failed: Option<Failed>,
}

impl<'a, R: Files> FolderFiles<'a, R> {
    /// A folder that is read without its lock.
    pub fn reading(rt: &'a R, path: &'a str) -> FolderFiles<'a, R> {
        FolderFiles {
            rt,
            path,
            held: false,
            is_missing: false,
            failed: None,
        }
    }

    /// A folder whose lock is held as long as this is used; or one that isn't there.
    pub fn locked(rt: &'a R, path: &'a str, is_missing: bool) -> FolderFiles<'a, R>
        ensures { ⟦<FolderFiles<'a, R> as EditionFolder>⟧.seen result ≡ record { state = None; held = true } }
    {
        FolderFiles {
            rt,
            path,
            held: true,
            is_missing,
            failed: None,
        }
    }

    /// Keeps why a file can't be read.
    pub fn fail_read(&mut self, path: String, error: &io::Error) -> StoreFault
        ensures held { self.new.held ≡ self.old.held }
    {
        if error.kind() == io::ErrorKind::OutOfMemory {
            return StoreFault::Memory;
        }
        let why = unread(error);
        self.failed = Some(Failed { path, why });
        StoreFault::Broken
    }

    /// Keeps why a file can't be written.
    pub fn fail_write(&mut self, path: String, error: &io::Error) -> StoreFault
        ensures held { self.new.held ≡ self.old.held }
    {
        if error.kind() == io::ErrorKind::OutOfMemory {
            return StoreFault::Memory;
        }
        let why = unwritten(error);
        self.failed = Some(Failed { path, why });
        StoreFault::Broken
    }

    // The bytes of a file of this path, up to a limit.
    fn read_path(
        &mut self,
        alloc: Global,
        path: String,
        most: usize,
    ) -> Result<Option<Vec<u8>>, StoreFault>
        ensures held { self.new.held ≡ self.old.held }
    {
        match fs::open(self.rt, path.as_str()) {
            Ok(file) => match read_whole(alloc, &mut FromRead::new(file), most) {
                Ok(bytes) => Ok(Some(bytes)),
                Err(SourceFault::Memory) => Err(StoreFault::Memory),
                Err(SourceFault::Broken) => {
                    self.failed = Some(Failed {
                        path,
                        why: Unfinished::Unread("read failed"),
                    });
                    Err(StoreFault::Broken)
                }
            },
            Err(error) if error.kind() == io::ErrorKind::NotFound => Ok(None),
            Err(error) => Err(self.fail_read(path, &error)),
        }
    }

    // The bytes of a file in the folder, up to a limit.
    fn read_in(
        &mut self,
        alloc: Global,
        name: &str,
        most: usize,
    ) -> Result<Option<Vec<u8>>, StoreFault>
        ensures held { self.new.held ≡ self.old.held }
    {
        match path_in(alloc, self.path, name) {
            Ok(path) => self.read_path(alloc, path, most),
            Err(_) => Err(StoreFault::Memory),
        }
    }
}

/// The path of a file in the folder.
pub fn path_in(alloc: Global, folder: &str, name: &str) -> Result<String, AllocError> {
    format!(in alloc; "{folder}/{name}")
}

/// The path of an edition.
pub fn edition_path(alloc: Global, folder: &str, number: u32) -> Result<String, AllocError> {
    format!(in alloc; "{folder}/editions/{number}")
}

// The most bytes that are read of a file: one more than it may have.
fn limit_of(file: EditionFile) -> usize {
    match file {
        EditionFile::Base => MOST_TEXT + 1,
        EditionFile::Cert => MOST_CERT,
        EditionFile::Policy => MOST_POLICY_TEXT + 1,
        EditionFile::Follows => MOST_LINE,
        EditionFile::Sums => MOST_SUMS,
    }
}

fn file_path(
    alloc: Global,
    folder: &str,
    number: u32,
    file: EditionFile,
) -> Result<String, AllocError> {
    let name = file.name();
    format!(in alloc; "{folder}/editions/{number}/{name}")
}

impl<'a, R: Files> EditionFolder for FolderFiles<'a, R> {
    ghost seen = { λ s. record { state = None; held = s.held } };

    fn read_current(&mut self, alloc: Global) -> Result<Option<Vec<u8>>, StoreFault> {
        self.read_in(alloc, "current", MOST_LINE)
    }

    fn read_policy(&mut self, alloc: Global) -> Result<Option<Vec<u8>>, StoreFault> {
        if self.is_missing {
            return match widest_text(alloc) {
                Ok(text) => Ok(Some(text)),
                Err(_) => Err(StoreFault::Memory),
            };
        }
        self.read_in(alloc, "policy.toml", MOST_POLICY_TEXT + 1)
    }

    fn read_file(
        &mut self,
        alloc: Global,
        number: u32,
        file: EditionFile,
    ) -> Result<Option<Vec<u8>>, StoreFault> {
        match file_path(alloc, self.path, number, file) {
            Ok(path) => self.read_path(alloc, path, limit_of(file)),
            Err(_) => Err(StoreFault::Memory),
        }
    }
}
