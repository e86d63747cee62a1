//! A folder of editions on the disk, as it is written, under its lock.
//!
//! What is written is first a part, under a name that nobody reads; it is flushed to the disk, and then a rename gives it its name,
//! which is flushed too.

ghost use Rattle.std.specs.Prelude.{◌≡◌};

use crate::edition_folder::{FolderFiles, edition_path, path_in};
use editions::{EditionFile, EditionStore, MOST_EDITION, StoreFault, WholeEdition, current_text};
use page_ids::number_read;
use std::alloc::{AllocError, Global};
use std::fs::{File, OpenFile};
use std::io::Write;
use std::rt::Files;
use std::{fs, io};

// The names of parts.
const CURRENT_PART: &str = ".current.part";

const POLICY_PART: &str = ".policy.part";

// The number that the name of an edition's folder is.
fn number_of(name: &str) -> Option<u32> {
    number_read(name.as_bytes(), MOST_EDITION).ok()
}

// Whether a name is that of an edition's part.
fn is_part(name: &str) -> bool {
    match name.strip_prefix('.') {
        Some(rest) => match rest.strip_suffix(".part") {
            Some(number) => number_of(number).is_some(),
            None => false,
        },
        None => false,
    }
}

/// Flushes a folder's names to the disk.
pub fn flush_folder<R: Files>(rt: &R, path: &str) -> io::Result<()> {
    fs::open(rt, path)?.sync_all()
}

// Writes a file and flushes it to the disk.
fn write_file<R: Files>(rt: &R, path: &str, bytes: &[u8]) -> io::Result<()> {
    let mut file = File::create(rt, path)?;
    file.write_all(bytes)?;
    file.sync_all()
}

// Makes a folder, if it isn't there.
fn make_folder<R: Files>(rt: &R, path: &str) -> io::Result<()> {
    match fs::create_dir(rt, path) {
        Err(error) if error.kind() == io::ErrorKind::AlreadyExists => Ok(()),
        made => made,
    }
}

// The path of an edition's part.
fn part_path(alloc: Global, folder: &str, number: u32) -> Result<String, AllocError> {
    format!(in alloc; "{folder}/editions/.{number}.part")
}

fn bytes_of<'e>(edition: &'e WholeEdition, file: EditionFile) -> &'e [u8] {
    match file {
        EditionFile::Base => edition.base.as_slice(),
        EditionFile::Cert => edition.cert.as_slice(),
        EditionFile::Policy => edition.policy.as_slice(),
        EditionFile::Follows => edition.follows.as_slice(),
        EditionFile::Sums => edition.sums.as_slice(),
    }
}

const FILES: [EditionFile; 5] = [
    EditionFile::Base,
    EditionFile::Cert,
    EditionFile::Policy,
    EditionFile::Follows,
    EditionFile::Sums,
];

// Writes the files of an edition into a folder of its own.
fn write_files<R: Files>(
    rt: &R,
    alloc: Global,
    part: &str,
    edition: &WholeEdition,
) -> io::Result<()> {
    fs::create_dir(rt, part)?;
    for file in FILES {
        let path = path_in(alloc, part, file.name())?;
        write_file(rt, path.as_str(), bytes_of(edition, file))?;
    }
    flush_folder(rt, part)
}

// Writes a file of the folder: first a part, which then takes its place.
fn replace_file<R: Files>(
    rt: &R,
    alloc: Global,
    folder: &str,
    part: &str,
    name: &str,
    bytes: &[u8],
) -> io::Result<()> {
    let part = path_in(alloc, folder, part)?;
    let path = path_in(alloc, folder, name)?;
    write_file(rt, part.as_str(), bytes)?;
    fs::rename(rt, part.as_str(), path.as_str())?;
    flush_folder(rt, folder)
}

/// Writes the folder's policy.
pub fn write_policy<R: Files>(rt: &R, alloc: Global, folder: &str, bytes: &[u8]) -> io::Result<()> {
    replace_file(rt, alloc, folder, POLICY_PART, "policy.toml", bytes)
}

// The whole edition under its number.
fn put_edition<R: Files>(
    rt: &R,
    alloc: Global,
    folder: &str,
    number: u32,
    edition: &WholeEdition,
) -> io::Result<()> {
    let editions = path_in(alloc, folder, "editions")?;
    let part = part_path(alloc, folder, number)?;
    let path = edition_path(alloc, folder, number)?;
    make_folder(rt, editions.as_str())?;
    flush_folder(rt, folder)?;
    write_files(rt, alloc, part.as_str(), edition)?;
    fs::rename(rt, part.as_str(), path.as_str())?;
    flush_folder(rt, editions.as_str())
}

// What is in a folder, unless its name isn't UTF-8: nothing of a folder of editions has such a name.
fn named<T>(entry: io::Result<T>) -> io::Result<Option<T>> {
    match entry {
        Ok(entry) => Ok(Some(entry)),
        Err(error) if error.kind() == io::ErrorKind::InvalidFilename => Ok(None),
        Err(error) => Err(error),
    }
}

// The numbers of the editions.
fn read_numbers<R: Files + AllocGlobal + Clone + Drop>(
    rt: &R,
    alloc: Global,
    folder: &str,
) -> io::Result<Vec<u32>> {
    let editions = path_in(alloc, folder, "editions")?;
    let mut numbers = Vec::new(alloc);
    let entries = match fs::read_dir(rt, editions.as_str()) {
        Ok(entries) => entries,
        Err(error) if error.kind() == io::ErrorKind::NotFound => return Ok(numbers),
        Err(error) => return Err(error),
    };
    for entry in entries {
        if let Some(entry) = named(entry)?
            && let Some(number) = number_of(entry.file_name())
        {
            numbers.push(number)?;
        }
    }
    Ok(numbers)
}

// Removes a file, if it is there.
fn remove_file<R: Files>(rt: &R, alloc: Global, folder: &str, name: &str) -> io::Result<()> {
    let path = path_in(alloc, folder, name)?;
    match fs::remove_file(rt, path.as_str()) {
        Err(error) if error.kind() == io::ErrorKind::NotFound => Ok(()),
        removed => removed,
    }
}

// Removes the parts of editions.
fn remove_editions_parts<R: Files + AllocGlobal + Clone + Drop>(
    rt: &R,
    alloc: Global,
    folder: &str,
) -> io::Result<()> {
    let editions = path_in(alloc, folder, "editions")?;
    let entries = match fs::read_dir(rt, editions.as_str()) {
        Ok(entries) => entries,
        Err(error) if error.kind() == io::ErrorKind::NotFound => return Ok(()),
        Err(error) => return Err(error),
    };
    for entry in entries {
        if let Some(entry) = named(entry)?
            && is_part(entry.file_name())
        {
            fs::remove_dir_all(rt, entry.path())?;
        }
    }
    Ok(())
}

fn remove_all_parts<R: Files + AllocGlobal + Clone + Drop>(
    rt: &R,
    alloc: Global,
    folder: &str,
) -> io::Result<()> {
    remove_file(rt, alloc, folder, CURRENT_PART)?;
    remove_file(rt, alloc, folder, POLICY_PART)?;
    remove_editions_parts(rt, alloc, folder)
}

impl<'a, R: Files + AllocGlobal + Clone + Drop> FolderFiles<'a, R> {
    // The fault of a call on a file of the folder.
    fn fault_at(&mut self, alloc: Global, name: &str, error: &io::Error) -> StoreFault
        ensures held { self.new.held ≡ self.old.held }
    {
        match path_in(alloc, self.path, name) {
            Ok(path) => self.fail_write(path, error),
            Err(_) => StoreFault::Memory,
        }
    }
}

impl<'a, R: Files + AllocGlobal + Clone + Drop> EditionStore for FolderFiles<'a, R> {
    fn numbers(&mut self, alloc: Global) -> Result<Vec<u32>, StoreFault> {
        match read_numbers(self.rt, alloc, self.path) {
            Ok(numbers) => Ok(numbers),
            Err(error) => Err(self.fault_at(alloc, "editions", &error)),
        }
    }

    fn remove_parts(&mut self, alloc: Global) -> Result<(), StoreFault> {
        match remove_all_parts(self.rt, alloc, self.path) {
            Ok(()) => Ok(()),
            Err(error) => Err(self.fault_at(alloc, "editions", &error)),
        }
    }

    fn write_edition(
        &mut self,
        alloc: Global,
        number: u32,
        edition: &WholeEdition,
    ) -> Result<(), StoreFault> {
        match put_edition(self.rt, alloc, self.path, number, edition) {
            Ok(()) => Ok(()),
            Err(error) => {
                // a full disk isn't left full; what can't be removed the next publish removes
                let _ = remove_editions_parts(self.rt, alloc, self.path);
                Err(self.fault_at(alloc, "editions", &error))
            }
        }
    }

    fn set_current(&mut self, alloc: Global, number: u32) -> Result<(), StoreFault> {
        let Ok(text) = current_text(alloc, number) else {
            return Err(StoreFault::Memory);
        };
        match replace_file(
            self.rt,
            alloc,
            self.path,
            CURRENT_PART,
            "current",
            text.as_slice(),
        ) {
            Ok(()) => Ok(()),
            Err(error) => Err(self.fault_at(alloc, "current", &error)),
        }
    }
}
