//! Files that are opened by their names, and why a command ends without its work done.

use audit_report::{IntoWrite, RunFault};
use std::io::Read;
use std::rt::Files;
use std::{fs, io};

/// Why a command ends without its work done.
#[derive(Debug, Clone, Copy)]
pub enum Unfinished {
    /// The file can't be opened or read, for this reason.
    Unread(&'static str),
    /// The file can't be written, for this reason.
    Unwritten(&'static str),
    /// Nobody reads what is printed.
    Unwanted,
    /// A fault of the run.
    Fault(RunFault),
}

/// What a path names.
#[derive(Drop)]
pub enum Opened<F: Drop, I: Drop> {
    File(F),
    /// Standard input, for the path `-`.
    Input(I),
}

impl<F: Read + Drop, I: Read + Drop> Read for Opened<F, I> {
    fn read(&mut self, into: &mut [u8]) -> io::Result<usize> {
        match self {
            Opened::File(file) => file.read(into),
            Opened::Input(input) => input.read(into),
        }
    }
}

// The path of standard input.
const INPUT: &str = "-";

/// Whether a path names standard input.
pub fn is_input(path: &str) -> bool {
    path == INPUT
}

/// Opens what a path names: `-` is standard input, and a file of that name is `./-`.
pub fn open<R: Files + Input>(rt: &R, path: &str) -> io::Result<Opened<R::File, R::Reader>> {
    if is_input(path) {
        Ok(Opened::Input(rt.reader()))
    } else {
        Ok(Opened::File(fs::open(rt, path)?))
    }
}

/// A path that leads to what a path names.
pub fn path_to<'a>(path: &'a str) -> &'a str {
    if is_input(path) {
        "/proc/self/fd/0"
    } else {
        path
    }
}

/// Why a file isn't read: what the system says of one that doesn't open.
pub fn unread(error: &io::Error) -> Unfinished {
    match error.kind() {
        io::ErrorKind::NotFound => Unfinished::Unread("no such file"),
        io::ErrorKind::PermissionDenied => Unfinished::Unread("permission denied"),
        io::ErrorKind::NotADirectory => Unfinished::Unread("not a directory"),
        io::ErrorKind::FilesystemLoop => Unfinished::Unread("too many links"),
        io::ErrorKind::OutOfMemory => Unfinished::Fault(RunFault::Memory),
        _ => Unfinished::Unread("can't be opened"),
    }
}

/// Why a file isn't written.
pub fn unwritten(error: &io::Error) -> Unfinished {
    match error.kind() {
        io::ErrorKind::OutOfMemory => Unfinished::Fault(RunFault::Memory),
        io::ErrorKind::NotFound => Unfinished::Unwritten("no such folder"),
        io::ErrorKind::PermissionDenied => Unfinished::Unwritten("permission denied"),
        io::ErrorKind::NotADirectory => Unfinished::Unwritten("not a directory"),
        io::ErrorKind::IsADirectory => Unfinished::Unwritten("is a directory"),
        io::ErrorKind::StorageFull => Unfinished::Unwritten("no space left"),
        io::ErrorKind::ReadOnlyFilesystem => Unfinished::Unwritten("read-only file system"),
        _ => Unfinished::Unwritten("can't be written"),
    }
}

/// Whether a path names a folder.
pub fn is_folder<R: Files>(rt: &R, path: &str) -> bool {
    match fs::metadata(rt, path_to(path)) {
        Ok(there) => there.is_dir(),
        Err(_) => false,
    }
}

/// The base of a path. A folder opens and then fails to read: so it is named before.
pub fn open_base<R: Files + Input>(
    rt: &R,
    path: &str,
) -> Result<Opened<R::File, R::Reader>, Unfinished> {
    if is_folder(rt, path) {
        return Err(Unfinished::Unread("is a directory"));
    }
    match open(rt, path) {
        Ok(file) => Ok(file),
        Err(error) => Err(unread(&error)),
    }
}

/// The end of a run that wrote to this output.
pub fn ended<T, W: io::Write>(
    run: Result<T, RunFault>,
    out: &IntoWrite<W>,
) -> Result<T, Unfinished> {
    match run {
        Ok(done) => Ok(done),
        Err(RunFault::Write(_)) if out.is_closed() => Err(Unfinished::Unwanted),
        Err(RunFault::ReadBase) => Err(Unfinished::Unread("read failed")),
        Err(fault) => Err(Unfinished::Fault(fault)),
    }
}

// The length of a certificate's first line.
const HEAD: usize = 5;

// Whether the first line of an open file is a certificate's.
fn begins_certificate<F: Read>(file: &mut F) -> bool {
    let mut head = [0; HEAD];
    match file.read(&mut head) {
        Ok(HEAD) => head == *b"PBC1\n" || head == *b"PBC2\n",
        _ => false,
    }
}

/// Whether a path names a certificate. What isn't a regular file can't be read again.
pub fn is_certificate<R: Files>(rt: &R, path: &str) -> bool {
    match fs::metadata(rt, path) {
        Ok(there) if there.is_file() => match fs::open(rt, path) {
            Ok(file) => {
                let mut file = file;
                begins_certificate(&mut file)
            }
            Err(_) => false,
        },
        _ => false,
    }
}
