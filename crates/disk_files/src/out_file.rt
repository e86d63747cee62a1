//! The file that `--out` names. A text is written beside it under another name, which then takes its place, so that an old
//! certificate or screen is never lost to a failed run. What isn't a regular file, as a pipe, is written directly, and the file of
//! standard output or standard error through that stream, whose other text is kept.

use crate::opening::{Unfinished, unwritten};
use audit_report::RunFault;
use std::fs::{File, Metadata, OpenFile, OpenOptions};
use std::os::unix::fs::MetadataExt;
use std::path::PathBuf;
use std::rt::Files;
use std::{fs, io};

/// What the text is written to.
#[derive(Drop)]
pub enum Out<F: Drop> {
    /// The file of standard output, after what is in it.
    Output,
    /// The file of standard error.
    Errors,
    /// A file that is open for the text alone.
    File(OutFile, F),
}

/// A file that is open for a text.
#[derive(Drop)]
pub struct OutFile {
    // The name that takes the file's place, and that of the file; none if the file itself is written.
    names: Option<(String, PathBuf)>,
}

// As many links as the system follows.
const MOST_LINKS: usize = 40;

fn are_same(one: &Metadata, other: &Metadata) -> bool {
    one.dev() == other.dev() && one.ino() == other.ino()
}

/// A file as it was at a time: another one in its place, or one that was written, is another.
#[derive(Debug, Clone, Copy, PartialEq, Eq)]
pub struct Seen {
    device: u64,
    node: u64,
    size: u64,
    seconds: i64,
    nanoseconds: i64,
}

/// The file that a path leads to, as it is now; `None` if there is none.
pub fn seen_at<R: Files>(rt: &R, path: &str) -> Option<Seen> {
    let there = fs::metadata(rt, path).ok()?;
    Some(Seen {
        device: there.dev(),
        node: there.ino(),
        size: there.size(),
        seconds: there.mtime(),
        nanoseconds: there.mtime_nsec(),
    })
}

// Whether a path leads to a file. A path that leads nowhere doesn't.
fn leads_to(rt: &impl Files, path: &str, file: &Metadata) -> bool {
    match fs::metadata(rt, path) {
        Ok(there) => are_same(&there, file),
        Err(_) => false,
    }
}

/// Whether both paths lead to one file. A missing file is no other file.
pub fn is_same_file(rt: &impl Files, one: &str, other: &str) -> bool {
    match fs::metadata(rt, one) {
        Ok(there) => leads_to(rt, other, &there),
        Err(_) => false,
    }
}

// What a link leads to, from the folder that it is in. The links of the system's own folder of processes are open files: no name
// takes the place of one.
fn target_of<R: Files + AllocGlobal>(rt: &R, link: &str, target: &str) -> io::Result<PathBuf> {
    let link = PathBuf::from_str(rt.alloc(), link)?;
    let folder = match link.as_path().parent() {
        Some(folder) if !folder.as_str().is_empty() => folder.as_str(),
        _ => ".",
    };
    let folder = fs::canonicalize(rt, folder)?;
    if folder.as_path().starts_with("/proc") {
        return Err(io::Error::from(io::ErrorKind::PermissionDenied));
    }
    Ok(folder.as_path().join(rt.alloc(), target)?)
}

/// The path that a path leads to through links. There need not be such a file yet.
pub fn followed<R: Files + AllocGlobal>(rt: &R, path: &str) -> io::Result<PathBuf> {
    let mut path = PathBuf::from_str(rt.alloc(), path)?;
    for _ in 0..MOST_LINKS {
        match fs::read_link(rt, &path) {
            Ok(target) => path = target_of(rt, path.as_path().as_str(), target.as_path().as_str())?,
            Err(error) => {
                return match error.kind() {
                    io::ErrorKind::InvalidInput | io::ErrorKind::NotFound => Ok(path),
                    _ => Err(error),
                };
            }
        }
    }
    Err(io::Error::from(io::ErrorKind::FilesystemLoop))
}

/// A new file beside a path: FILE.tmp0, or the next number if that is taken.
pub fn new_beside<R: Files + AllocGlobal>(rt: &R, path: &str) -> io::Result<(String, R::File)> {
    for number in 0..99u32 {
        let name = format!(in rt.alloc(); "{path}.tmp{number}")?;
        match File::create_new(rt, name.as_str()) {
            Ok(file) => return Ok((name, file)),
            Err(error) if error.kind() == io::ErrorKind::AlreadyExists => {}
            Err(error) => return Err(error),
        }
    }
    Err(io::Error::from(io::ErrorKind::AlreadyExists))
}

// Opens a new file beside one that is there, with its permissions, or beside a place where there is none yet.
fn open_beside<R: Files + AllocGlobal>(
    rt: &R,
    asked: &str,
    there: Option<&Metadata>,
) -> io::Result<Out<R::File>> {
    let path = followed(rt, asked)?;
    if there.is_some() && !is_same_file(rt, asked, path.as_path().as_str()) {
        return Err(io::Error::from(io::ErrorKind::NotFound));
    }
    let (name, file) = new_beside(rt, path.as_path().as_str())?;
    if let Some(there) = there {
        let _ = fs::set_permissions(rt, name.as_str(), there.permissions());
    }
    let names = Some((name, path));
    Ok(Out::File(OutFile { names }, file))
}

// Opens what is there for the text.
fn open_there<R: Files + AllocGlobal>(
    rt: &R,
    path: &str,
    there: &Metadata,
) -> io::Result<Out<R::File>> {
    if leads_to(rt, "/proc/self/fd/1", there) {
        return Ok(Out::Output);
    }
    if leads_to(rt, "/proc/self/fd/2", there) {
        return Ok(Out::Errors);
    }
    if there.is_file() {
        return open_beside(rt, path, Some(there));
    }
    let file = OpenOptions::new().write(true).open(rt, path)?;
    Ok(Out::File(OutFile { names: None }, file))
}

/// Opens what the text is written to. A regular file that is reached through a descriptor of another stream, as
/// /dev/fd/3, is refused: neither a new file in its place nor one that is written from its beginning is what its reader expects.
pub fn open_out<R: Files + AllocGlobal>(rt: &R, path: &str) -> io::Result<Out<R::File>> {
    match fs::metadata(rt, path) {
        Ok(there) => open_there(rt, path, &there),
        Err(error) if error.kind() == io::ErrorKind::NotFound => open_beside(rt, path, None),
        Err(error) => Err(error),
    }
}

/// Opens the file that `--out` names; standard output without one.
pub fn named_out<R: Files + AllocGlobal>(
    rt: &R,
    path: Option<&str>,
) -> Result<Out<R::File>, Unfinished> {
    let Some(path) = path else {
        return Ok(Out::Output);
    };
    match open_out(rt, path) {
        Ok(out) => Ok(out),
        Err(error) => Err(unwritten(&error)),
    }
}

impl OutFile {
    /// Closes the file, and gives the text its name if the run ended with the status that says it was written whole, and it is on the
    /// disk; else nothing of it is left.
    pub fn close<R: Files, T: PartialEq + Drop>(
        self,
        rt: &R,
        file: R::File,
        run: Result<T, RunFault>,
        whole: &T,
    ) -> Result<T, RunFault> {
        let Some((name, path)) = &self.names else {
            return run;
        };
        let is_whole = matches!(&run, Ok(status) if status == whole);
        // a network's disk may refuse only now what it can't hold
        let is_kept = is_whole && file.sync_all().is_ok();
        drop(file);
        if is_kept && fs::rename(rt, name.as_str(), path).is_ok() {
            return run;
        }
        let _ = fs::remove_file(rt, name.as_str());
        if is_whole {
            return Err(RunFault::Write(0));
        }
        run
    }
}
