//! The files that `import` reads: a folder is the files in it.

use crate::reports::report;
use audit_report::RunFault;
use disk_files::{Unfinished, is_folder, unread};
use std::alloc::{AllocError, Global};
use std::rt::Files;
use std::{fs, io};

// Adds the files of a folder, but for those whose names begin with a dot. A folder in it isn't read. Whether each name is UTF-8: a
// file of another is left out.
fn push_entries<R: Files + AllocGlobal + Clone + Drop>(
    rt: &R,
    folder: &str,
    paths: &mut Vec<String>,
) -> io::Result<bool> {
    let mut are_named = true;
    for entry in fs::read_dir(rt, folder)? {
        match entry {
            Ok(entry) => {
                let name = entry.file_name();
                let path = format!(in rt.alloc(); "{folder}/{name}")?;
                if !name.starts_with('.') && !is_folder(rt, path.as_str()) {
                    paths.push(path)?;
                }
            }
            Err(error) if error.kind() == io::ErrorKind::InvalidFilename => are_named = false,
            Err(error) => return Err(error),
        }
    }
    Ok(are_named)
}

// The files of a folder, in the order of their names, and whether these are all.
fn entries<R: Files + AllocGlobal + Clone + Drop>(
    rt: &R,
    folder: &str,
) -> Result<(Vec<String>, bool), Unfinished> {
    let mut paths = Vec::new(rt.alloc());
    let are_named = match push_entries(rt, folder, &mut paths) {
        Ok(are_named) => are_named,
        Err(error) => return Err(unread(&error)),
    };
    if paths.is_empty() && are_named {
        return Err(Unfinished::Unread("no files in this folder"));
    }
    match paths.sort() {
        Ok(()) => Ok((paths, are_named)),
        Err(_) => Err(Unfinished::Fault(RunFault::Memory)),
    }
}

fn push_path<R: AllocGlobal>(
    rt: &R,
    path: &str,
    paths: &mut Vec<String>,
) -> Result<(), AllocError> {
    paths.push(String::from_str(rt.alloc(), path)?)?;
    Ok(())
}

// Adds a file, or those of a folder.
fn push_file<R: Files + AllocGlobal + Clone + Drop>(
    rt: &R,
    path: &str,
    paths: &mut Vec<String>,
) -> Result<(), Unfinished> {
    if !is_folder(rt, path) {
        return push_path(rt, path, paths).map_err(|_| Unfinished::Fault(RunFault::Memory));
    }
    let (entries, are_all) = match entries(rt, path) {
        Ok(entries) => entries,
        Err(why) => return Err(why),
    };
    for entry in entries.as_slice() {
        if push_path(rt, entry.as_str(), paths).is_err() {
            return Err(Unfinished::Fault(RunFault::Memory));
        }
    }
    if are_all {
        Ok(())
    } else {
        Err(Unfinished::Unread("a file's name in it isn't UTF-8"))
    }
}

/// Adds the files that are asked for, and those of each folder that is. A folder that can't be read, has no files, or has one whose name
/// isn't UTF-8, is named on standard error; the exit status, 0 if there is none.
pub fn screen_paths<R: Files + Eprint + AllocGlobal + Clone + Drop>(
    rt: &R,
    screens: &[&str],
    paths: &mut Vec<String>,
) -> u8 {
    let mut status = 0;
    for path in screens {
        if let Err(why) = push_file(rt, path, paths) {
            status = report(rt, path, &why).max(status);
        }
        if status == 4 {
            return status;
        }
    }
    status
}

/// The paths as words.
pub fn words_of(alloc: Global, paths: &[String]) -> Result<Vec<&str>, AllocError> {
    let mut words = Vec::new(alloc);
    for path in paths {
        words.push(path.as_str())?;
    }
    Ok(words)
}
