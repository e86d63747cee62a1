//! The command `editions`: a folder is read under its lock, which is shared with others who only read.

use crate::publish_files::{
    MEMORY, NO_FILE, NO_NUMBER, UNREAD, report_edition, report_failed, report_in,
};
use crate::reports::report;
use audit_report::{IntoWrite, RunFault};
use disk_files::{FolderFiles, Unfinished, path_in, unread};
use edition_lists::{EditionsFault, FolderFault, run_list, run_verify, status_of_editions};
use std::alloc::Global;
use std::fs::File;
use std::rt::Files;
use std::{fs, io};

/// Takes the lock of a folder to read in it, and waits while a publish holds it. A copy of a folder may have none: nobody publishes into
/// it.
pub fn share_lock<R: Files<File = File>>(
    rt: &R,
    alloc: Global,
    folder: &str,
) -> io::Result<Option<File>> {
    let path = path_in(alloc, folder, "lock")?;
    match fs::open(rt, path.as_str()) {
        Ok(file) => {
            file.lock_shared()?;
            Ok(Some(file))
        }
        Err(error) if error.kind() == io::ErrorKind::NotFound => Ok(None),
        Err(error) => Err(error),
    }
}

/// Why a folder can't be read, if it can't.
pub fn shut<R: Files>(rt: &R, folder: &str) -> Option<Unfinished> {
    match fs::metadata(rt, folder) {
        Ok(there) if there.is_dir() => None,
        Ok(_) => Some(Unfinished::Unread("not a folder")),
        Err(error) if error.kind() == io::ErrorKind::NotFound => {
            Some(Unfinished::Unread("no such folder"))
        }
        Err(error) => Some(unread(&error)),
    }
}

// Says why a folder isn't read to its last edition; the exit status.
fn report_folder<'a, R: Files + Eprint + AllocGlobal>(
    rt: &R,
    store: &FolderFiles<'a, R>,
    fault: FolderFault,
) -> u8 {
    match fault {
        FolderFault::Current => report_in(rt, store.path, "current", &NO_NUMBER),
        FolderFault::Missing(number, file) => {
            report_edition(rt, store.path, number, file.name(), &NO_FILE)
        }
        FolderFault::Unread(number, file) => {
            report_edition(rt, store.path, number, file.name(), &UNREAD)
        }
        FolderFault::Broken => report_failed(rt, store),
        FolderFault::Memory => report(rt, store.path, &MEMORY),
    }
}

// Says why a run ended without its work done; the exit status. A closed pipe has no line.
fn report_editions<'a, R: Files + Eprint + AllocGlobal>(
    rt: &R,
    store: &FolderFiles<'a, R>,
    fault: EditionsFault,
    is_closed: bool,
) -> u8 {
    match fault {
        EditionsFault::Folder(fault) => report_folder(rt, store, fault),
        EditionsFault::Write(_) if is_closed => 3,
        EditionsFault::Write(wrote) => {
            report(rt, store.path, &Unfinished::Fault(RunFault::Write(wrote)))
        }
    }
}

// Lists or verifies a folder whose lock is held; the exit status.
fn read_editions<R: Files + Print + Eprint + AllocGlobal + Clone + Drop>(
    rt: &R,
    folder: &str,
    verify: bool,
) -> u8 {
    let mut store = FolderFiles::locked(rt, folder, false);
    let mut out = IntoWrite::new(io::writer(rt));
    let run = if verify {
        run_verify(rt.alloc(), &mut store, &mut out, folder)
    } else {
        run_list(rt.alloc(), &mut store, &mut out)
    };
    match &run {
        Ok(_) => status_of_editions(&run),
        Err(fault) => report_editions(rt, &store, *fault, out.is_closed()),
    }
}

/// Lists the editions of a folder, or verifies them; the exit status. Nothing is written into the folder.
pub fn show_editions<R: Files<File = File> + Print + Eprint + AllocGlobal + Clone + Drop>(
    rt: &R,
    folder: &str,
    verify: bool,
) -> u8 {
    if let Some(why) = shut(rt, folder) {
        return report(rt, folder, &why);
    }
    match share_lock(rt, rt.alloc(), folder) {
        Ok(lock) => {
            let status = read_editions(rt, folder, verify);
            drop(lock);
            status
        }
        Err(error) => report_in(rt, folder, "lock", &unread(&error)),
    }
}
