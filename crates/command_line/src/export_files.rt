//! The command `export`: the screen of each frame of a base, in a file of its own. A screen is written beside it under another name,
//! which then becomes its own, so that no half file is left.

use crate::reports::report;
use audit_report::{FromRead, IntoWrite, RunFault};
use command_words::Export;
use disk_files::{Unfinished, new_beside, open_base, unwritten};
use frame_records::Base;
use page_ids::FrameId;
use pageaudit::{Gallery, SavedForm, read_exported, run_export};
use std::alloc::AllocError;
use std::rt::Files;
use std::{fs, io};

// Reads the base.
fn read_file<R: Files + Input + AllocGlobal>(rt: &R, path: &str) -> Result<Base, Unfinished> {
    let mut file = match open_base(rt, path) {
        Ok(file) => FromRead::new(file),
        Err(unfinished) => return Err(unfinished),
    };
    match read_exported(rt.alloc(), &mut file) {
        Ok(base) => Ok(base),
        Err(RunFault::ReadBase) => Err(Unfinished::Unread("read failed")),
        Err(fault) => Err(Unfinished::Fault(fault)),
    }
}

const IS_THERE: &str = "is there already; --force replaces it";

// Whether there is something under a path.
fn is_there<R: Files>(rt: &R, path: &str) -> bool {
    fs::symlink_metadata(rt, path).is_ok()
}

// Gives a new file a name that is free: a link is refused if it isn't. Some file systems have no links.
fn give_free_name<R: Files>(rt: &R, new: &str, path: &str) -> Result<(), Unfinished> {
    match fs::hard_link(rt, new, path) {
        Ok(()) => {
            let _ = fs::remove_file(rt, new);
            Ok(())
        }
        Err(_) if is_there(rt, path) => Err(Unfinished::Unwritten(IS_THERE)),
        Err(_) => replace(rt, new, path),
    }
}

// Gives a new file a name, which may be another file's.
fn replace<R: Files>(rt: &R, new: &str, path: &str) -> Result<(), Unfinished> {
    match fs::rename(rt, new, path) {
        Ok(()) => Ok(()),
        Err(error) => Err(unwritten(&error)),
    }
}

// Writes the screen of a frame to a new file and closes it.
fn write_file<R: AllocGlobal, W: io::Write + Drop>(
    rt: &R,
    asked: &Export,
    gallery: &Gallery,
    id: FrameId,
    file: W,
) -> Result<(), Unfinished> {
    let mut out = IntoWrite::new(file);
    match run_export(rt.alloc(), gallery, asked.form, id, &mut out) {
        Ok(_) => Ok(()),
        Err(RunFault::Memory) => Err(Unfinished::Fault(RunFault::Memory)),
        Err(_) => Err(Unfinished::Unwritten("write failed")),
    }
}

// Writes the screen of a frame to a file. Nothing of it is left after a fault.
fn write_screen<R: Files + AllocGlobal>(
    rt: &R,
    asked: &Export,
    gallery: &Gallery,
    id: FrameId,
    path: &str,
) -> Result<(), Unfinished> {
    let (new, file) = match new_beside(rt, path) {
        Ok(beside) => beside,
        Err(error) => return Err(unwritten(&error)),
    };
    let named = match write_file(rt, asked, gallery, id, file) {
        Ok(()) if asked.force => replace(rt, new.as_str(), path),
        Ok(()) => give_free_name(rt, new.as_str(), path),
        Err(unfinished) => Err(unfinished),
    };
    if named.is_err() {
        let _ = fs::remove_file(rt, new.as_str());
    }
    named
}

// Writes the screen of a frame, if there is no such file or it may be replaced.
fn export_screen<R: Files + AllocGlobal>(
    rt: &R,
    asked: &Export,
    gallery: &Gallery,
    id: FrameId,
    path: &str,
) -> Result<(), Unfinished> {
    if !asked.force && is_there(rt, path) {
        return Err(Unfinished::Unwritten(IS_THERE));
    }
    write_screen(rt, asked, gallery, id, path)
}

// How the names of files of a form end.
fn ending_of(form: SavedForm) -> &'static str {
    match form {
        SavedForm::Cells => "bin",
        SavedForm::Ep1 => "ep1",
        SavedForm::Tti => "tti",
        SavedForm::Link => "link",
    }
}

// The path of a frame's file.
fn path_of<R: AllocGlobal>(rt: &R, asked: &Export, id: FrameId) -> Result<String, AllocError> {
    let (id, ending) = (id.text(), ending_of(asked.form));
    let (folder, id) = (asked.out, id.as_str());
    format!(in rt.alloc(); "{folder}/{id}.{ending}")
}

// Writes the screen of a frame to the file of its id.
fn export_frame<R: Files + AllocGlobal>(
    rt: &R,
    asked: &Export,
    gallery: &Gallery,
    id: FrameId,
) -> Result<(), Unfinished> {
    match path_of(rt, asked, id) {
        Ok(path) => export_screen(rt, asked, gallery, id, path.as_str()),
        Err(_) => Err(Unfinished::Fault(RunFault::Memory)),
    }
}

// Says why the screen of a frame isn't written, if it is the first; the exit status.
fn report_lost<R: Files + Eprint + AllocGlobal>(
    rt: &R,
    asked: &Export,
    id: FrameId,
    why: &Unfinished,
    is_first: bool,
) -> u8 {
    if let Unfinished::Fault(_) = why {
        return report(rt, asked.base, why);
    }
    if !is_first {
        return 3;
    }
    match path_of(rt, asked, id) {
        Ok(path) => report(rt, path.as_str(), why),
        Err(_) => report(rt, asked.base, &Unfinished::Fault(RunFault::Memory)),
    }
}

// Says how many screens aren't written beside the first; the exit status.
fn report_count<R: Eprint>(rt: &R, asked: &Export, lost: usize) -> u8 {
    if lost > 1 {
        let more = lost - 1;
        let files = if more == 1 {
            "file isn't"
        } else {
            "files aren't"
        };
        let _ = eprintln!(rt; "{}: {more} more {files} written", asked.out);
    }
    if lost == 0 { 0 } else { 3 }
}

// Writes each screen that can be, unless memory is refused; the exit status, 3 if one isn't written.
fn export_all<R: Files + Eprint + AllocGlobal>(rt: &R, asked: &Export, base: &Base) -> u8 {
    let Ok(gallery) = Gallery::of(rt.alloc(), base, &asked.groups) else {
        return report(rt, asked.base, &Unfinished::Fault(RunFault::Memory));
    };
    let mut lost: usize = 0;
    for frame in base.frames() {
        if let Err(why) = export_frame(rt, asked, &gallery, frame.id) {
            if report_lost(rt, asked, frame.id, &why, lost == 0) == 4 {
                return 4;
            }
            lost = lost.saturating_add(1);
        }
    }
    report_count(rt, asked, lost)
}

// Makes the folder, with what leads to it. No folder has an empty name.
fn make_folder<R: Files>(rt: &R, path: &str) -> Result<(), Unfinished> {
    if path.is_empty() {
        return Err(Unfinished::Unwritten("no such folder"));
    }
    match fs::create_dir_all(rt, path) {
        Ok(()) => Ok(()),
        Err(error) if error.kind() == io::ErrorKind::AlreadyExists => {
            Err(Unfinished::Unwritten("not a folder"))
        }
        Err(error) => Err(unwritten(&error)),
    }
}

/// Writes the screen of each frame of a base to a file of its own in a folder, which is made after the base was read; the exit status.
/// A file that is there is replaced only if that is asked for.
pub fn export<R: Files + Input + Eprint + AllocGlobal>(rt: &R, asked: &Export) -> u8 {
    let base = match read_file(rt, asked.base) {
        Ok(base) => base,
        Err(unfinished) => return report(rt, asked.base, &unfinished),
    };
    match make_folder(rt, asked.out) {
        Ok(()) => export_all(rt, asked, &base),
        Err(unfinished) => report(rt, asked.out, &unfinished),
    }
}
