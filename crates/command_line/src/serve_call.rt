//! The command `serve`: the current edition of a folder on standard input and output.

ghost use Rattle.std.specs.Prelude.{◌≡◌, false};

use crate::editions_files::shut;
use crate::reports::report;
use crate::serve_line::{CallerInput, CallerOutput};
use crate::serve_notes::CallNotes;
use ansi_line::{AnsiKeys, AnsiScreen};
use audit_report::{RunFault, verdict_text};
use checker::{Cause, Verdict};
use command_words::{CallForm, Serve};
use disk_files::FolderFiles;
use edition_checks::ServedFault;
use editions::EditionFile;
use one_call::{CallFault, ServeFault, serve};
use std::io;
use std::io::{Read, Write};
use std::rt::Files;

// Says why an edition isn't cleared.
fn report_refused<R: Eprint + AllocGlobal>(rt: &R, folder: &str, number: u32, cause: Cause) -> u8 {
    match verdict_text(rt.alloc(), &Verdict::Refused(cause)) {
        Ok(text) => {
            if let Ok(line) = str::from_utf8(text.as_slice()) {
                let _ = eprint!(rt; "{folder}: edition {number}: {line}");
            }
            1
        }
        Err(_) => 4,
    }
}

// Says which file of an edition is missing or doesn't read.
fn report_file<R: Eprint>(rt: &R, folder: &str, number: u32, file: EditionFile, why: &str) -> u8 {
    let name = file.name();
    let _ = eprintln!(rt; "{folder}/editions/{number}/{name}: {why}");
    3
}

fn report_edition<R: Files + Eprint + AllocGlobal>(
    rt: &R,
    folder: &str,
    number: u32,
    fault: ServedFault,
) -> u8 {
    match fault {
        ServedFault::Missing(file) => report_file(rt, folder, number, file, "no such file"),
        ServedFault::Unread(file) => report_file(rt, folder, number, file, "doesn't read"),
        ServedFault::Folder => 3,
        ServedFault::Memory => crate::fail(rt, &RunFault::Memory),
    }
}

// Says why a call stopped, if somebody is to know it; the exit status. A caller who has rung off has ended the call.
fn report_line<R: Eprint + AllocGlobal>(rt: &R, fault: ServeFault, is_closed: bool) -> u8 {
    match fault {
        ServeFault::Write if is_closed => 0,
        ServeFault::Write => {
            let _ = eprintln!(rt; "error: the line can't be written");
            3
        }
        ServeFault::Read => {
            let _ = eprintln!(rt; "error: the line can't be read");
            3
        }
        ServeFault::NotOpened => 1,
        ServeFault::Memory => crate::fail(rt, &RunFault::Memory),
    }
}

// Serves a caller with a terminal in colours; how the call ended, and whether the caller has rung off.
fn serve_ansi<R: Files + Eprint + AllocGlobal, I: Read + Drop, W: Write + Drop>(
    rt: &R,
    folder: &mut FolderFiles<R>,
    input: CallerInput<I>,
    output: CallerOutput<W>,
    notes: &mut CallNotes<R>,
) -> (Result<(), CallFault>, bool)
    requires reads { input.failed ≡ false }
    requires writes { output.failed ≡ false }
{
    let mut keys = AnsiKeys::new(input);
    let mut screen = AnsiScreen::new(rt.alloc(), output);
    let end = serve(rt.alloc(), folder, &mut keys, &mut screen, notes);
    let is_closed = screen.inner.is_closed;
    if screen.is_refused {
        (Err(CallFault::Line(ServeFault::Memory)), is_closed)
    } else {
        (end, is_closed)
    }
}

// Serves a caller; how the call ended, and whether the caller has rung off.
fn serve_form<R: Files + Input + Print + Eprint + AllocGlobal>(
    rt: &R,
    folder: &mut FolderFiles<R>,
    form: CallForm,
    notes: &mut CallNotes<R>,
) -> (Result<(), CallFault>, bool) {
    let mut input = CallerInput::new(rt.reader());
    let mut output = CallerOutput::new(io::writer(rt));
    match form {
        CallForm::Ansi => serve_ansi(rt, folder, input, output, notes),
        CallForm::Viewdata => {
            let end = serve(rt.alloc(), folder, &mut input, &mut output, notes);
            (end, output.is_closed)
        }
    }
}

// Says that there is no edition, or no folder.
fn report_unpublished<R: Files + Eprint + AllocGlobal>(rt: &R, folder: &str) -> u8 {
    match shut(rt, folder) {
        Some(why) => report(rt, folder, &why),
        None => {
            let _ = eprintln!(rt; "{folder}: nothing is published there");
            3
        }
    }
}

/// Serves one call; the exit status.
pub fn serve_call<R: Files + Input + Print + Eprint + AllocGlobal>(rt: &R, asked: &Serve) -> u8 {
    let path = asked.folder;
    let mut folder = FolderFiles::reading(rt, path);
    let mut notes = CallNotes::new(rt, path, asked.is_logged);
    let (end, is_closed) = serve_form(rt, &mut folder, asked.form, &mut notes);
    notes.end();
    match end {
        Ok(()) => 0,
        Err(CallFault::Unpublished) => report_unpublished(rt, path),
        Err(CallFault::Unnamed) => {
            let _ = eprintln!(rt; "{path}/current: names no edition");
            3
        }
        Err(CallFault::Folder) => match &folder.failed {
            Some(failed) => report(rt, failed.path.as_str(), &failed.why),
            None => 3,
        },
        Err(CallFault::Edition(number, fault)) => report_edition(rt, path, number, fault),
        Err(CallFault::Refused(number, cause)) => report_refused(rt, path, number, cause),
        Err(CallFault::Line(fault)) => report_line(rt, fault, is_closed),
        Err(CallFault::Memory) => crate::fail(rt, &RunFault::Memory),
    }
}
