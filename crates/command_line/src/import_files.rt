//! The command `import`: the screens of one file after another, and then the base that is made of them.

use crate::merge_files::import_into;
use crate::reports::report;
use crate::screen_paths::{screen_paths, words_of};
use audit_report::{FromRead, IntoWrite, RunFault};
use command_words::Import;
use disk_files::{Unfinished, ended, open_base};
use pageaudit::{
    Album, FaultyLine, FileFrames, ImportFault, ImportStatus, ScreenFault, ScreenPlace, Settled,
    TextLineFault, Twin, run_import, status_of_import, take_frames,
};
use std::io;
use std::rt::Files;

// Why a file gives no frame.
#[derive(Clone, Copy)]
enum Refused {
    // What the system says, or a fault of the run.
    Unfinished(Unfinished),
    // What is wrong with the file.
    Fault(ImportFault),
}

/// The path of a file by its number.
pub fn path_of<'a>(asked: &'a Import, file: usize) -> &'a str {
    match asked.screens.get(file) {
        Some(path) => path,
        None => "",
    }
}

// Says which frame has the id of another.
fn report_twin<R: Eprint>(rt: &R, asked: &Import, twin: &Twin) {
    let (path, other) = (
        path_of(asked, twin.other.file),
        path_of(asked, twin.kept.file),
    );
    let is_same = twin.other.file == twin.kept.file;
    let id = twin.id.text();
    let id = id.as_str();
    let _ = match (twin.other.place, twin.kept.place) {
        (ScreenPlace::Byte(byte), ScreenPlace::Byte(kept)) if is_same => {
            eprintln!(rt; "{path}: at byte {byte}: frame {id} is at byte {kept} too")
        }
        (ScreenPlace::Byte(byte), ScreenPlace::Byte(kept)) => {
            eprintln!(rt; "{path}: at byte {byte}: frame {id} is in {other} at byte {kept} too")
        }
        (ScreenPlace::Line(line), ScreenPlace::Line(kept)) => {
            eprintln!(rt; "{path}:{line}: frame {id} is in {other}:{kept} too")
        }
        (ScreenPlace::Line(line), _) => {
            eprintln!(rt; "{path}:{line}: frame {id} is in {other} too")
        }
        (_, ScreenPlace::Line(kept)) => {
            eprintln!(rt; "{path}: frame {id} is in {other}:{kept} too")
        }
        _ => eprintln!(rt; "{path}: frame {id} is in {other} too"),
    };
}

// Says which frames have the ids of others; the exit status.
fn report_twins<R: Eprint>(rt: &R, asked: &Import, twins: &[Twin]) -> u8 {
    for twin in twins {
        report_twin(rt, asked, twin);
    }
    if twins.is_empty() { 0 } else { 3 }
}

// Says which screens of a capture are left out, and which frames have the ids of others; the exit status.
fn report_found<R: Eprint>(rt: &R, asked: &Import, path: &str, found: &FileFrames) -> u8 {
    for byte in found.unnamed.as_slice() {
        let _ = eprintln!(rt; "{path}: at byte {byte}: row 0 shows no frame id; left out");
    }
    report_twins(rt, asked, found.frames.twins())
}

// Adds the frames of a file; the exit status, 0 if there is one of each id.
fn take_file<R: Files + Input + Eprint + AllocGlobal>(
    rt: &R,
    asked: &Import,
    path: &str,
    number: usize,
    album: &mut Album,
) -> Result<u8, Refused> {
    let mut file = match open_base(rt, path) {
        Ok(file) => file,
        Err(unfinished) => return Err(Refused::Unfinished(unfinished)),
    };
    let taken = {
        let mut source = FromRead::new(&mut file);
        take_frames(rt.alloc(), &mut source, asked.kind, path, number, album)
    };
    match taken {
        Ok(found) => Ok(report_found(rt, asked, path, &found)),
        Err(fault) => Err(Refused::Fault(fault)),
    }
}

// Says what is wrong with a line of a text.
fn report_line<R: Eprint>(rt: &R, path: &str, at: FaultyLine) {
    let line = at.line;
    let _ = match at.fault {
        TextLineFault::Two => eprintln!(rt; "{path}:{line}: two addresses in a line"),
        TextLineFault::Letters(letters) => {
            eprintln!(rt;
                "{path}:{line}: an address with {letters} characters; a screen has 1120 or 1167"
            )
        }
        TextLineFault::Row => {
            eprintln!(rt; "{path}:{line}: no row number after OL, of one or two digits")
        }
        TextLineFault::Pages => eprintln!(rt; "{path}:{line}: a file has at most 65535 pages"),
    };
}

// Says what is wrong with a file's bytes.
fn report_screen<R: Eprint>(rt: &R, path: &str, fault: ScreenFault) {
    let _ = match fault {
        ScreenFault::Empty => eprintln!(rt; "{path}: empty"),
        ScreenFault::TooLong => eprintln!(rt; "{path}: more than 16,777,216 bytes"),
        ScreenFault::Size(size) => {
            eprintln!(rt;
                "{path}: size {size}; a screen has 960, 1000, 1024 or 880 bytes, an EP1 file begins FE 01 and has 968 or 1008; TTI and addresses are text; a capture of a call needs --stream"
            )
        }
        ScreenFault::Text(at) => return report_line(rt, path, at),
        ScreenFault::NoIdAt(line) => {
            eprintln!(rt;
                "{path}:{line}: no frame id: write it before the address, e.g. 100a https://.., or in TTI as PN,10001 to PN,10026"
            )
        }
        ScreenFault::NoId => {
            eprintln!(rt; "{path}: no frame id: name the file by it, e.g. 478a.bin")
        }
        ScreenFault::TooManyScreens => {
            eprintln!(rt; "{path}: a capture has at most 65535 screens")
        }
    };
}

// Says why a file gives no frame; the exit status.
fn report_file<R: Files + Eprint + AllocGlobal>(rt: &R, path: &str, refused: &Refused) -> u8 {
    match refused {
        Refused::Unfinished(unfinished) => report(rt, path, unfinished),
        Refused::Fault(ImportFault::Screen(fault)) => {
            report_screen(rt, path, *fault);
            3
        }
        Refused::Fault(ImportFault::TooMany) => {
            let _ = eprintln!(rt; "{path}: a base has at most 65535 frames");
            3
        }
        Refused::Fault(ImportFault::Broken) => {
            report(rt, path, &Unfinished::Unread("read failed"))
        }
        Refused::Fault(ImportFault::Memory) => {
            report(rt, path, &Unfinished::Fault(RunFault::Memory))
        }
    }
}

// Adds the frames of all files; the exit status, 0 if none is at fault. All faults are named, unless memory is refused. `refused` is
// the status of the folders.
fn take_files<R: Files + Input + Eprint + AllocGlobal>(
    rt: &R,
    asked: &Import,
    refused: u8,
    album: &mut Album,
) -> u8 {
    let mut status = refused;
    for (number, path) in asked.screens.iter().enumerate() {
        let taken = match take_file(rt, asked, path, number, album) {
            Ok(status) => status,
            Err(refused) => report_file(rt, path, &refused),
        };
        status = status.max(taken);
        if status == 4 {
            return status;
        }
    }
    status
}

// Prints the base of the frames.
fn print_base<R: Print + AllocGlobal>(
    rt: &R,
    asked: &Import,
    settled: &Settled,
) -> Result<ImportStatus, Unfinished> {
    let mut out = IntoWrite::new(io::writer(rt));
    let run = run_import(rt.alloc(), settled, asked.entry, asked.guesses, &mut out);
    ended(run, &out)
}

// Prints the base, or says why it isn't printed; the exit status.
fn print_or_report<R: Files + Print + Eprint + AllocGlobal>(
    rt: &R,
    asked: &Import,
    settled: &Settled,
) -> u8 {
    match print_base(rt, asked, settled) {
        Ok(status) => {
            if let ImportStatus::TooLong(file) = status {
                let path = path_of(asked, file);
                let _ = eprintln!(rt;
                    "{path}: with this frame the base is longer than 16,777,216 bytes"
                );
            }
            status_of_import(&Ok(status))
        }
        Err(unfinished) => report(rt, "output", &unfinished),
    }
}

// Puts the frames where they are asked for: into a base, or into one of their own; the exit status.
fn give_frames<R: Files + Input + Print + Eprint + AllocGlobal>(
    rt: &R,
    asked: &Import,
    settled: &Settled,
) -> u8 {
    match asked.into {
        Some(base) => import_into(rt, base, asked, settled),
        None => print_or_report(rt, asked, settled),
    }
}

// Gives what isn't at fault, if all is to be left out that is; the exit status.
fn print_others<R: Files + Input + Print + Eprint + AllocGlobal>(
    rt: &R,
    asked: &Import,
    settled: &Settled,
    refused: u8,
) -> u8 {
    if !asked.skip_bad || settled.frames().is_empty() {
        return refused;
    }
    match give_frames(rt, asked, settled) {
        0 => 1,
        status => status,
    }
}

// Gives an album's frames, or says why they aren't given; the exit status. `refused` is that of the files.
fn print_album<R: Files + Input + Print + Eprint + AllocGlobal>(
    rt: &R,
    asked: &Import,
    album: Album,
    refused: u8,
) -> u8 {
    let settled = match album.settle(rt.alloc()) {
        Ok(settled) => settled,
        Err(_) => return report(rt, "output", &Unfinished::Fault(RunFault::Memory)),
    };
    match refused.max(report_twins(rt, asked, settled.twins())) {
        0 => give_frames(rt, asked, &settled),
        status => print_others(rt, asked, &settled, status),
    }
}

// Imports files.
fn import_files<R: Files + Input + Print + Eprint + AllocGlobal>(
    rt: &R,
    asked: &Import,
    refused: u8,
) -> u8 {
    let mut album = Album::new(rt.alloc());
    match take_files(rt, asked, refused, &mut album) {
        4 => 4,
        refused => print_album(rt, asked, album, refused),
    }
}

/// Prints the base of the screens, or puts them into one; the exit status. A folder is the files in it, in the order of their names. If
/// files are refused, or several frames have one id, each is named on standard error, nothing is printed or changed, and the status is 3.
/// If the bad ones are to be skipped, it is the base of the others, and the status is 1; the first frame of an id is taken. If there are no
/// others, nothing is printed.
pub fn import<R: Files + Input + Print + Eprint + AllocGlobal + Clone + Drop>(
    rt: &R,
    asked: &Import,
) -> u8 {
    let mut paths = Vec::new(rt.alloc());
    let refused = screen_paths(rt, asked.screens, &mut paths);
    if refused == 4 {
        return refused;
    }
    let Ok(words) = words_of(rt.alloc(), paths.as_slice()) else {
        return report(rt, "output", &Unfinished::Fault(RunFault::Memory));
    };
    let files = Import {
        screens: words.as_slice(),
        kind: asked.kind,
        skip_bad: asked.skip_bad,
        guesses: asked.guesses,
        entry: asked.entry,
        into: asked.into,
        is_shown: asked.is_shown,
    };
    import_files(rt, &files, refused)
}
