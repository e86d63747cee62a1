//! `lint --fix` and `lint --diff`: the fixed text of a base, in its file's place or as a diff.

use audit_report::{FromRead, IntoWrite, RunFault, SourceFault, read_whole, write_whole};
use base_text::MOST_TEXT;
use checker::Policy;
use disk_files::{
    Out, Seen, Unfinished, diff_text, is_input, open_base, open_out, seen_at, unwritten,
};
use slip_fixes::{Fixed, fix_slips};
use std::fs::OpenFile;
use std::io;
use std::rt::Files;

/// What a base's file has, and which file that was, just before it was read.
#[derive(Drop)]
pub struct BaseFile {
    /// The text; of one that is too long the front, which is a byte more than a base may have.
    pub text: Vec<u8>,
    seen: Option<Seen>,
}

/// Reads a base's file.
pub fn read_text<R: Files + Input + AllocGlobal>(
    rt: &R,
    path: &str,
) -> Result<BaseFile, Unfinished> {
    let seen = seen_at(rt, path);
    let file = match open_base(rt, path) {
        Ok(file) => file,
        Err(unfinished) => return Err(unfinished),
    };
    match read_whole(rt.alloc(), &mut FromRead::new(file), MOST_TEXT + 1) {
        Ok(text) => Ok(BaseFile { text, seen }),
        Err(SourceFault::Broken) => Err(Unfinished::Unread("read failed")),
        Err(SourceFault::Memory) => Err(Unfinished::Fault(RunFault::Memory)),
    }
}

/// A base's file, and its text with the slips fixed. Of standard input a text that is too long is refused: what is printed would lack
/// its end.
pub fn fixed_text<R: Files + Input + AllocGlobal>(
    rt: &R,
    path: &str,
    policy: &Policy,
) -> Result<(BaseFile, Fixed), Unfinished> {
    let base = match read_text(rt, path) {
        Ok(base) => base,
        Err(unfinished) => return Err(unfinished),
    };
    if is_input(path) && base.text.len() > MOST_TEXT {
        return Err(Unfinished::Unread("more than 16,777,216 bytes"));
    }
    match fix_slips(rt.alloc(), base.text.as_slice(), policy) {
        Ok(fixed) => Ok((base, fixed)),
        Err(_) => Err(Unfinished::Fault(RunFault::Memory)),
    }
}

// Writes a text whole.
fn write_text<W: io::Write + Drop>(out: W, text: &[u8]) -> Result<(), RunFault> {
    let mut out = IntoWrite::new(out);
    match write_whole(&mut out, text) {
        Ok(()) => Ok(()),
        Err(fault) => Err(RunFault::Write(fault.wrote)),
    }
}

/// Writes a text to standard output.
pub fn print_text<R: Print + AllocGlobal>(rt: &R, text: &[u8]) -> Result<(), Unfinished> {
    let mut out = IntoWrite::new(io::writer(rt));
    match write_whole(&mut out, text) {
        Ok(()) => Ok(()),
        Err(_) if out.is_closed() => Err(Unfinished::Unwanted),
        Err(fault) => Err(Unfinished::Fault(RunFault::Write(fault.wrote))),
    }
}

/// Puts a text in the place of a file that was read, by a rename once it is on the disk. If that fails, or another program has written
/// the file meanwhile, it is as it was.
pub fn replace_text<R: Files + AllocGlobal>(
    rt: &R,
    path: &str,
    read: &BaseFile,
    text: &[u8],
) -> Result<(), Unfinished> {
    match open_out(rt, path) {
        Ok(Out::File(names, mut file)) => {
            let run = write_text(&mut file, text);
            let is_synced = file.sync_all().is_ok();
            let was_changed = seen_at(rt, path) != read.seen;
            let run = if is_synced && !was_changed {
                run
            } else {
                Err(RunFault::Write(0))
            };
            match names.close(rt, file, run, &()) {
                Ok(()) => Ok(()),
                Err(_) if was_changed => Err(Unfinished::Unwritten("was changed meanwhile")),
                Err(RunFault::Write(_)) => Err(Unfinished::Unwritten("write failed")),
                Err(fault) => Err(Unfinished::Fault(fault)),
            }
        }
        Ok(_) => Err(Unfinished::Unwritten("can't be written")),
        Err(error) => Err(unwritten(&error)),
    }
}

/// Prints what fixing a base's slips would change. If that is nothing, the base's text is given back.
pub fn print_diff<R: Files + Input + Print + AllocGlobal>(
    rt: &R,
    path: &str,
    policy: &Policy,
) -> Result<Option<Vec<u8>>, Unfinished> {
    let (base, fixed) = match fixed_text(rt, path, policy) {
        Ok(texts) => texts,
        Err(unfinished) => return Err(unfinished),
    };
    let (old, new) = (base.text.as_slice(), fixed.text.as_slice());
    let Ok(diff) = diff_text(rt.alloc(), path, old, new) else {
        return Err(Unfinished::Fault(RunFault::Memory));
    };
    if diff.is_empty() {
        return Ok(Some(base.text));
    }
    match print_text(rt, diff.as_slice()) {
        Ok(()) => Ok(None),
        Err(unfinished) => Err(unfinished),
    }
}
