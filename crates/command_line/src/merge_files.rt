//! `import --into`: the frames of screens in a base's file.

use crate::fail;
use crate::fix_files::{BaseFile, print_text, read_text, replace_text};
use crate::import_files::path_of;
use crate::reports::report;
use audit_report::RunFault;
use base_text::{BaseCause, BaseFault};
use command_words::Import;
use disk_files::{Unfinished, diff_of_edits, is_input};
use frame_edits::{MergeFault, Merged, merge_frames};
use page_ids::{FrameId, push_id, push_number};
use pageaudit::Settled;
use std::alloc::{AllocError, Global};
use std::rt::Files;

// Adds a number of frames to a sentence, if there are some. The first number says of what.
fn push_count(text: &mut Vec<u8>, count: usize, verb: &[u8]) -> Result<(), AllocError> {
    if count == 0 {
        return Ok(());
    }
    let noun: &[u8] = match (text.is_empty(), count) {
        (false, _) => b"",
        (true, 1) => b" frame",
        (true, _) => b" frames",
    };
    if !text.is_empty() {
        text.extend_from_slice(b", ")?;
    }
    push_number(text, count as u64)?;
    text.extend_from_slice(noun)?;
    text.extend_from_slice(verb)
}

// Adds a number of frames and their ids to a sentence, if there are some.
fn push_part(text: &mut Vec<u8>, ids: &[FrameId], verb: &[u8]) -> Result<(), AllocError> {
    if ids.is_empty() {
        return Ok(());
    }
    push_count(text, ids.len(), verb)?;
    for (at, id) in ids.iter().enumerate() {
        text.extend_from_slice(if at == 0 { b" (" } else { b" " })?;
        push_id(text, *id)?;
    }
    text.push(b')')?;
    Ok(())
}

// What became of the frames, as `2 frames replaced (4001a 4002a), 1 added (4003a), 5 unchanged`.
fn sum_text(alloc: Global, merged: &Merged) -> Result<Vec<u8>, AllocError> {
    let mut text = Vec::new(alloc);
    push_part(&mut text, merged.replaced.as_slice(), b" replaced")?;
    push_part(&mut text, merged.added.as_slice(), b" added")?;
    push_part(
        &mut text,
        merged.left.as_slice(),
        b" left, with lead = \"keep\"",
    )?;
    push_count(&mut text, merged.same.len(), b" unchanged")?;
    Ok(text)
}

// Without memory for the line it isn't printed: the base is written.
fn print_sum<R: Eprint + AllocGlobal>(rt: &R, merged: &Merged) {
    let Ok(text) = sum_text(rt.alloc(), merged) else {
        return;
    };
    if let Ok(line) = str::from_utf8(text.as_slice()) {
        let _ = eprintln!(rt; "{line}");
    }
}

// Prints what would change; the exit status.
fn show_diff<R: Files + Print + Eprint + AllocGlobal>(
    rt: &R,
    base: &str,
    old: &[u8],
    merged: &Merged,
) -> u8 {
    let (new, edits) = (merged.text.as_slice(), merged.edits.as_slice());
    let Ok(diff) = diff_of_edits(rt.alloc(), base, old, new, edits) else {
        return report(rt, base, &Unfinished::Fault(RunFault::Memory));
    };
    match print_text(rt, diff.as_slice()) {
        Ok(()) => u8::from(!diff.is_empty()),
        Err(unfinished) => report(rt, "output", &unfinished),
    }
}

// Puts the new text in the base's place, if it is another: of standard input it is printed. The exit status.
fn write_merged<R: Files + Print + Eprint + AllocGlobal>(
    rt: &R,
    base: &str,
    old: &BaseFile,
    merged: &Merged,
) -> u8 {
    let new = merged.text.as_slice();
    let written = if is_input(base) {
        print_text(rt, new)
    } else if new == old.text.as_slice() {
        Ok(())
    } else {
        replace_text(rt, base, old, new)
    };
    match written {
        Ok(()) => {
            print_sum(rt, merged);
            0
        }
        Err(unfinished) => report(rt, base, &unfinished),
    }
}

// Says what would be wrong with the new text; the exit status.
fn report_spoilt<R: Eprint + AllocGlobal>(rt: &R, base: &str, fault: BaseFault) -> u8 {
    if fault.cause == BaseCause::Memory {
        return fail(rt, &RunFault::Memory);
    }
    let _ = eprintln!(rt; "{base}: with these frames it isn't a base; nothing was changed");
    fail(rt, &RunFault::Base(fault))
}

// Says why the frames don't go into the base; the exit status.
fn report_merge<R: Files + Eprint + AllocGlobal>(
    rt: &R,
    base: &str,
    asked: &Import,
    fault: MergeFault,
) -> u8 {
    match fault {
        MergeFault::Unread(fault) if fault.cause == BaseCause::Memory => {
            report(rt, base, &Unfinished::Fault(RunFault::Memory))
        }
        MergeFault::Unread(fault) => report(rt, base, &Unfinished::Fault(RunFault::Base(fault))),
        MergeFault::Spoilt(fault) => report_spoilt(rt, base, fault),
        MergeFault::TooLong(file) => {
            let path = path_of(asked, file);
            let _ = eprintln!(rt;
                "{path}: with this frame the base is longer than 16,777,216 bytes"
            );
            3
        }
        MergeFault::Overlap => report(
            rt,
            base,
            &Unfinished::Unread("what two of its frames show is written in one place"),
        ),
        MergeFault::Memory => report(rt, base, &Unfinished::Fault(RunFault::Memory)),
    }
}

/// Puts frames into a base's file, or prints what that would change; the exit status. If anything fails, the file is as it was.
pub fn import_into<R: Files + Input + Print + Eprint + AllocGlobal>(
    rt: &R,
    base: &str,
    asked: &Import,
    settled: &Settled,
) -> u8 {
    let old = match read_text(rt, base) {
        Ok(old) => old,
        Err(unfinished) => return report(rt, base, &unfinished),
    };
    let text = old.text.as_slice();
    match merge_frames(rt.alloc(), text, asked.guesses, settled) {
        Ok(merged) if asked.is_shown => show_diff(rt, base, text, &merged),
        Ok(merged) => write_merged(rt, base, &old, &merged),
        Err(fault) => report_merge(rt, base, asked, fault),
    }
}
