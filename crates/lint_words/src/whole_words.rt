ghost use Rattle.std.specs.Prelude.{◌≡◌, ◌++◌, IfOk, OnOk};
ghost use Rattle.lint_words.specs.WholeWords.{too_many_words, long_body_words, whole_code, whole_message, whole_fault_words};

use crate::about::whole_about;
use crate::code::Code;
use crate::line::Line;
use crate::piece::Piece::{Grouped, Id, Number, Page, Text};
use crate::piece::Wording;
use crate::words::Words;
use base_text::WholeFault;
use frame_records::{MOST_BODY, MOST_LISTED};
use page_ids::FrameId;
use std::alloc::{AllocError, Global};

// More frames or pages than a base may have.
fn push_too_many<'a>(
    out: &mut Vec<u8>,
    has: &'a str,
    count: usize,
    what: &'a str,
) -> Result<(), AllocError>
    ensures { OnOk result (out.new.items ≡ out.old.items ++ too_many_words has.now count what.now) }
{
    out.say(&[
        Text(has),
        Grouped(count),
        Text(what),
        Text(", at most "),
        Grouped(MOST_LISTED),
        Text(" are allowed"),
    ])
}

fn push_long_body(out: &mut Vec<u8>, id: FrameId, length: usize) -> Result<(), AllocError>
    ensures { OnOk result (out.new.items ≡ out.old.items ++ long_body_words id length) }
{
    out.say(&[
        Text("the body of frame "),
        Id(id),
        Text(" has "),
        Grouped(length),
        Text(" bytes, at most "),
        Grouped(MOST_BODY),
        Text(" are allowed"),
    ])
}

fn code_of(fault: &WholeFault) -> Code
    ensures { result ≡ whole_code fault.now }
{
    match fault {
        WholeFault::TooManyFrames(_) | WholeFault::TooManyOutside(_) => Code::TooMany,
        WholeFault::BodyTooLong { .. } => Code::BodyTooLong,
        WholeFault::NextAfterZ { .. } => Code::NextAfterZ,
        WholeFault::Duplicate { .. } => Code::Duplicate,
        WholeFault::OutsideInside(_) => Code::OutsideInside,
    }
}

fn push_message(out: &mut Vec<u8>, fault: &WholeFault, first_line: usize) -> Result<(), AllocError>
    ensures { OnOk result (out.new.items ≡ out.old.items ++ whole_message fault.now first_line) }
{
    match fault {
        WholeFault::TooManyFrames(n) => push_too_many(out, "the base has ", *n, " frames"),
        WholeFault::TooManyOutside(n) => push_too_many(out, "\"outside\" has ", *n, " pages"),
        WholeFault::BodyTooLong { id, length, .. } => push_long_body(out, *id, *length),
        WholeFault::NextAfterZ { id, .. } => out.say(&[
            Text("frame "),
            Id(*id),
            Text(" has \"next\", but z is the last frame of a page"),
        ]),
        WholeFault::Duplicate { id, .. } => out.say(&[
            Text("frame "),
            Id(*id),
            Text(" is defined already on line "),
            Number(first_line as u64),
        ]),
        WholeFault::OutsideInside(page) => out.say(&[
            Text("page "),
            Page(*page),
            Text(" is listed as outside, but the base has a frame of it"),
        ]),
    }
}

/// The words of a fault of a base as a whole. Only `Duplicate` names `first_line`: the line, from 1, on which the id's
/// first frame has its id.
pub fn whole_fault_words(
    alloc: Global,
    fault: &WholeFault,
    first_line: usize,
) -> Result<Words, AllocError>
    ensures { IfOk result (λ words. words ≡ whole_fault_words fault.now first_line) }
{
    let mut message = Vec::new(alloc);
    push_message(&mut message, fault, first_line)?;
    let about = whole_about(alloc, fault)?;
    Ok(Words::new(code_of(fault), about, Line::of(alloc, &message)?, None))
}
