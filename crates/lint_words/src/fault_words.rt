ghost use Rattle.std.specs.Prelude.{◌≡◌, ◌++◌, IfOk, OnOk, Some};
ghost use Rattle.lint_words.specs.FaultWords.{entry_missing_words, cost_words, body_touches_words, touching_words, missing_page_words, leads_words, missing_words, too_far_words, no_way_back_words, fault_code, fault_message, audit_fault_words, unreached_words, none_reached_words};

use crate::about::{About, fault_about};
use crate::audit_hints::{audit_hint, unreached_hint};
use crate::code::Code;
use crate::line::Line;
use crate::piece::Piece::{Count, Frame, Group, Grouped, Id, Number, Page, Pressed, ShownBy, Text};
use crate::piece::Wording;
use crate::words::Words;
use abstract_paint::Start;
use base_faults::{Fault, FaultKind};
use frame_records::{GroupNo, Pence};
use page_ids::{FrameId, PageNo};
use std::alloc::{AllocError, Global};

/// What the words of a fault say beside the fault itself.
#[derive(Debug, Clone, Copy)]
pub struct Judged {
    /// The policy's ceiling.
    pub ceiling: Pence,
    /// The policy's keyings.
    pub keyings: u16,
    /// Whether the frame is given as `rows`, for `Touches` alone.
    pub has_rows: bool,
    /// The fewest keys that lead from the frame back to the entry frame, for `NoReturn` alone; none if no keys do.
    pub rank: Option<u16>,
    /// The group of the frame that isn't open: for `EntryClosed` of the frame, for `Closed` of the frame sought.
    pub group: Option<GroupNo>,
}

fn push_entry_missing(out: &mut Vec<u8>, fault: &Fault) -> Result<(), AllocError>
    ensures { OnOk result (out.new.items ≡ out.old.items ++ entry_missing_words fault.now) }
{
    let id = fault.frame;
    out.say(&[
        Text("the entry page "),
        Page(id.page),
        Text(" has no frame a"),
    ])
}

fn push_price(out: &mut Vec<u8>, ceiling: Pence, fault: &Fault) -> Result<(), AllocError>
    ensures { OnOk result (out.new.items ≡ out.old.items ++ cost_words ceiling fault.now) }
{
    out.say(&[
        Text("frame "),
        Id(fault.frame),
        Text(" costs "),
        Number(u64::from(fault.price.get())),
        Text(", the ceiling is "),
        Number(u64::from(ceiling.get())),
        ShownBy(fault.script.as_slice()),
    ])
}

// A frame that is given as a body, with the start.
fn push_byte_touches(out: &mut Vec<u8>, start: Start, fault: &Fault) -> Result<(), AllocError>
    ensures { OnOk result (out.new.items ≡ out.old.items ++ body_touches_words (Some start) fault.now) }
{
    out.say(&[
        Text("byte "),
        Grouped(start.offset),
        Text(" of the body of frame "),
        Id(fault.frame),
        Text(" writes into a service row, from start "),
        Number(u64::from(start.at)),
        ShownBy(fault.script.as_slice()),
    ])
}

// A frame that is given as rows, or as a body with or without a start.
fn push_touches(out: &mut Vec<u8>, has_rows: bool, fault: &Fault) -> Result<(), AllocError>
    ensures { OnOk result (out.new.items ≡ out.old.items ++ touching_words has_rows fault.now) }
{
    if has_rows {
        return out.say(&[
            Text("row 22 of frame "),
            Id(fault.frame),
            Text(" has double height, which writes into the last row"),
            ShownBy(fault.script.as_slice()),
        ]);
    }
    match fault.start {
        None => out.say(&[
            Text("the body of frame "),
            Id(fault.frame),
            Text(" writes into a service row"),
            ShownBy(fault.script.as_slice()),
        ]),
        Some(start) => push_byte_touches(out, start, fault),
    }
}

// A key that leads to a page without a first frame.
fn push_missing_page(out: &mut Vec<u8>, page: PageNo, fault: &Fault) -> Result<(), AllocError>
    ensures { OnOk result (out.new.items ≡ out.old.items ++ missing_page_words page fault.now) }
{
    out.say(&[
        Pressed(fault.key),
        Text(" of frame "),
        Id(fault.frame),
        Text(" leads to page "),
        Page(page),
        Text(", which has no frame a"),
        ShownBy(fault.script.as_slice()),
    ])
}

// A key that leads to the frame sought, and what is wrong with that.
fn push_leads<'a>(
    out: &mut Vec<u8>,
    wrong: &'a str,
    group: Option<GroupNo>,
    fault: &'a Fault,
) -> Result<(), AllocError>
    ensures { OnOk result (out.new.items ≡ out.old.items ++ leads_words wrong.now group fault.now) }
{
    out.say(&[
        Pressed(fault.key),
        Text(" of frame "),
        Id(fault.frame),
        Text(" leads to "),
        Frame(fault.sought),
        Text(wrong),
        Group(group),
        ShownBy(fault.script.as_slice()),
    ])
}

fn push_missing(out: &mut Vec<u8>, fault: &Fault) -> Result<(), AllocError>
    ensures { OnOk result (out.new.items ≡ out.old.items ++ missing_words fault.now.sought fault.now) }
{
    let Some(id) = fault.sought else {
        return push_leads(out, ", which the base lacks", None, fault);
    };
    if id.letter.get() == b'a' {
        push_missing_page(out, id.page, fault)
    } else {
        push_leads(out, ", which the base lacks", None, fault)
    }
}

// A frame from which the shortest walk back is too long.
fn push_too_far(out: &mut Vec<u8>, rank: u16, keyings: u16, fault: &Fault) -> Result<(), AllocError>
    ensures { OnOk result (out.new.items ≡ out.old.items ++ too_far_words rank keyings fault.now) }
{
    out.say(&[
        Text("from frame "),
        Id(fault.frame),
        Text(" the entry page is "),
        Count(usize::from(rank), "key", "keys"),
        Text(" away, at most "),
        Count(usize::from(keyings), "is", "are"),
        Text(" allowed"),
        ShownBy(fault.script.as_slice()),
    ])
}

// A frame from which no walk leads back, or none that is short enough.
fn push_no_return(out: &mut Vec<u8>, judged: &Judged, fault: &Fault) -> Result<(), AllocError>
    ensures { OnOk result (out.new.items ≡ out.old.items
        ++ no_way_back_words judged.now.rank judged.now.keyings fault.now) }
{
    match judged.rank {
        None => out.say(&[
            Text("no keys lead from frame "),
            Id(fault.frame),
            Text(" back to the entry page"),
            ShownBy(fault.script.as_slice()),
        ]),
        Some(rank) => push_too_far(out, rank, judged.keyings, fault),
    }
}

fn code_of(kind: FaultKind) -> Code
    ensures { result ≡ fault_code kind }
{
    match kind {
        FaultKind::EntryMissing => Code::EntryMissing,
        FaultKind::EntryClosed => Code::EntryClosed,
        FaultKind::Price => Code::Price,
        FaultKind::Touches => Code::Touches,
        FaultKind::Missing => Code::Missing,
        FaultKind::Closed => Code::Closed,
        FaultKind::NoReturn => Code::NoReturn,
    }
}

fn push_message(out: &mut Vec<u8>, judged: &Judged, fault: &Fault) -> Result<(), AllocError>
    ensures { OnOk result (out.new.items ≡ out.old.items ++ fault_message judged.now fault.now) }
{
    match fault.kind {
        FaultKind::EntryMissing => push_entry_missing(out, fault),
        FaultKind::EntryClosed => out.say(&[
            Text("frame "),
            Id(fault.frame),
            Text(", the entry page, is closed to these callers"),
            Group(judged.group),
        ]),
        FaultKind::Price => push_price(out, judged.ceiling, fault),
        FaultKind::Touches => push_touches(out, judged.has_rows, fault),
        FaultKind::Missing => push_missing(out, fault),
        FaultKind::Closed => {
            push_leads(
                out,
                ", which is closed to these callers",
                judged.group,
                fault,
            )
        }
        FaultKind::NoReturn => push_no_return(out, judged, fault),
    }
}

/// The words of a fault of an audit. The frame is the one at fault, for the hint alone.
pub fn audit_fault_words(
    alloc: Global,
    judged: &Judged,
    fault: &Fault,
    frame: Option<&frame_records::Frame>,
) -> Result<Words, AllocError>
    ensures { IfOk result (λ words. words ≡ audit_fault_words judged.now fault.now) }
{
    let mut message = Vec::new(alloc);
    push_message(&mut message, judged, fault)?;
    let message = Line::of(alloc, &message)?;
    let hint = audit_hint(alloc, judged, fault, frame)?;
    let about = fault_about(alloc, fault)?;
    Ok(Words::new(code_of(fault.kind), about, message, hint))
}

/// The words of a frame that no walk reaches. The frame before is the one with the letter before, if the base has it and it
/// has no next frame; it is for the hint.
pub fn unreached_words(
    alloc: Global,
    id: FrameId,
    before: Option<FrameId>,
) -> Result<Words, AllocError>
    ensures { IfOk result (λ words. words ≡ unreached_words id) }
{
    let mut message = Vec::new(alloc);
    message.say(&[
        Text("no key leads to frame "),
        Id(id),
        Text(" from the entry page"),
    ])?;
    let about = About::frame(Some(id));
    let hint = unreached_hint(alloc, before)?;
    Ok(Words::new(Code::Unreached, about, Line::of(alloc, &message)?, hint))
}

/// The words of the frames that no walk reaches, this many, of a base whose entry frame isn't found.
pub fn none_reached_words(alloc: Global, frames: usize) -> Result<Words, AllocError>
    ensures { IfOk result (λ words. words ≡ none_reached_words frames) }
{
    let mut message = Vec::new(alloc);
    message.say(&[
        Text("no key leads to "),
        Count(frames, "frame", "frames"),
        Text(" from the entry page"),
    ])?;
    let about = About::frame(None);
    Ok(Words::new(Code::Unreached, about, Line::of(alloc, &message)?, None))
}
