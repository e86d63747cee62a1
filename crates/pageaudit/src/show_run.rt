ghost use Rattle.std.specs.Prelude.{◌≡◌, ◌++◌, IfOk, OnOk, false};
ghost use Rattle.frame_records.specs.Bases.{frame_at};
ghost use Rattle.frame_records.specs.Seek.{entry_of};
ghost use Rattle.frame_screens.specs.Frames.{keyed_frames};
ghost use Rattle.pageaudit.specs.Files.{device};
ghost use Rattle.pageaudit.specs.ShowRun.{address_line, screen_text, IsEntryAnswer, IsWayAnswer, IsFrameAnswer, IsLostAnswer};
ghost use Rattle.pageaudit.specs.ShowRun.{IsKeyedAnswer, IsShown, IsAnswerWritten, IsShowRun, show_number};

use crate::input::read_base;
use crate::output::write_text;
use crate::status::status_of;
use audit_report::{RunFault, Sink, Source};
use frame_records::{Base, Groups};
use frame_screens::{FrameList, NoScreen, frames_after, nearest, screen, way_to};
use page_ids::{FrameId, Key, KeyList, PageNo};
use screen_forms::{Form, push_address};
use screens::{Writing, push_ansi, push_picture, push_text, screen_looks};
use std::alloc::{AllocError, Global};

/// What is shown.
#[derive(Debug, Drop)]
pub enum Target {
    /// The entry frame, even if it is closed to the caller.
    Entry,
    /// A frame, over those on the way to it.
    Frame(FrameId),
    /// What a caller sees who pressed these keys.
    Keys(KeyList),
}

/// The result of a run of show without a fault. If nothing was shown, nothing was written.
#[derive(Debug, Clone, Copy, PartialEq, Eq)]
pub enum ShowStatus {
    /// The screen was written.
    Shown,
    /// The base lacks the entry frame, this one.
    EntryMissing(FrameId),
    /// The entry frame, this one, is closed to the caller.
    EntryClosed(FrameId),
    /// The caller left the base for this page.
    Gone(PageNo),
    /// The base lacks the frame; the one that was probably meant.
    NoFrame(Option<FrameId>),
}

// A screen in its form, or why there is none.
#[derive(Drop)]
enum ShowAnswer {
    Screen(Vec<u8>),
    Nothing(ShowStatus),
}

// Writes the address of a screen, and a line end.
#[tactic(auto, using(std::proofs::Common::append_assoc))]
fn push_address_line(alloc: Global, text: &mut Vec<u8>, codes: &[u8; 960]) -> Result<(), AllocError>
    ensures { OnOk result (text.new.items ≡ text.old.items ++ address_line codes.now) }
{
    push_address(alloc, text, codes)?;
    text.extend_from_slice(b"\n")
}

// The screen of frames, in a form.
fn screen_text(
    alloc: Global,
    base: &Base,
    frames: &FrameList,
    form: Form,
) -> Result<Vec<u8>, AllocError>
    ensures { IfOk result (λ text. text.items ≡ screen_text form base.now frames.now) }
{
    let codes = screen(base, frames);
    let mut text = Vec::new(alloc);
    match form {
        Form::Text => push_text(&mut text, &screen_looks(&codes), Writing::Plain)?,
        Form::Ansi => push_ansi(&mut text, &screen_looks(&codes))?,
        Form::Svg => push_picture(&mut text, frames.last(), &screen_looks(&codes))?,
        Form::Cells => text.extend_from_slice(&codes)?,
        Form::Link => push_address_line(alloc, &mut text, &codes)?,
    }
    Ok(text)
}

// The entry frame alone.
fn entry_answer(alloc: Global, base: &Base, form: Form) -> Result<ShowAnswer, AllocError>
    ensures { IfOk result (IsEntryAnswer form base.now (frame_at base.now (entry_of base.now))) }
{
    let entry = base.entry_frame();
    let Some(_) = base.find(entry) else {
        return Ok(ShowAnswer::Nothing(ShowStatus::EntryMissing(entry)));
    };
    let frames = FrameList::of(alloc, entry)?;
    Ok(ShowAnswer::Screen(screen_text(alloc, base, &frames, form)?))
}

// The screen of a frame, over those on the way to it.
fn way_answer(
    alloc: Global,
    base: &Base,
    groups: &Groups,
    id: FrameId,
    form: Form,
) -> Result<ShowAnswer, AllocError>
    ensures { IfOk result (IsWayAnswer groups.now form base.now id) }
{
    let frames = way_to(alloc, base, groups, id)?;
    Ok(ShowAnswer::Screen(screen_text(alloc, base, &frames, form)?))
}

// The same, if the base has the frame.
fn frame_answer(
    alloc: Global,
    base: &Base,
    groups: &Groups,
    id: FrameId,
    form: Form,
) -> Result<ShowAnswer, AllocError>
    ensures { IfOk result (IsFrameAnswer groups.now form base.now id (frame_at base.now id)) }
{
    match base.find(id) {
        Some(_) => way_answer(alloc, base, groups, id, form),
        None => Ok(ShowAnswer::Nothing(ShowStatus::NoFrame(nearest(alloc, base, id)?))),
    }
}

// Why there is no screen after keys.
fn lost_answer(base: &Base, none: &NoScreen) -> Result<ShowAnswer, AllocError>
    ensures { IfOk result (IsLostAnswer base.now none.now) }
{
    match none {
        NoScreen::EntryMissing => Ok(ShowAnswer::Nothing(ShowStatus::EntryMissing(
            base.entry_frame(),
        ))),
        NoScreen::EntryClosed => Ok(ShowAnswer::Nothing(ShowStatus::EntryClosed(
            base.entry_frame(),
        ))),
        NoScreen::Gone(page) => Ok(ShowAnswer::Nothing(ShowStatus::Gone(*page))),
        NoScreen::Memory => Err(AllocError),
    }
}

// The screen after a session's keys, or how it ended.
fn keyed_answer(
    alloc: Global,
    base: &Base,
    groups: &Groups,
    keys: &[Key],
    form: Form,
) -> Result<ShowAnswer, AllocError>
    ensures { IfOk result (IsKeyedAnswer form base.now (keyed_frames groups.now base.now keys.now)) }
{
    match frames_after(alloc, base, groups, keys) {
        Ok(frames) => Ok(ShowAnswer::Screen(screen_text(alloc, base, &frames, form)?)),
        Err(none) => lost_answer(base, &none),
    }
}

fn answer_of(
    alloc: Global,
    base: &Base,
    groups: &Groups,
    target: &Target,
    form: Form,
) -> Result<ShowAnswer, AllocError>
    ensures { IfOk result (IsShown groups.now target.now form base.now) }
{
    match target {
        Target::Entry => entry_answer(alloc, base, form),
        Target::Frame(id) => frame_answer(alloc, base, groups, *id, form),
        Target::Keys(keys) => keyed_answer(alloc, base, groups, keys.as_slice(), form),
    }
}

// Writes a screen, if there is one.
fn write_answer<O: Sink>(out: &mut O, answer: ShowAnswer) -> Result<ShowStatus, RunFault>
    requires { (O.seen out.old).failed ≡ false }
    ensures { IsAnswerWritten (device O.seen out.old out.new) answer result }
{
    match answer {
        ShowAnswer::Nothing(status) => Ok(status),
        ShowAnswer::Screen(text) => write_text(out, text.as_slice(), ShowStatus::Shown),
    }
}

/// Writes the screen of a frame, or the one after keys, for a caller of the groups. If there is none, nothing is written, and the
/// status says why.
///
/// The base is read whole and judged first. On every fault except `Write`, nothing was written. A device is not called again
/// after it returned an error.
pub fn run_show<B: Source, O: Sink>(
    alloc: Global,
    base: &mut B,
    groups: &Groups,
    target: &Target,
    form: Form,
    out: &mut O,
) -> Result<ShowStatus, RunFault>
    requires base_open { (B.seen base.old).failed ≡ false }
    requires out_open { (O.seen out.old).failed ≡ false }

    // A status: the base's file was read to its end, no device failed, and the screen is that of what was read. A fault: the
    // first one, of the base's file or of the output.
    ensures { IsShowRun (device B.seen base.old base.new) (device O.seen out.old out.new)
        groups.now target.now form result }
{
    let base = read_base(alloc, base)?;
    let Ok(answer) = answer_of(alloc, &base, groups, target, form) else {
        return Err(RunFault::Memory);
    };
    write_answer(out, answer)
}

/// The program's exit status after a run of show: 0 a screen, 1 a session that can't be opened or leaves the base, 2 a frame that
/// the base lacks; of a fault as `status_of`.
pub fn status_of_show(run: &Result<ShowStatus, RunFault>) -> u8
    ensures { result ≡ show_number run.now }
{
    match run {
        Ok(ShowStatus::Shown) => 0,
        Ok(ShowStatus::EntryMissing(_) | ShowStatus::EntryClosed(_) | ShowStatus::Gone(_)) => 1,
        Ok(ShowStatus::NoFrame(_)) => 2,
        Err(fault) => status_of(&Err(*fault)),
    }
}
