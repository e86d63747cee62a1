ghost use Rattle.std.specs.Prelude.{◌≡◌, ◌<◌, ◌≤◌, ◌+◌, ◌^◌, ◌++◌, ◌∷◌, [], ℕ, List, Some, IfOk, IfErr, OnOk, length, slice_get, true, false};
ghost use Rattle.std.specs.Vec.{vec_len, vec_capacity};
ghost use Rattle.devices.specs.Devices.{Seen, WroteWhole, WrotePart, IsOnItsWay};
ghost use Rattle.frame_records.specs.Seek.{entry_of};
ghost use Rattle.finder.specs.declared.found.Discovered.{Discovered as Entry};
ghost use Rattle.audit_report.specs.Listing.{Knows, lost_entry_line, reached_line, reached_lines, unreached_lines, all_lines, AreAllLines, IsListing};

use crate::list_entry::entry_line;
use crate::list_form::ListForm;
use crate::list_lines::{push_frame, push_unreached};
use crate::reached::Reached;
use crate::script::fill_script;
use devices::{Sink, WriteFault, write_last, write_piece, write_whole};
use finder::{Discovered, Survey};
use frame_records::{Base, Frame, Groups, Sought};
use page_ids::Key;
use std::alloc::{AllocError, Global};
use std::marker::Model;

// Room for what is kept of the text, up to 65,536 bytes, and the longest line: at most 256 bytes beside a word of 3 bytes for each
// of 65,535 keys.
const ROOM: usize = 65_536 + 256 + 3 * 65_535;

// All that is needed to write the lines of a base's frames.
#[derive(Drop)]
struct FrameLines<'a> {
    form: ListForm,
    base: &'a Base,
    survey: Survey<'a>,
    reached: Reached,
    keys: Vec<Key>,
    text: Vec<u8>,
}

impl<'a> Model for FrameLines<'a> {
    ghost use Rattle.audit_report.specs.Views.{LinesView};
    ghost use Rattle.audit_report.specs.Prepared.{IsPrepared};

    ghost Value = { LinesView };

    ghost view = { λ l. record { form = l.form; base = l.base.now; found = l.survey.found } };

    ghost invariant = { λ l. IsPrepared l.base.now l.survey l.reached l.keys l.text };
}

#[derive(Drop)]
enum Lines<'a> {
    // The entry frame's line alone.
    Entry(Vec<u8>),
    Frames(FrameLines<'a>),
}

/// The text of `list`, ready to be written. Contracts see the text, and whether the entry frame is open to the caller; if not, the
/// text is the entry frame's line alone.
#[derive(Drop)]
pub struct Listing<'a> {
    lines: Lines<'a>,
}

impl<'a> Model for Listing<'a> {
    ghost use Rattle.audit_report.specs.Views.{ListingView};
    ghost use Rattle.audit_report.specs.Texts.{view_of};

    ghost Value = { ListingView };

    ghost view = { λ l. view_of l.lines };
}

// The discovered frame at an index of the list.
fn discovered_at<'a>(survey: &'a Survey, index: u32) -> &'a Discovered
    requires { index < length survey.now.found }
    ensures { slice_get survey.now.found index ≡ Some result.now }
{
    &survey.found().as_slice()[index as usize]
}

// Writes the line of a reached frame after a text. A script of 65,535 keys has at most 196,605 bytes.
fn push_reached(out: &mut Vec<u8>, keys: &mut Vec<Key>, form: ListForm, survey: &Survey, index: u32)
    requires within { index < length survey.now.found }
    requires few { length survey.now.found ≤ 65535 }
    requires keys_room { length survey.now.found ≤ vec_capacity keys.old }
    requires room { vec_len out.old + 196861 ≤ vec_capacity out.old }
    ensures items { out.new.items ≡ out.old.items ++ reached_line form survey.now.base survey.now.found index }
    ensures len { vec_len out.new ≤ vec_len out.old + 196861 }
    ensures capacity { vec_capacity out.old ≤ vec_capacity out.new }
    ensures keys { vec_capacity keys.new ≡ vec_capacity keys.old }
{
    let rank = discovered_at(survey, index).rank;
    fill_script(keys, survey.found(), index);
    push_frame(
        out,
        form,
        survey.frame(index as usize),
        rank,
        keys.as_slice(),
    );
}

// Writes the lines of all reached frames, the last of which may be kept; returns how many bytes the sink has taken.
fn write_reached<S: Sink>(
    sink: &mut S,
    kept: &mut Vec<u8>,
    keys: &mut Vec<Key>,
    form: ListForm,
    survey: &Survey,
) -> Result<u64, WriteFault>
    requires open { (S.seen sink.old).failed ≡ false }
    requires few { length survey.now.found ≤ 65535 }
    requires keys_room { length survey.now.found ≤ vec_capacity keys.old }
    requires empty { kept.old.items ≡ [] }
    requires none { vec_len kept.old ≡ 0 }
    requires room { 262397 ≤ vec_capacity kept.old }
    ensures open { OnOk result ((S.seen sink.new).failed ≡ false) }
    ensures room { OnOk result (vec_len kept.new + 196861 ≤ vec_capacity kept.new) }
    ensures wide { OnOk result (262397 ≤ vec_capacity kept.new) }
    ensures count { IfOk result (λ n. n + vec_len kept.new ≤ 2 ^ 40) }
    ensures taken { IfOk result (λ n. IsOnItsWay (S.seen sink.old) (S.seen sink.new) kept.new.items n
        (reached_lines form survey.now.base survey.now.found (length survey.now.found))) }
    ensures part { (rest : List ℕ) → IfErr result (λ fault. WrotePart (S.seen sink.old) (S.seen sink.new)
        (reached_lines form survey.now.base survey.now.found (length survey.now.found) ++ rest) fault.wrote) }
{
    let mut wrote = 0;
    for index in 0..survey.found().as_slice().len() as u32 {
        push_reached(kept, keys, form, survey, index);
        match write_piece(sink, kept, wrote) {
            Ok(count) => wrote = count,
            Err(fault) => return Err(fault),
        }
    }
    Ok(wrote)
}

// Writes the line of a frame after a text if the frame isn't reached.
fn push_other(out: &mut Vec<u8>, form: ListForm, reached: &Reached, frame: &Frame)
    requires room { vec_len out.old + 256 ≤ vec_capacity out.old }
    ensures items { (found : List Entry) → Knows found reached.now → out.new.items ≡ out.old.items ++
        unreached_lines form found (frame.now ∷ []) }
    ensures len { vec_len out.new ≤ vec_len out.old + 256 }
    ensures capacity { vec_capacity out.old ≤ vec_capacity out.new }
{
    if !reached.contains(frame.id) {
        push_unreached(out, form, frame);
    }
}

// The same of the others of these frames, after `wrote` bytes of the text and those that are kept.
fn write_others<S: Sink>(
    sink: &mut S,
    kept: &mut Vec<u8>,
    wrote: u64,
    form: ListForm,
    reached: &Reached,
    frames: &[Frame],
) -> Result<u64, WriteFault>
    requires open { (S.seen sink.old).failed ≡ false }
    requires few { length frames.now ≤ 65535 }
    requires count { wrote + vec_len kept.old ≤ 2 ^ 40 }
    requires room { vec_len kept.old + 196861 ≤ vec_capacity kept.old }
    requires wide { 262397 ≤ vec_capacity kept.old }
    ensures open { OnOk result ((S.seen sink.new).failed ≡ false) }
    ensures count { IfOk result (λ n. n + vec_len kept.new ≤ 2 ^ 41) }
    ensures taken { (start : Seen) (before : List ℕ) (found : List Entry) → Knows found reached.now
        → IsOnItsWay start (S.seen sink.old) kept.old.items wrote before
        → IfOk result (λ n. IsOnItsWay start (S.seen sink.new) kept.new.items n (before ++
        unreached_lines form found frames.now)) }
    ensures part { (start : Seen) (before : List ℕ) (found : List Entry) → Knows found reached.now
        → IsOnItsWay start (S.seen sink.old) kept.old.items wrote before
        → IfErr result (λ fault. WrotePart start (S.seen sink.new) (before ++
        unreached_lines form found frames.now) fault.wrote) }
{
    let mut taken = wrote;
    for frame in frames {
        push_other(kept, form, reached, frame);
        match write_piece(sink, kept, taken) {
            Ok(count) => taken = count,
            Err(fault) => return Err(fault),
        }
    }
    Ok(taken)
}

// Writes the lines of the others and all that is kept, then flushes once.
fn write_rest<S: Sink>(
    sink: &mut S,
    kept: &mut Vec<u8>,
    wrote: u64,
    form: ListForm,
    reached: &Reached,
    frames: &[Frame],
) -> Result<(), WriteFault>
    requires open { (S.seen sink.old).failed ≡ false }
    requires few { length frames.now ≤ 65535 }
    requires count { wrote + vec_len kept.old ≤ 2 ^ 40 }
    requires room { vec_len kept.old + 196861 ≤ vec_capacity kept.old }
    requires wide { 262397 ≤ vec_capacity kept.old }
    ensures whole { (start : Seen) (before : List ℕ) (found : List Entry) → Knows found reached.now
        → IsOnItsWay start (S.seen sink.old) kept.old.items wrote before
        → OnOk result (WroteWhole start (S.seen sink.new) (before ++ unreached_lines form found frames.now)) }
    ensures part { (start : Seen) (before : List ℕ) (found : List Entry) → Knows found reached.now
        → IsOnItsWay start (S.seen sink.old) kept.old.items wrote before
        → IfErr result (λ fault. WrotePart start (S.seen sink.new) (before ++
        unreached_lines form found frames.now) fault.wrote) }
{
    match write_others(sink, kept, wrote, form, reached, frames) {
        Ok(wrote) => write_last(sink, kept.as_slice(), wrote),
        Err(fault) => Err(fault),
    }
}

impl<'a> FrameLines<'a> {
    // Takes all the memory that the lines need.
    fn of(
        alloc: Global,
        form: ListForm,
        base: &'a Base,
        groups: &'a Groups,
    ) -> Result<FrameLines<'a>, AllocError>
        ensures { IfOk result (λ lines.
            AreAllLines groups.now form base.now (all_lines lines.form lines.base lines.found)) }
    {
        let survey = Survey::of(alloc, base, groups)?;
        let reached = Reached::of(alloc, survey.found().as_slice())?;
        let keys = Vec::with_capacity(alloc, survey.found().as_slice().len())?;
        let text = Vec::with_capacity(alloc, ROOM)?;
        let _frames = base.frames();
        Ok(FrameLines {
            form,
            base,
            survey,
            reached,
            keys,
            text,
        })
    }

    fn write<S: Sink>(self, sink: &mut S) -> Result<(), WriteFault>
        requires { (S.seen sink.old).failed ≡ false }
        ensures whole { OnOk result (WroteWhole (S.seen sink.old) (S.seen sink.new)
            (all_lines self.entry.form self.entry.base self.entry.found)) }
        ensures part { IfErr result (λ fault. WrotePart (S.seen sink.old) (S.seen sink.new)
            (all_lines self.entry.form self.entry.base self.entry.found) fault.wrote) }
    {
        let FrameLines {
            form,
            base,
            survey,
            reached,
            mut keys,
            mut text,
        } = self;
        match write_reached(sink, &mut text, &mut keys, form, &survey) {
            Ok(wrote) => write_rest(sink, &mut text, wrote, form, &reached, base.frames()),
            Err(fault) => Err(fault),
        }
    }
}

impl<'a> Listing<'a> {
    // The entry frame's line alone.
    fn of_entry(
        alloc: Global,
        form: ListForm,
        base: &Base,
        closed: bool,
    ) -> Result<Listing<'a>, AllocError>
        ensures text { IfOk result (λ listing. listing.text ≡ lost_entry_line form (entry_of base.now) closed) }
        ensures entry { IfOk result (λ listing. listing.entry_is_found ≡ false) }
    {
        Ok(Listing {
            lines: Lines::Entry(entry_line(alloc, form, base.entry_frame(), closed)?),
        })
    }

    /// Whether the entry frame is open to the caller.
    pub fn entry_is_found(&self) -> bool
        ensures { result ≡ self.now.entry_is_found }
    {
        match self.lines {
            Lines::Entry(_) => false,
            Lines::Frames(_) => true,
        }
    }

    /// Writes the text, then flushes once. Its lines are made one by one, and sent on 65,536 bytes at a time; no memory is taken.
    pub fn write<S: Sink>(self, sink: &mut S) -> Result<(), WriteFault>
        requires { (S.seen sink.old).failed ≡ false }
        ensures whole { OnOk result (WroteWhole (S.seen sink.old) (S.seen sink.new) self.entry.text) }
        ensures part { IfErr result (λ fault.
            WrotePart (S.seen sink.old) (S.seen sink.new) self.entry.text fault.wrote) }
    {
        match self.lines {
            Lines::Entry(text) => write_whole(sink, text.as_slice()),
            Lines::Frames(lines) => lines.write(sink),
        }
    }
}

/// A line for each frame of a base: first those that a caller of exactly these groups can reach, in the order of their
/// discovery, and then the others, in the order of their ids. A frame that is closed to the caller is one of these.
///
/// The keys of a frame's line need not be the fewest that lead to it. The text has the length of all these keys, so it can be
/// far longer than the base; of it no more than 262,397 bytes are held at once.
pub fn list<'a>(
    alloc: Global,
    form: ListForm,
    base: &'a Base,
    groups: &'a Groups,
) -> Result<Listing<'a>, AllocError>
    ensures { IfOk result (IsListing groups.now form base.now) }
{
    match base.seek(base.entry_frame(), groups) {
        Sought::Missing => Listing::of_entry(alloc, form, base, false),
        Sought::Closed => Listing::of_entry(alloc, form, base, true),
        Sought::Found(_) => Ok(Listing {
            lines: Lines::Frames(FrameLines::of(alloc, form, base, groups)?),
        }),
    }
}
