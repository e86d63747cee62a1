//! Where a text writes its frames, line by line.

ghost use Rattle.std.specs.Prelude.{◌≡◌, List, IfOk, IsSome, map};
ghost use Rattle.toml.specs.Parse.{parse_document};
ghost use Rattle.toml_places.specs.Places.{Mark};
ghost use Rattle.lint.specs.FrameLines as spec;
ghost use Rattle.lint.specs.Lookups.{value_of};
ghost use Rattle.lint.specs.FrameLines.{IsWrittenBase};
ghost use Rattle.lint.specs.Loops.{IsDraftOf, KnowsTables, sound_draft};

use crate::judging::tables_of;
use crate::lookup::Lookup;
use crate::tables::TextTables;
use base_text::{Draft, Listed, MOST_TEXT, draft_of, judge, tree};
use frame_records::Base;
use page_ids::{FrameId, PageNo};
use std::alloc::{AllocError, Global};
use std::marker::Model;
use toml_places::{Places, TextLines};

/// Where a frame is written.
#[derive(Debug, Clone, Copy, PartialEq, Eq)]
pub struct WrittenFrame {
    /// The line of the value of its id, from 1.
    pub line: usize,
    /// Whether it is given as `rows`.
    pub has_rows: bool,
}

/// The lines of frames, by their ids. Contracts see them as a list.
#[derive(Drop)]
pub struct WrittenFrames {
    list: Vec<(FrameId, WrittenFrame)>,
    known: Lookup<WrittenFrame>,
}

impl Model for WrittenFrames {
    ghost use Rattle.std.specs.Prelude.{List};
    ghost use Rattle.page_ids.specs.Ids.{Id};
    ghost use Rattle.lint.specs.declared.lines.WrittenFrame.{WrittenFrame};
    ghost use Rattle.lint.specs.Lookups.{KnowsValues};

    ghost Value = { List (Id × WrittenFrame) };

    ghost view = { λ l. l.list.items };

    ghost invariant = { λ l. KnowsValues l.list.items l.known };
}

impl WrittenFrames {
    fn of(alloc: Global, list: Vec<(FrameId, WrittenFrame)>) -> Result<WrittenFrames, AllocError>
        ensures { IfOk result (λ lines. lines ≡ list.items) }
    {
        let known = Lookup::of(alloc, list.as_slice())?;
        Ok(WrittenFrames { list, known })
    }

    /// Where the frame of an id is written, if it is known.
    pub fn get(&self, id: FrameId) -> Option<WrittenFrame>
        ensures { result ≡ value_of self.now id }
    {
        self.known.get(id)
    }
}

fn written_line(
    alloc: Global,
    tables: &TextTables<'_>,
    lines: &TextLines<'_>,
    frame: usize,
) -> Result<WrittenFrame, AllocError>
    ensures { IfOk result (λ line. (ms : List Mark) → KnowsTables ms tables.now → lines.now ≡ tables.now.text.now
        → line ≡ spec.written_line tables.now.text.now ms frame) }
{
    let span = tables.id_span(alloc, frame)?;
    let has_rows = tables.has_rows(alloc, frame)?;
    let (line, _) = lines.place(span.begin);
    Ok(WrittenFrame { line, has_rows })
}

// The lines of the frames of tables, with their ids.
fn lined(
    alloc: Global,
    tables: &TextTables<'_>,
    lines: &TextLines<'_>,
    frames: &[(FrameId, usize)],
) -> Result<Vec<(FrameId, WrittenFrame)>, AllocError>
    ensures { IfOk result (λ pairs. (ms : List Mark) → KnowsTables ms tables.now → lines.now ≡ tables.now.text.now
        → pairs.items ≡ map (spec.lined tables.now.text.now ms) frames.now) }
{
    let mut pairs = Vec::new(alloc);
    for (id, frame) in frames {
        pairs.push((*id, written_line(alloc, tables, lines, *frame)?))?;
    }
    Ok(pairs)
}

// Where a text writes the frames of these tables; the index of a frame's table is from 0, as in a draft. The text is read once.
fn frame_lines(
    alloc: Global,
    text: &str,
    tables: &[(FrameId, usize)],
) -> Result<WrittenFrames, AllocError>
    ensures { IfOk result (λ lines. IsSome (parse_document text.now)
        → lines ≡ spec.frame_lines_of text.now tables.now) }
{
    let places = Places::of(alloc, text)?;
    let written = TextTables::of(alloc, text, &places)?;
    let lines = TextLines::of(alloc, text.as_bytes())?;
    let list = lined(alloc, &written, &lines, tables)?;
    WrittenFrames::of(alloc, list)
}

/// A base, and where its text writes the frames.
#[derive(Drop)]
pub struct WrittenBase {
    pub base: Base,
    pub lines: WrittenFrames,
}

// The base of a draft without a fault, and where the text writes its frames.
fn sound_base(
    alloc: Global,
    text: &str,
    entry: PageNo,
    outside: Vec<PageNo>,
    frames: Vec<Listed>,
) -> Result<Option<WrittenBase>, AllocError>
    requires { IsDraftOf text.now (sound_draft entry outside.items frames.items) }
    ensures { IfOk result (IsWrittenBase text.now) }
{
    let tables = tables_of(alloc, frames.as_slice())?;
    match judge(alloc, entry, outside, frames)? {
        Ok(base) => {
            let lines = frame_lines(alloc, text, tables.as_slice())?;
            Ok(Some(WrittenBase { base, lines }))
        }
        Err(_) => Ok(None),
    }
}

// The base of a draft, and where the text writes its frames.
fn written_of(alloc: Global, text: &str, draft: Draft) -> Result<Option<WrittenBase>, AllocError>
    requires { IsDraftOf text.now draft }
    ensures { IfOk result (IsWrittenBase text.now) }
{
    let Draft {
        entry,
        outside,
        frames,
        faults,
    } = draft;
    match (faults.as_slice(), entry) {
        ([], Some(entry)) => sound_base(alloc, text, entry, outside, frames),
        _ => Ok(None),
    }
}

/// The base that a text means, and where it writes the frames; none if `base_read` refuses the text. It is read twice, once as TOML.
pub fn written_base(alloc: Global, text: &[u8]) -> Result<Option<WrittenBase>, AllocError>
    ensures { IfOk result (IsWrittenBase text.now) }
{
    if text.len() > MOST_TEXT {
        return Ok(None);
    }
    let Ok(table) = tree(alloc, text)? else {
        return Ok(None);
    };
    match str::from_utf8(text) {
        Ok(text) => written_of(alloc, text, draft_of(alloc, table)?),
        Err(_) => unreachable!(),
    }
}
