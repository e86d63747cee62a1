ghost use Rattle.std.specs.Prelude.{◌≡◌, ◌⊎◌, ◌++◌, [], IfOk, OnOk, map};
ghost use Rattle.std.specs.List.{flat_map};
ghost use Rattle.frame_records.specs.Bases.{frame_at};
ghost use Rattle.pageaudit_c.specs.Calls.{groups_of, buffer};
ghost use Rattle.pageaudit_c.specs.declared.status.CallStatus.TheVariants.{Faulty, OutOfMemory};
ghost use Rattle.pageaudit_c.specs.Shows as spec;

use crate::answer::{Answer, bad_policy, fault_answer, lay_over, out_of_memory, without_text};
use crate::policy::groups_of;
use crate::status::CallStatus;
use checker::base_of;
use frame_records::{Base, Groups};
use frame_screens::{screen, way_to};
use page_ids::{FrameId, PageNo};
use screens::{Glyph, Height, Look, screen_looks};
use std::alloc::{AllocError, Global};

/// How a cell of a screen looks, as C has it.
#[repr(C)]
#[derive(Debug, Clone, Copy, PartialEq, Eq)]
pub struct CellLook {
    /// The code point of its character; of a mosaic, one from U+1FB00 to U+1FB3B, or a half or full block.
    pub character: u32,
    /// The colour of the character: 0 black, 1 red, 2 green, 3 yellow, 4 blue, 5 magenta, 6 cyan, 7 white.
    pub foreground: u8,
    /// The colour around it.
    pub background: u8,
    /// 1 if the character flashes.
    pub flash: u8,
    /// 1 if the character is concealed.
    pub concealed: u8,
    /// 1 if it is a mosaic whose blocks are apart.
    pub separated: u8,
    /// 0 a whole cell, 1 the upper half of one of double height, 2 its lower half.
    pub height: u8,
}

// A screen, or none, beside a status and a text.
#[derive(Drop)]
struct ShownScreen {
    status: CallStatus,
    text: Vec<u8>,
    codes: Vec<u8>,
    looks: Vec<CellLook>,
}

// The codes of a screen, and the looks of its cells.
#[derive(Drop)]
struct Screen {
    codes: Vec<u8>,
    looks: Vec<CellLook>,
}

fn flag(is: bool) -> u8
    ensures { result ≡ spec.flag is }
{
    if is { 1 } else { 0 }
}

fn height_number(height: Height) -> u8
    ensures { result ≡ spec.height_number height }
{
    match height {
        Height::Single => 0,
        Height::Upper => 1,
        Height::Lower => 2,
    }
}

fn code_point(glyph: &Glyph) -> u32
    ensures { result ≡ spec.code_point glyph.now }
{
    match glyph {
        Glyph::Char(c) => *c as u32,
        Glyph::Block(mosaic) => mosaic.sextants.character() as u32,
    }
}

fn is_apart(glyph: &Glyph) -> bool
    ensures { result ≡ spec.is_apart glyph.now }
{
    match glyph {
        Glyph::Char(_) => false,
        Glyph::Block(mosaic) => mosaic.separated,
    }
}

fn cell_look(look: &Look) -> CellLook
    ensures { result ≡ spec.cell_look look.now }
{
    CellLook {
        character: code_point(&look.glyph),
        foreground: look.foreground.number(),
        background: look.background.number(),
        flash: flag(look.flash),
        concealed: flag(look.concealed),
        separated: flag(is_apart(&look.glyph)),
        height: height_number(look.height),
    }
}

fn push_row(out: &mut Vec<CellLook>, row: &[Look; 40]) -> Result<(), AllocError>
    ensures { OnOk result (out.new.items ≡ out.old.items ++ map spec.cell_look row.now) }
{
    for look in row {
        out.push(cell_look(look))?;
    }
    Ok(())
}

fn push_rows(out: &mut Vec<CellLook>, rows: &[[Look; 40]]) -> Result<(), AllocError>
    ensures { OnOk result (out.new.items ≡ out.old.items ++ flat_map (map spec.cell_look) rows.now) }
{
    for row in rows {
        push_row(out, row)?;
    }
    Ok(())
}

// Appends the looks of a screen's cells.
fn push_looks(out: &mut Vec<CellLook>, codes: &[u8; 960]) -> Result<(), AllocError>
    ensures { OnOk result (out.new.items ≡ out.old.items ++ spec.cell_looks codes.now) }
{
    push_rows(out, screen_looks(codes).rows())
}

fn screen_of(alloc: Global, base: &Base, groups: &Groups, id: FrameId) -> Result<Screen, AllocError>
    ensures { IfOk result (λ s. spec.IsScreenOfFrame groups.now base.now id s.codes.items s.looks.items) }
{
    let frames = way_to(alloc, base, groups, id)?;
    let cells = screen(base, &frames);
    let mut codes = Vec::new(alloc);
    codes.extend_from_slice(&cells)?;
    let mut looks = Vec::new(alloc);
    push_looks(&mut looks, &cells)?;
    Ok(Screen { codes, looks })
}

fn without_screen(alloc: Global, answer: Answer) -> ShownScreen
    ensures status { result.status ≡ answer.status }
    ensures text { result.text.items ≡ answer.text.items }
    ensures codes { result.codes.items ≡ [] }
    ensures looks { result.looks.items ≡ [] }
{
    ShownScreen {
        status: answer.status,
        text: answer.text,
        codes: Vec::new(alloc),
        looks: Vec::new(alloc),
    }
}

fn no_frame(alloc: Global) -> ShownScreen
    ensures { spec.IsNoScreen Faulty result }
{
    without_screen(alloc, without_text(alloc, CallStatus::Faulty))
}

// The frame that a word names, by its id, or by a page for its frame `a`; the entry frame without one.
fn named(base: &Base, word: &[u8]) -> Option<FrameId>
    ensures { result ≡ spec.named base.now word.now }
{
    match word {
        [] => Some(base.entry_frame()),
        _ => match PageNo::read_bytes(word) {
            Some(page) => Some(FrameId::first(page)),
            None => FrameId::read_bytes(word),
        },
    }
}

// A frame that the base has.
fn frame_shown(alloc: Global, base: &Base, groups: &Groups, id: FrameId) -> ShownScreen
    ensures { spec.IsFrameScreen groups.now base.now id result ⊎ spec.IsNoScreen OutOfMemory result }
{
    match screen_of(alloc, base, groups, id) {
        Ok(screen) => ShownScreen {
            status: CallStatus::Clear,
            text: Vec::new(alloc),
            codes: screen.codes,
            looks: screen.looks,
        },
        Err(_) => without_screen(alloc, out_of_memory(alloc)),
    }
}

fn id_shown(alloc: Global, base: &Base, groups: &Groups, id: FrameId) -> ShownScreen
    ensures { spec.IsRecordShown groups.now base.now id (frame_at base.now id) result }
{
    match base.find(id) {
        Some(_) => frame_shown(alloc, base, groups, id),
        None => no_frame(alloc),
    }
}

fn word_shown(alloc: Global, base: &Base, groups: &Groups, word: &[u8]) -> ShownScreen
    ensures { spec.IsNamedShown groups.now base.now (spec.named base.now word.now) result }
{
    match named(base, word) {
        Some(id) => id_shown(alloc, base, groups, id),
        None => no_frame(alloc),
    }
}

fn base_shown(alloc: Global, text: &[u8], groups: &Groups, word: &[u8]) -> ShownScreen
    ensures { spec.IsShowAnswer text.now word.now groups.now result }
{
    match base_of(alloc, text) {
        Ok(base) => word_shown(alloc, &base, groups, word),
        Err(fault) => without_screen(alloc, fault_answer(alloc, &fault)),
    }
}

// The answer for the groups that are passed.
fn show_answer(alloc: Global, text: &[u8], word: &[u8], groups: &[u8]) -> ShownScreen
    ensures { spec.IsAskedShow text.now word.now (groups_of groups.now) result }
{
    match groups_of(groups) {
        Ok(groups) => base_shown(alloc, text, &groups, word),
        Err(_) => without_screen(alloc, bad_policy(alloc)),
    }
}

/// Shows the screen of a frame, as a caller of the groups sees it: its 960 codes, and how each cell looks.
///
/// `frame` is an id, as `478a`, or a page for its frame `a`, as `478`; if it is empty, the entry frame is shown. It is shown over
/// the frames on the way to it, as the program's `show` does. `groups` are passed as to [`crate::pageaudit_check`]. Returns the
/// number of a status: `Faulty` if the base has no such frame. The codes and looks go to the front of `codes` and `looks`, as far
/// as they fit, in rows from the top; without a screen both stay as they are. The line of a fault in the base's text goes to
/// `line`, and its whole length to `full_length`.
#[unsafe(no_mangle)]
pub extern "C" fn pageaudit_show(
    alloc: Global,
    base: &[u8],
    frame: &[u8],
    groups: &[u8],
    codes: &mut [u8],
    looks: &mut [CellLook],
    line: &mut [u8],
    full_length: &mut usize,
) -> u32
    ensures { spec.IsShowCall base.now frame.now (groups_of groups.now)
        (record { codes = codes.old; codes_after = codes.new; looks = looks.old; looks_after = looks.new })
        (buffer line.old line.new full_length.new) result }
{
    let answer = show_answer(alloc, base, frame, groups);
    lay_over(answer.codes.as_slice(), codes);
    lay_over(answer.looks.as_slice(), looks);
    *full_length = lay_over(answer.text.as_slice(), line);
    answer.status.number()
}
