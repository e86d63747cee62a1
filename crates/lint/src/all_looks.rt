//! All that may be wrong with what frames show, and the closed frames to which no way leads.

ghost use Rattle.std.specs.Prelude.{◌≡◌, ◌++◌, Bool, List, IfOk, OnOk};
ghost use Rattle.page_ids.specs.Ids.{Id};
ghost use Rattle.lint.specs.Lookups.{KnowsValues};
ghost use Rattle.lint.specs.AllLooks as spec;

use crate::looks::{Look, add_line_end, add_rows_if};
use crate::lookup::Lookup;
use crate::sights::add_sights;
use frame_records::{Frame, Groups};
use lint_words::LineEnd;
use page_ids::{FrameId, PageNo, Way};
use std::alloc::{AllocError, Global};

fn add_looks(
    alloc: Global,
    frame: &Frame,
    looks: &mut Vec<(FrameId, Look)>,
) -> Result<(), AllocError>
    ensures { OnOk result (looks.new.items ≡ looks.old.items ++ spec.frame_looks frame.now) }
{
    add_rows_if(frame, looks)?;
    add_line_end(frame, LineEnd::Feed, looks)?;
    add_line_end(frame, LineEnd::Return, looks)?;
    add_sights(alloc, frame, looks)
}

// What may be wrong with what frames show, each after the frame.
fn looks_of(alloc: Global, frames: &[Frame]) -> Result<Vec<(FrameId, Look)>, AllocError>
    ensures { IfOk result (λ looks. looks.items ≡ spec.looks_of frames.now) }
{
    let mut looks = Vec::new(alloc);
    for frame in frames {
        add_looks(alloc, frame, &mut looks)?;
    }
    Ok(looks)
}

fn add_page(page: Option<PageNo>, ids: &mut Vec<(FrameId, bool)>) -> Result<(), AllocError>
    ensures { OnOk result (ids.new.items ≡ ids.old.items ++ spec.page_sought page) }
{
    if let Some(page) = page {
        ids.push((FrameId::first(page), true))?;
    }
    Ok(())
}

fn add_id(id: Option<FrameId>, ids: &mut Vec<(FrameId, bool)>) -> Result<(), AllocError>
    ensures { OnOk result (ids.new.items ≡ ids.old.items ++ spec.id_sought id) }
{
    if let Some(id) = id {
        ids.push((id, true))?;
    }
    Ok(())
}

fn add_pages(routes: &[Option<PageNo>], ids: &mut Vec<(FrameId, bool)>) -> Result<(), AllocError>
    ensures { OnOk result (ids.new.items ≡ ids.old.items ++ spec.pages_sought routes.now) }
{
    for page in routes {
        add_page(*page, ids)?;
    }
    Ok(())
}

// The frames that the ways of one seek.
fn add_sought(frame: &Frame, ids: &mut Vec<(FrameId, bool)>) -> Result<(), AllocError>
    ensures { OnOk result (ids.new.items ≡ ids.old.items ++ spec.ids_sought frame.now) }
{
    add_pages(&frame.routes, ids)?;
    add_id(frame.sought(Way::Next), ids)
}

fn all_sought(alloc: Global, frames: &[Frame]) -> Result<Vec<(FrameId, bool)>, AllocError>
    ensures { IfOk result (λ ids. ids.items ≡ spec.all_sought frames.now) }
{
    let mut ids = Vec::new(alloc);
    for frame in frames {
        add_sought(frame, &mut ids)?;
    }
    Ok(ids)
}

fn add_closed(
    groups: &Groups,
    frame: &Frame,
    looks: &mut Vec<(FrameId, Look)>,
) -> Result<(), AllocError>
    ensures { OnOk result (looks.new.items
        ≡ looks.old.items ++ spec.closed_look groups.now frame.now frame.now.group) }
{
    if let Some(group) = frame.group {
        if !frame.is_open(groups) {
            looks.push((frame.id, Look::Unsought(group)))?;
        }
    }
    Ok(())
}

fn add_unsought(
    groups: &Groups,
    known: &Lookup<bool>,
    frame: &Frame,
    looks: &mut Vec<(FrameId, Look)>,
) -> Result<(), AllocError>
    ensures { OnOk result ((ids : List (Id × Bool)) → KnowsValues ids known.now
        → looks.new.items ≡ looks.old.items ++ spec.unsought_look groups.now ids frame.now) }
{
    match known.get(frame.id) {
        Some(_) => Ok(()),
        None => add_closed(groups, frame, looks),
    }
}

fn add_unsought_among(
    groups: &Groups,
    known: &Lookup<bool>,
    frames: &[Frame],
    looks: &mut Vec<(FrameId, Look)>,
) -> Result<(), AllocError>
    ensures { OnOk result ((ids : List (Id × Bool)) → KnowsValues ids known.now
        → looks.new.items ≡ looks.old.items ++ spec.unsought_among groups.now ids frames.now) }
{
    for frame in frames {
        add_unsought(groups, known, frame, looks)?;
    }
    Ok(())
}

fn has_closed(groups: &Groups, frames: &[Frame]) -> bool
    ensures { result ≡ spec.has_closed groups.now frames.now }
{
    frames.iter().any(|frame| !frame.is_open(groups))
}

// Appends the closed frames that no way of any frame seeks.
fn add_all_unsought(
    alloc: Global,
    groups: &Groups,
    frames: &[Frame],
    looks: &mut Vec<(FrameId, Look)>,
) -> Result<(), AllocError>
    ensures { OnOk result (looks.new.items ≡ looks.old.items ++ spec.unsought_of groups.now frames.now) }
{
    if has_closed(groups, frames) {
        let known = Lookup::of(alloc, all_sought(alloc, frames)?.as_slice())?;
        add_unsought_among(groups, &known, frames, looks)?;
    }
    Ok(())
}

// What may be wrong with frames, whatever the audit says, each after the frame.
pub fn all_looks(
    alloc: Global,
    groups: &Groups,
    frames: &[Frame],
) -> Result<Vec<(FrameId, Look)>, AllocError>
    ensures { IfOk result (λ looks. looks.items ≡ spec.all_looks groups.now frames.now) }
{
    let mut looks = looks_of(alloc, frames)?;
    add_all_unsought(alloc, groups, frames, &mut looks)?;
    Ok(looks)
}
