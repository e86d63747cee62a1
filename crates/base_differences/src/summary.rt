//! How a base differs from the one before it, as it is printed.

ghost use Rattle.std.specs.Prelude.{◌≡◌, ◌++◌, IfOk, OnOk, take};
ghost use Rattle.std.specs.List.{flat_map};
ghost use Rattle.std.specs.Option.{option_copied};
ghost use Rattle.frame_records.specs.Bases.{frame_at};
ghost use Rattle.base_differences.specs.Summaries as spec;

use crate::differences::Differences;
use frame_records::Base;
use page_ids::{FrameId, push_id, push_number};
use std::alloc::{AllocError, Global};

/// How many frames of a kind are named.
pub const MOST_NAMED: usize = 8;

#[tactic(auto, unfolding(crate::specs::Summaries::count_text))]
fn push_count(out: &mut Vec<u8>, count: usize, what: &[u8]) -> Result<(), AllocError>
    ensures { OnOk result (out.new.items ≡ out.old.items ++ spec.count_text count what.now) }
{
    push_number(out, count as u64)?;
    out.push(b' ')?;
    out.extend_from_slice(what)
}

// The first ids, as many as are named.
fn named(ids: &[FrameId]) -> &[FrameId]
    ensures { result.now ≡ take MOST_NAMED ids.now }
{
    &ids[..MOST_NAMED.min(ids.len())]
}

// What follows those that are named.
#[tactic(auto, unfolding(crate::specs::Summaries::more_text))]
fn push_end(out: &mut Vec<u8>, ids: &[FrameId], end: &[u8]) -> Result<(), AllocError>
    ensures { OnOk result (out.new.items ≡ out.old.items ++ spec.more_text ids.now end.now) }
{
    if ids.len() > MOST_NAMED {
        out.extend_from_slice(b" ..")?;
    }
    out.extend_from_slice(end)
}

#[tactic(auto, unfolding(crate::specs::Summaries::further_id))]
fn push_further_id(out: &mut Vec<u8>, id: FrameId) -> Result<(), AllocError>
    ensures { OnOk result (out.new.items ≡ out.old.items ++ spec.further_id id) }
{
    out.push(b' ')?;
    push_id(out, id)
}

fn push_further_ids(out: &mut Vec<u8>, ids: &[FrameId]) -> Result<(), AllocError>
    ensures { OnOk result (out.new.items ≡ out.old.items ++ flat_map spec.further_id ids.now) }
{
    for id in ids {
        push_further_id(out, *id)?;
    }
    Ok(())
}

// Ids, with a space between two.
fn push_ids(out: &mut Vec<u8>, ids: &[FrameId]) -> Result<(), AllocError>
    ensures { OnOk result (out.new.items ≡ out.old.items ++ spec.ids_text ids.now) }
{
    match ids.split_first() {
        None => Ok(()),
        Some((first, further)) => {
            push_id(out, *first)?;
            push_further_ids(out, further)
        }
    }
}

#[tactic(auto, unfolding(crate::specs::Summaries::some_frames))]
fn push_some_frames(out: &mut Vec<u8>, ids: &[FrameId], what: &[u8]) -> Result<(), AllocError>
    ensures { OnOk result (out.new.items ≡ out.old.items ++ spec.some_frames ids.now what.now) }
{
    out.extend_from_slice(b", ")?;
    push_count(out, ids.len(), what)?;
    out.extend_from_slice(b" (")?;
    push_ids(out, named(ids))?;
    push_end(out, ids, b")")
}

// How many frames of a kind there are, and the first ones' ids.
fn push_frames(out: &mut Vec<u8>, ids: &[FrameId], what: &[u8]) -> Result<(), AllocError>
    ensures { OnOk result (out.new.items ≡ out.old.items ++ spec.frames_named ids.now what.now) }
{
    if ids.is_empty() {
        return Ok(());
    }
    push_some_frames(out, ids, what)
}

fn push_changed(out: &mut Vec<u8>, changed: usize) -> Result<(), AllocError>
    ensures { OnOk result (out.new.items ≡ out.old.items ++ spec.changed_text changed) }
{
    if changed > 0 {
        out.extend_from_slice(b", ")?;
        push_count(out, changed, b"changed")?;
    }
    Ok(())
}

// What a frame costs in a base.
fn price_in(base: &Base, id: FrameId) -> u16
    ensures { result ≡ spec.found_price (frame_at base.now id) }
{
    match base.find(id) {
        Some(frame) => frame.price.get(),
        None => 0,
    }
}

#[tactic(auto, unfolding(crate::specs::Summaries::price_change))]
fn push_price(out: &mut Vec<u8>, old: &Base, new: &Base, id: FrameId) -> Result<(), AllocError>
    ensures { OnOk result (out.new.items ≡ out.old.items ++ spec.price_change old.now new.now id) }
{
    push_id(out, id)?;
    out.push(b' ')?;
    push_number(out, u64::from(price_in(old, id)))?;
    out.extend_from_slice(b"p -> ")?;
    push_number(out, u64::from(price_in(new, id)))?;
    out.push(b'p')?;
    Ok(())
}

#[tactic(auto, unfolding(crate::specs::Summaries::further_price))]
fn push_further_price(
    out: &mut Vec<u8>,
    old: &Base,
    new: &Base,
    id: FrameId,
) -> Result<(), AllocError>
    ensures { OnOk result (out.new.items ≡ out.old.items ++ spec.further_price old.now new.now id) }
{
    out.extend_from_slice(b", ")?;
    push_price(out, old, new, id)
}

fn push_further_prices(
    out: &mut Vec<u8>,
    old: &Base,
    new: &Base,
    ids: &[FrameId],
) -> Result<(), AllocError>
    ensures { OnOk result (out.new.items ≡ out.old.items ++ flat_map (spec.further_price old.now new.now) ids.now) }
{
    for id in ids {
        push_further_price(out, old, new, *id)?;
    }
    Ok(())
}

fn push_first_prices(
    out: &mut Vec<u8>,
    old: &Base,
    new: &Base,
    ids: &[FrameId],
) -> Result<(), AllocError>
    ensures { OnOk result (out.new.items ≡ out.old.items ++ spec.first_prices old.now new.now ids.now) }
{
    match ids.split_first() {
        None => Ok(()),
        Some((first, further)) => {
            out.extend_from_slice(b", prices ")?;
            push_price(out, old, new, *first)?;
            push_further_prices(out, old, new, further)
        }
    }
}

// The prices of frames in two bases.
#[tactic(auto, unfolding(crate::specs::Summaries::prices_text))]
fn push_prices(out: &mut Vec<u8>, old: &Base, new: &Base, ids: &[FrameId]) -> Result<(), AllocError>
    ensures { OnOk result (out.new.items ≡ out.old.items ++ spec.prices_text old.now new.now ids.now) }
{
    push_first_prices(out, old, new, named(ids))?;
    push_end(out, ids, b"")
}

fn push_differences(
    alloc: Global,
    out: &mut Vec<u8>,
    old: &Base,
    new: &Base,
) -> Result<(), AllocError>
    ensures { OnOk result (out.new.items ≡ out.old.items ++ spec.differences_text old.now new.now) }
{
    let differences = Differences::between(alloc, old, new)?;
    push_frames(out, differences.new.as_slice(), b"new")?;
    push_frames(out, differences.gone.as_slice(), b"gone")?;
    push_changed(out, differences.changed)?;
    push_prices(out, old, new, differences.prices.as_slice())
}

// The word after a number of frames.
fn frames_word(frames: usize) -> &'static [u8]
    ensures { result.now ≡ spec.frames_word frames }
{
    if frames == 1 {
        b" frame".as_slice()
    } else {
        b" frames".as_slice()
    }
}

/// The number of frames of a base, and how it differs from the one before it: `79 frames, 2 new (4783a 4783b), 5
/// changed, prices 4785a 10p -> 15p`. At most eight frames of a kind are named.
pub fn base_summary(alloc: Global, old: Option<&Base>, new: &Base) -> Result<Vec<u8>, AllocError>
    ensures { IfOk result (λ text. text.items ≡ spec.summary (option_copied old.entry) new.now) }
{
    let mut out = Vec::new(alloc);
    let frames = new.frames().len();
    push_number(&mut out, frames as u64)?;
    out.extend_from_slice(frames_word(frames))?;
    if let Some(old) = old {
        push_differences(alloc, &mut out, old, new)?;
    }
    Ok(out)
}
