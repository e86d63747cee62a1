//! What differs between two bases.

ghost use Rattle.std.specs.Prelude.{◌≡◌, ◌++◌, [], IfOk, OnOk, count_by};
ghost use Rattle.base_differences.specs.Differences as spec;

use frame_records::{Base, Frame};
use page_ids::FrameId;
use std::alloc::{AllocError, Global};

/// What differs between two bases; frames in the order of their ids.
#[derive(Drop)]
pub struct Differences {
    pub new: Vec<FrameId>,
    pub gone: Vec<FrameId>,
    /// How many frames of both differ.
    pub changed: usize,
    /// The frames whose prices differ.
    pub prices: Vec<FrameId>,
}

fn are_same(one: &Frame, other: &Frame) -> bool
    ensures { result ≡ spec.are_same one.now other.now }
{
    one.price == other.price
        && one.group == other.group
        && one.next == other.next
        && one.routes == other.routes
        && one.lead == other.lead
        && one.body.as_slice() == other.body.as_slice()
}

fn differs(base: &Base, frame: &Frame) -> bool
    ensures { result ≡ spec.differs base.now frame.now }
{
    match base.find(frame.id) {
        Some(old) => !are_same(old, frame),
        None => false,
    }
}

fn costs_other(base: &Base, frame: &Frame) -> bool
    ensures { result ≡ spec.costs_other base.now frame.now }
{
    match base.find(frame.id) {
        Some(old) => old.price != frame.price,
        None => false,
    }
}

fn push_lacked(base: &Base, frames: &[Frame], ids: &mut Vec<FrameId>) -> Result<(), AllocError>
    ensures { OnOk result (ids.new.items ≡ ids.old.items ++ spec.ids_lacked base.now frames.now) }
{
    for frame in frames {
        if base.find(frame.id).is_none() {
            ids.push(frame.id)?;
        }
    }
    Ok(())
}

fn push_prices(base: &Base, frames: &[Frame], ids: &mut Vec<FrameId>) -> Result<(), AllocError>
    ensures { OnOk result (ids.new.items ≡ ids.old.items ++ spec.ids_of_prices base.now frames.now) }
{
    for frame in frames {
        if costs_other(base, frame) {
            ids.push(frame.id)?;
        }
    }
    Ok(())
}

impl Differences {
    fn none(alloc: Global) -> Differences
        ensures new { result.new.items ≡ [] }
        ensures gone { result.gone.items ≡ [] }
        ensures prices { result.prices.items ≡ [] }
    {
        Differences {
            new: Vec::new(alloc),
            gone: Vec::new(alloc),
            changed: 0,
            prices: Vec::new(alloc),
        }
    }

    pub fn between(alloc: Global, old: &Base, new: &Base) -> Result<Differences, AllocError>
        ensures new { IfOk result (λ it. it.new.items ≡ spec.ids_lacked old.now new.now.frames) }
        ensures gone { IfOk result (λ it. it.gone.items ≡ spec.ids_lacked new.now old.now.frames) }
        ensures changed { IfOk result (λ it. it.changed ≡ count_by (spec.differs old.now) new.now.frames) }
        ensures prices { IfOk result (λ it. it.prices.items ≡ spec.ids_of_prices old.now new.now.frames) }
    {
        let mut differences = Differences::none(alloc);
        push_lacked(old, new.frames(), &mut differences.new)?;
        push_lacked(new, old.frames(), &mut differences.gone)?;
        differences.changed = new
            .frames()
            .iter()
            .filter(|frame| differs(old, frame))
            .count();
        push_prices(old, new.frames(), &mut differences.prices)?;
        Ok(differences)
    }
}
