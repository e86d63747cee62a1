//! One frame of each id.

ghost use Rattle.std.specs.Prelude.{◌≡◌, ◌++◌, ◌∷◌, [], IfOk, OnOk, length};
ghost use Rattle.screen_files.specs.Settling as spec;

use crate::filed::{Filed, ScreenPlace, Twin};
use crate::frame::ScreenFrame;
use frame_records::Pence;
use std::alloc::{AllocError, Global};
use std::marker::Model;

/// One frame of each id, in the order of the ids, and those that aren't kept. Contracts see both lists.
#[derive(Drop)]
pub struct Settled {
    frames: Vec<Filed>,
    twins: Vec<Twin>,
}

impl Model for Settled {
    ghost use Rattle.screen_files.specs.Settling.{Ascend, SettledView};

    ghost Value = { SettledView };

    ghost view = { λ s. record { frames = s.frames.items; twins = s.twins.items } };

    ghost invariant = { λ s. Ascend s.frames.items };
}

impl Settled {
    /// The frames that are kept.
    pub fn frames(&self) -> &[Filed]
        ensures all { result.now ≡ self.now.frames }
        ensures ascend { spec.Ascend self.now.frames }
    {
        self.frames.as_slice()
    }

    /// The frames that aren't, in the order of their ids, those of one id in the order in which they were added.
    pub fn twins(&self) -> &[Twin]
        ensures { result.now ≡ self.now.twins }
    {
        self.twins.as_slice()
    }
}

// Whether each cell of the second list is a space or as in the first.
fn cells_hold(cells: &[u8], others: &[u8]) -> bool
    requires { length cells.now ≡ length others.now }
    ensures { result ≡ spec.cells_hold cells.now others.now }
{
    for at in 0..others.len() {
        if others[at] != b' ' && others[at] != cells[at] {
            return false;
        }
    }
    true
}

fn same_price(price: Option<Pence>, other: Option<Pence>) -> bool
    ensures { result ≡ spec.same_price price other }
{
    match (price, other) {
        (None, None) => true,
        (Some(price), Some(other)) => price == other,
        _ => false,
    }
}

// Whether the first frame shows all that the second shows.
fn holds(frame: &ScreenFrame, other: &ScreenFrame) -> bool
    ensures { result ≡ spec.holds frame.now other.now }
{
    same_price(frame.price, other.price) && cells_hold(&frame.codes[40..920], &other.codes[40..920])
}

// Whether these are addresses of two lines.
fn is_other_line(place: ScreenPlace, other: ScreenPlace) -> bool
    ensures { result ≡ spec.is_other_line place other }
{
    match (place, other) {
        (ScreenPlace::Line(line), ScreenPlace::Line(other)) => line != other,
        _ => false,
    }
}

fn stands_for(filed: &Filed, other: &Filed) -> bool
    ensures { result ≡ spec.stands_for filed.now other.now }
{
    filed.origin.file == other.origin.file
        && !is_other_line(filed.origin.place, other.origin.place)
        && holds(&filed.frame, &other.frame)
}

fn has_same_id(filed: &Filed, other: &Filed) -> bool
    ensures { result ≡ spec.has_same_id filed.now other.now }
{
    filed.frame.id == other.frame.id
}

// Which of two frames of one id is kept: the second if it shows all that the first shows, and more.
fn chosen<'a>(kept: &'a Filed, filed: &'a Filed) -> &'a Filed
    ensures { result.now ≡ spec.chosen kept.now filed.now }
{
    if !stands_for(kept, filed) && stands_for(filed, kept) {
        filed
    } else {
        kept
    }
}

// Adds those of one id for which the kept one doesn't stand.
fn push_twins(twins: &mut Vec<Twin>, kept: &Filed, group: &[Filed]) -> Result<(), AllocError>
    ensures { OnOk result (twins.new.items ≡ twins.old.items ++ spec.twins_among kept.now group.now) }
{
    for filed in group {
        if !stands_for(kept, filed) {
            twins.extend_from_slice(&[Twin {
                id: kept.frame.id,
                kept: kept.origin,
                other: filed.origin,
            }])?;
        }
    }
    Ok(())
}

// The frames that are kept so far, and those that aren't.
#[derive(Drop)]
struct Choice {
    frames: Vec<Filed>,
    twins: Vec<Twin>,
}

impl Choice {
    // Adds the frame that is kept of a group of one id.
    fn close(&mut self, kept: &Filed, group: &[Filed]) -> Result<(), AllocError>
        ensures frames { OnOk result (self.new.frames.items ≡ self.old.frames.items ++ kept.now ∷ []) }
        ensures twins { OnOk result
            (self.new.twins.items ≡ self.old.twins.items ++ spec.twins_among kept.now group.now) }
    {
        self.frames.extend_from_slice(&[*kept])?;
        push_twins(&mut self.twins, kept, group)
    }

    // Adds those that are kept of frames in the order of their ids, of which this is the first.
    fn add_from(
        &mut self,
        first: &Filed,
        rest: &[Filed],
        sorted: &[Filed],
    ) -> Result<(), AllocError>
        requires { sorted.now ≡ first.now ∷ rest.now }
        ensures frames { OnOk result
            (self.new.frames.items ≡ self.old.frames.items ++ spec.kept_from first.now rest.now) }
        ensures twins { OnOk result
            (self.new.twins.items ≡ self.old.twins.items ++ spec.twins_from first.now (first.now ∷ []) rest.now) }
    {
        let mut kept = first;
        let mut group = sorted;
        let mut left = rest;
        while let Some((filed, more)) = left.split_first() {
            if has_same_id(kept, filed) {
                kept = chosen(kept, filed);
            } else {
                self.close(kept, &group[..group.len() - left.len()])?;
                kept = filed;
                group = left;
            }
            left = more;
        }
        self.close(kept, &group[..group.len() - left.len()])
    }

    fn add(&mut self, sorted: &[Filed]) -> Result<(), AllocError>
        ensures frames { OnOk result (self.new.frames.items ≡ self.old.frames.items ++ spec.settled_frames sorted.now) }
        ensures twins { OnOk result (self.new.twins.items ≡ self.old.twins.items ++ spec.twins_of sorted.now) }
    {
        match sorted.split_first() {
            None => Ok(()),
            Some((first, rest)) => self.add_from(first, rest, sorted),
        }
    }
}

// In the order of their ids, those of one id in their order.
fn sort(filed: &mut Vec<Filed>) -> Result<(), AllocError>
    ensures { OnOk result (spec.AreFiledInOrder filed.old.items filed.new.items) }
{
    filed.sort_by_key(|filed| filed.frame.id)?;
    Ok(())
}

/// Keeps one frame of each id: the first that shows all that the others of its id show, in rows 1 to 22, at the same price, if all are
/// of one capture. If none does, the others are its twins: they are refused.
///
/// If frames of several files have one id, the first is kept.
pub fn settle(alloc: Global, filed: Vec<Filed>) -> Result<Settled, AllocError>
    ensures { IfOk result (spec.IsSettled filed.items) }
{
    let mut sorted = filed;
    sort(&mut sorted)?;
    let mut choice = Choice {
        frames: Vec::new(alloc),
        twins: Vec::new(alloc),
    };
    choice.add(sorted.as_slice())?;
    Ok(Settled {
        frames: choice.frames,
        twins: choice.twins,
    })
}
