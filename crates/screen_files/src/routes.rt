//! Routes that are guessed from the numbers of pages.

ghost use Rattle.std.specs.Prelude.{◌≡◌, ◌++◌, ◌+◌, ◌<◌, ◌||◌, IfOk, OnOk};
ghost use Rattle.page_ids.specs.Ids.{Id, id_eq};
ghost use Rattle.screen_files.specs.Loops as loops;
ghost use Rattle.screen_files.specs.Routes as spec;

use crate::filed::Filed;
use crate::keys::shows_key;
use indexmap::IndexSet;
use page_ids::{FrameId, PageNo, push_page};
use screens::Looks;
use std::alloc::{AllocError, Global};
use std::marker::Model;

/// The frames to which guessed routes may lead. Contracts see their ids.
#[derive(Drop)]
pub struct Known {
    ids: IndexSet<FrameId>,
}

impl Model for Known {
    ghost use Rattle.std.specs.Prelude.{List};
    ghost use Rattle.page_ids.specs.Ids.{Id};

    ghost Value = { List Id };

    ghost view = { λ k. k.ids.keys };
}

impl Known {
    /// Adds a frame. After a fault there are the same as before.
    pub fn add(&mut self, id: FrameId) -> Result<(), AllocError>
        ensures { OnOk result ((other : Id) → spec.knows_frame self.new other
            ≡ (id_eq id other || spec.knows_frame self.old other)) }
    {
        self.ids.insert(id)?;
        Ok(())
    }

    /// Adds the frames of a list.
    pub fn add_frames(&mut self, frames: &[Filed]) -> Result<(), AllocError>
        ensures { OnOk result ((id : Id) → spec.knows_frame self.new id
            ≡ (spec.has_frame frames.now id || spec.knows_frame self.old id)) }
    {
        let mut rest = frames;
        while let Some((filed, more)) = rest.split_first() {
            self.add(filed.frame.id)?;
            rest = more;
        }
        Ok(())
    }

    /// The frames of a list, or none if no routes are guessed.
    pub fn of(alloc: Global, guesses: bool, frames: &[Filed]) -> Result<Known, AllocError>
        ensures { IfOk result (spec.KnowsFrames guesses frames.now) }
    {
        let mut known = Known {
            ids: IndexSet::new(alloc),
        };
        if guesses {
            known.add_frames(frames)?;
        }
        Ok(known)
    }

    fn has(&self, id: FrameId) -> bool
        ensures { result ≡ spec.knows_frame self.now id }
    {
        self.ids.contains(&id)
    }

    // The page to which a digit leads by its number, if its first frame is known.
    fn guess(&self, page: PageNo, digit: u8) -> Option<PageNo>
        requires { digit < 10 }
        ensures { result ≡ loops.guess self.now page digit }
    {
        let to = page_by(page, digit)?;
        if to != page && self.has(FrameId::first(to)) {
            Some(to)
        } else {
            None
        }
    }
}

// The page to which a digit leads, if there can be one.
fn page_by(page: PageNo, digit: u8) -> Option<PageNo>
    requires { digit < 10 }
    ensures { result ≡ loops.page_if_in_range (spec.page_by page digit) }
{
    let page = page.get();
    let number = if digit == 0 {
        page / 10
    } else {
        page.checked_mul(10)?.checked_add(digit as u32)?
    };
    PageNo::new(number)
}

// The page to which a digit of a screen leads by its number.
fn guessed(known: &Known, page: PageNo, looks: &Looks, digit: u8) -> Option<PageNo>
    requires { digit < 10 }
    ensures { result ≡ loops.guessed known.now page looks.now digit }
{
    match known.guess(page, digit) {
        Some(to) if shows_key(looks, digit) => Some(to),
        _ => None,
    }
}

#[tactic(auto, using(std::proofs::Common::append_assoc))]
fn push_pair(out: &mut Vec<u8>, is_first: bool, digit: u8, to: PageNo) -> Result<(), AllocError>
    requires { digit < 10 }
    ensures { OnOk result (out.new.items ≡ out.old.items ++ spec.pair_text is_first digit to) }
{
    out.extend_from_slice(if is_first { b" " } else { b", " })?;
    out.push(b'0' + digit)?;
    out.extend_from_slice(b" = ")?;
    push_page(out, to)
}

/// Writes the guessed routes of a screen of a page, in the order of their keys; whether there are some. A digit that the screen shows as a
/// key has one if the page to which it leads by its number has a known first frame and is another page: `0` leads to the page without the
/// last digit, which is page 0 for a page of one digit, and any other digit to the page with the digit at its end.
pub fn push_guesses(
    out: &mut Vec<u8>,
    known: &Known,
    page: PageNo,
    looks: &Looks,
) -> Result<bool, AllocError>
    ensures { IfOk result (λ some. loops.AreGuessed out.old.items out.new.items known.now page looks.now some) }
{
    let mut is_first = true;
    for digit in 0..10 {
        if let Some(to) = guessed(known, page, looks, digit) {
            push_pair(out, is_first, digit, to)?;
            is_first = false;
        }
    }
    Ok(!is_first)
}
