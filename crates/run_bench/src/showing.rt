//! The screens of all frames of a file's base as texts.

use crate::edition::read_base;
use anyhow::{Result, bail};
use finder::Survey;
use frame_records::{Base, Groups};
use frame_screens::Painter;
use screens::{Writing, push_text, screen_looks};
use std::alloc::{AllocError, Global};
use std::fs;

// Makes the texts of the frames that a caller in no group can reach, one after another, and says how many frames there are.
fn show_all(alloc: Global, base: &Base) -> Result<usize, AllocError> {
    let groups = Groups::none();
    let painter = Painter::of(alloc, Survey::of(alloc, base, &groups)?)?;
    let count = painter.survey().found().as_slice().len();
    let mut text = Vec::new(alloc);
    for place in 0..count {
        text.clear();
        push_text(
            &mut text,
            &screen_looks(&painter.screen(place)),
            Writing::Plain,
        )?;
    }
    Ok(count)
}

/// Shows all frames of the base of a file. Each has to be reached.
pub fn show(rt: &HostRuntime, path: &str) -> Result<()> {
    let mut file = fs::open(rt, path)?;
    let Some(base) = read_base(rt.alloc(), &mut file) else {
        bail!("the base is refused");
    };
    if show_all(rt.alloc(), &base)? != base.frames().len() {
        bail!("a frame isn't reached");
    }
    Ok(())
}
