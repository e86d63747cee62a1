ghost use Rattle.std.specs.Prelude.{IfOk};
ghost use Rattle.finder.specs.Parts.{IsViewPart, IsWindow};

use crate::direction::Direction;
use crate::part::Part;
use crate::window::within;
use frame_records::{Base, Groups};
use page_ids::{FrameId, PageNo};
use std::alloc::{AllocError, Global};

/// A part of a base, named by a page and a number of keys. Without a number of keys, any number will do.
#[derive(Debug, Clone, Copy, PartialEq, Eq)]
pub enum View {
    /// All frames.
    Whole,
    /// The frames that at most this many keys lead to from a page's frame `a`.
    From(PageNo, Option<u16>),
    /// The frames from which at most this many keys lead to a page's frame `a`.
    To(PageNo, Option<u16>),
}

// The frames near a page's frame `a`; `None` if the base lacks that frame.
fn near_page(
    alloc: Global,
    base: &Base,
    groups: &Groups,
    direction: Direction,
    page: PageNo,
    most: Option<u16>,
) -> Result<Option<Part>, AllocError>
    ensures { IfOk result (IsWindow groups.now base.now direction page most) }
{
    match within(alloc, base, groups, direction, FrameId::first(page), most)? {
        Some(ids) => Ok(Some(Part::of(ids))),
        None => Ok(None),
    }
}

/// The part of a view; `None` if the base lacks the frame `a` of its page.
pub fn part_of(
    alloc: Global,
    base: &Base,
    groups: &Groups,
    view: &View,
) -> Result<Option<Part>, AllocError>
    ensures { IfOk result (IsViewPart groups.now base.now view.now) }
{
    match view {
        View::Whole => Ok(Some(Part::whole())),
        View::From(page, most) => { near_page(alloc, base, groups, Direction::From, *page, *most) }
        View::To(page, most) => near_page(alloc, base, groups, Direction::To, *page, *most),
    }
}
