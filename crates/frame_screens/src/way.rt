ghost use Rattle.std.specs.Prelude.{◌≡◌, ◌<◌, IfOk, IfSome, Some, length, slice_get};
ghost use Rattle.finder.specs.Finds.{FindsReached, script};
ghost use Rattle.frame_screens.specs.Frames.{IsWay, frames_sent, place_of};

use crate::list::FrameList;
use finder::{Discovered, Found, Survey};
use frame_records::{Base, Groups};
use page_ids::FrameId;
use std::alloc::{AllocError, Global};

// Where a frame is in the list of those that are reached.
fn place_of(found: &Found, id: FrameId) -> Option<usize>
    ensures value { result ≡ place_of found.now id }
    ensures within { IfSome result (λ place. place < length found.now) }
{
    found.as_slice().iter().position(|frame| frame.id == id)
}

// A frame in the list of those that are reached.
pub fn reached_at<'a>(survey: &'a Survey, place: usize) -> &'a Discovered
    requires { place < length survey.now.found }
    ensures { slice_get survey.now.found place ≡ Some result.now }
{
    &survey.found().as_slice()[place]
}

/// The frames that are sent on the keys that lead to the frame at a place of the list of those that are reached. It is the
/// last of them, and each other one is the parent of the next.
pub fn way_at(alloc: Global, survey: &Survey, place: usize) -> Result<FrameList, AllocError>
    requires finds { FindsReached survey.now.groups survey.now.base survey.now.found }
    requires within { place < length survey.now.found }
    ensures { IfOk result (λ list.
        list ≡ frames_sent survey.now.groups survey.now.base (script survey.now.found place)) }
{
    let mut at = reached_at(survey, place);
    let mut back = FrameList::of(alloc, at.id)?;
    while let Some(parent) = at.parent {
        at = reached_at(survey, parent as usize);
        back.push(at.id)?;
    }
    back.reverse();
    Ok(back)
}

/// The frames that are sent for the screen of a frame: those on the keys that lead a caller of these groups there from the
/// entry frame, as `list` prints them. A frame that no key reaches, as one that is closed to the caller, is sent alone.
///
/// The frame is the last of them. It need not be in the base.
pub fn way_to(
    alloc: Global,
    base: &Base,
    groups: &Groups,
    id: FrameId,
) -> Result<FrameList, AllocError>
    ensures { IfOk result (IsWay groups.now base.now id) }
{
    let survey = Survey::of(alloc, base, groups)?;
    match place_of(survey.found(), id) {
        Some(place) => way_at(alloc, &survey, place),
        None => FrameList::of(alloc, id),
    }
}
