ghost use Rattle.std.specs.Prelude.{◌≡◌, false, IfSome, IfNone, MatchOption, find, option_map};
ghost use Rattle.std.specs.List.Sorted.{IsSortedByKey, IsStrictlyIncreasing};
ghost use Rattle.page_ids.specs.Ids.{id_cmp};
ghost use Rattle.frame_records.specs.Bases.{IsAscending, has_page, are_too_many, is_body_long, is_next_after_z, IsLeastTwice, IsBuildFault};
ghost use Rattle.frame_records.specs.Loops.{IsUnrefused, AreSorted};

use crate::frame::Frame;
use crate::limits::{MOST_BODY, MOST_LISTED};
use page_ids::{FrameId, PageNo};
use thiserror::Error;

/// Why two lists make no base. The first that applies is answered, in this order.
#[derive(Debug, Clone, Copy, PartialEq, Eq, Error)]
pub enum BuildFault {
    /// B4: over 65,535 frames, or over 65,535 outside pages as listed, double ones too.
    #[error("too many frames or outside pages")]
    TooMany,
    /// B5: a body of over 4,096 bytes; the smallest id of such a frame.
    #[error("a body is too long")]
    BodyTooLong(FrameId),
    /// B3: `next` on a frame `z`; the smallest id of such a frame.
    #[error("next on a frame z")]
    NextAfterZ(FrameId),
    /// B1: the smallest id that two frames have.
    #[error("two frames of one id")]
    Duplicate(FrameId),
    /// B2: the smallest page that is listed as outside and has a frame.
    #[error("an outside page has a frame")]
    OutsideInside(PageNo),
}

pub fn are_too_many(outside: &[PageNo], frames: &[Frame]) -> bool
    ensures { result ≡ are_too_many outside.now frames.now }
{
    frames.len() > MOST_LISTED || outside.len() > MOST_LISTED
}

pub fn is_body_long(frame: &Frame) -> bool
    ensures { result ≡ is_body_long frame.now }
{
    frame.body.as_slice().len() > MOST_BODY
}

pub fn is_next_after_z(frame: &Frame) -> bool
    ensures { result ≡ is_next_after_z frame.now }
{
    frame.next && frame.id.letter.get() == b'z'
}

// The first of the frames whose body is too long.
fn first_long(frames: &[Frame]) -> Option<FrameId>
    ensures { result ≡ option_map (λ f. f.id) (find is_body_long frames.now) }
{
    match frames.iter().find(|frame| is_body_long(frame)) {
        Some(frame) => Some(frame.id),
        None => None,
    }
}

// The first frame `z` that has `next`.
fn first_next_after_z(frames: &[Frame]) -> Option<FrameId>
    ensures { result ≡ option_map (λ f. f.id) (find is_next_after_z frames.now) }
{
    match frames.iter().find(|frame| is_next_after_z(frame)) {
        Some(frame) => Some(frame.id),
        None => None,
    }
}

// The first id that two neighbours share.
fn shared_id(frames: &[Frame]) -> Option<FrameId>
    requires { IsSortedByKey (λ f. f.id) id_cmp frames.now }
    ensures none { IfNone result (IsAscending frames.now) }
    ensures least { IfSome result (IsLeastTwice frames.now) }
{
    for i in 1..frames.len() {
        if frames[i - 1].id == frames[i].id {
            return Some(frames[i].id);
        }
    }
    None
}

fn page_has_frame(frames: &[Frame], page: PageNo) -> bool
    requires { IsAscending frames.now }
    ensures { result ≡ has_page frames.now page }
{
    frames
        .binary_search_by_key(&page, |frame| frame.id.page)
        .is_ok()
}

// The first outside page that has a frame.
fn outside_inside(outside: &[PageNo], frames: &[Frame]) -> Option<PageNo>
    requires { IsAscending frames.now }
    ensures { result ≡ find (has_page frames.now) outside.now }
{
    outside
        .iter()
        .copied()
        .find(|page| page_has_frame(frames, *page))
}

// Sorts both lists in place, and keeps each page once.
pub fn sort(outside: &mut Vec<PageNo>, frames: &mut Vec<Frame>)
    requires { are_too_many outside.old.items frames.old.items ≡ false }
    ensures { AreSorted outside.old.items outside.new.items frames.old.items frames.new.items }
{
    outside.sort_unstable();
    outside.dedup();
    frames.sort_unstable_by_key(|frame| frame.id);
}

// The first refusal of lists that are sorted and few enough.
pub fn first_fault(outside: &[PageNo], frames: &[Frame]) -> Option<BuildFault>
    requires few { are_too_many outside.now frames.now ≡ false }
    requires frames { IsSortedByKey (λ f. f.id) id_cmp frames.now }
    requires pages { IsStrictlyIncreasing outside.now }
    ensures { MatchOption result (IsUnrefused outside.now frames.now) (IsBuildFault outside.now frames.now) }
{
    if let Some(id) = first_long(frames) {
        return Some(BuildFault::BodyTooLong(id));
    }
    if let Some(id) = first_next_after_z(frames) {
        return Some(BuildFault::NextAfterZ(id));
    }
    if let Some(id) = shared_id(frames) {
        return Some(BuildFault::Duplicate(id));
    }
    match outside_inside(outside, frames) {
        Some(page) => Some(BuildFault::OutsideInside(page)),
        None => None,
    }
}
