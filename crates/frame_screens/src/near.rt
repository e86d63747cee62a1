//! The frame that was probably meant.

ghost use Rattle.std.specs.Prelude.{◌≡◌, IfOk};
ghost use Rattle.page_ids.specs.Ids.{frame_text};
ghost use Rattle.near_words.specs.Near.{nearest, IsNearest};
ghost use Rattle.frame_screens.specs.Frames.{ids_of};

use frame_records::Base;
use near_words::Search;
use page_ids::FrameId;
use std::alloc::{AllocError, Global};

/// The frame of the base whose id is nearest to one that the base lacks; of several the first.
///
/// It is at most two steps away, and fewer than it has characters. A step puts in, takes out or changes a character, or
/// swaps two that are side by side.
pub fn nearest(alloc: Global, base: &Base, id: FrameId) -> Result<Option<FrameId>, AllocError>
    ensures value { IfOk result (λ near. near ≡ nearest frame_text (frame_text id) (ids_of base.now)) }
    // No frame of the base is nearer, and none before it is as near.
    ensures meaning { IfOk result (IsNearest frame_text (frame_text id) (ids_of base.now)) }
{
    let text = id.text();
    let mut search = Search::of(text.as_str());
    let mut found = None;
    for frame in base.frames() {
        if search.offer(alloc, frame.id.text().as_str())? {
            found = Some(frame.id);
        }
    }
    Ok(found)
}
