//! Where each frame is in the list of those that are reached.

ghost use Rattle.std.specs.Prelude.{◌≡◌, IfOk};
ghost use Rattle.finder.specs.Finds.{FindsReached};
ghost use Rattle.page_ids.specs.Ids.{Id};
ghost use Rattle.frame_screens.specs.Frames.{place_of};
ghost use Rattle.frame_screens.specs.Gallery.{place_held};

use finder::Survey;
use indexmap::IndexMap;
use page_ids::FrameId;
use std::alloc::{AllocError, Global};

// The places of the frames that are reached, by their ids.
#[derive(Drop)]
pub struct FramePlaces {
    map: IndexMap<FrameId, usize>,
}

impl FramePlaces {
    // The places of the frames that a survey found.
    pub fn of(alloc: Global, survey: &Survey) -> Result<FramePlaces, AllocError>
        requires { FindsReached survey.now.groups survey.now.base survey.now.found }
        ensures { IfOk result (λ places. (id : Id) → place_held places id ≡ place_of survey.now.found id) }
    {
        let found = survey.found().as_slice();
        let mut map = IndexMap::with_capacity(alloc, found.len())?;
        for (place, discovered) in found.iter().enumerate() {
            map.insert(discovered.id, place)?;
        }
        Ok(FramePlaces { map })
    }

    // The place of a frame; `None` if no key reaches it.
    pub fn place(&self, id: FrameId) -> Option<usize>
        ensures { result ≡ place_held self.now id }
    {
        self.map.get(&id).copied()
    }
}
