ghost use Rattle.std.specs.Prelude.{◌≡◌, List, IfOk};
ghost use Rattle.finder.specs.declared.found.Discovered.{Discovered as Entry};
ghost use Rattle.audit_report.specs.Listing.{Knows, is_listed};

use finder::Discovered;
use indexmap::IndexSet;
use page_ids::FrameId;
use std::alloc::{AllocError, Global};

// The ids of the frames that are reached, for look-ups.
#[derive(Drop)]
pub struct Reached {
    ids: IndexSet<FrameId>,
}

impl Reached {
    pub fn of(alloc: Global, found: &[Discovered]) -> Result<Reached, AllocError>
        ensures { IfOk result (Knows found.now) }
    {
        let mut ids = IndexSet::with_capacity(alloc, found.len())?;
        for discovered in found {
            ids.insert(discovered.id)?;
        }
        Ok(Reached { ids })
    }

    pub fn contains(&self, id: FrameId) -> bool
        ensures { (found : List Entry) → Knows found self.now → result ≡ is_listed found id }
    {
        self.ids.contains(&id)
    }
}
