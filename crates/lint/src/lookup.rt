ghost use Rattle.std.specs.Prelude.{◌≡◌, List, IfOk};
ghost use Rattle.page_ids.specs.Ids.{Id};
ghost use Rattle.lint.specs.Lookups.{KnowsValues, value_of};

use indexmap::IndexMap;
use page_ids::FrameId;
use std::alloc::{AllocError, Global};

// Values of ids, for look-ups.
#[derive(Drop)]
pub struct Lookup<V> {
    map: IndexMap<FrameId, V>,
}

impl<V: Copy> Lookup<V> {
    // The value that each id has in a list. If an id is listed twice, the last value counts.
    pub fn of(alloc: Global, pairs: &[(FrameId, V)]) -> Result<Lookup<V>, AllocError>
        ensures { IfOk result (KnowsValues pairs.now) }
    {
        let mut map = IndexMap::with_capacity(alloc, pairs.len())?;
        for (id, value) in pairs {
            map.insert(*id, *value)?;
        }
        Ok(Lookup { map })
    }

    // The value of an id.
    pub fn get(&self, id: FrameId) -> Option<V>
        ensures { (pairs : List (Id × V)) → KnowsValues pairs self.now → result ≡ value_of pairs id }
    {
        self.map.get(&id).copied()
    }
}
