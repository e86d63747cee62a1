ghost use Rattle.std.specs.Prelude.{◌≡◌, ◌<◌, IfOk, length, slice_get};
ghost use Rattle.finder.specs.Finds.{parent_of, keys_back, script};

use crate::found::{Discovered, Found};
use page_ids::{Key, KeyList};
use std::alloc::{AllocError, Global};

impl Found {
    /// The index of the frame from which the frame at an index was discovered, and the key that led from it; `None` for the
    /// entry frame, and after the end of the list.
    pub fn parent_of(&self, at: u32) -> Option<(u32, Key)>
        ensures { result ≡ parent_of (slice_get self.now at) }
    {
        let frame = self.as_slice().get(at as usize)?;
        let parent = frame.parent?;
        let key = frame.key?;
        Some((parent, key))
    }
}

// The keys back along the parents, from the last to the first.
fn keys_back(alloc: Global, found: &Found, start: u32) -> Result<Vec<Key>, AllocError>
    ensures { IfOk result (λ keys. keys.items ≡ keys_back found.now (length found.now) start) }
{
    let mut keys = Vec::new(alloc);
    let mut index = start;
    for turn in 0..found.as_slice().len() {
        let Some((parent, key)) = found.parent_of(index) else {
            return Ok(keys);
        };
        keys.push(key)?;
        index = parent;
    }
    Ok(keys)
}

/// The keys that lead from the entry frame to the frame at an index of the list, along the parents; none for the entry
/// frame itself. They need not be the shortest.
pub fn script_to(alloc: Global, found: &Found, index: u32) -> Result<KeyList, AllocError>
    requires { index < length found.now }
    ensures { IfOk result (λ keys. keys ≡ script found.now index) }
{
    let mut keys = keys_back(alloc, found, index)?;
    keys.reverse();
    Ok(KeyList::of(keys))
}
