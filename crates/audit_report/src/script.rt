//! The keys that lead to a frame, written into a list that has room for them.

ghost use Rattle.std.specs.Prelude.{◌≡◌, ◌<◌, ◌≤◌, [], length};
ghost use Rattle.std.specs.Vec.{vec_len, vec_capacity};
ghost use Rattle.finder.specs.Finds.{keys_back, script};

use finder::Found;
use page_ids::Key;

// The keys back along the parents, from the last to the first.
fn fill_back(keys: &mut Vec<Key>, found: &Found, start: u32)
    requires empty { keys.old.items ≡ [] }
    requires len { vec_len keys.old ≡ 0 }
    requires room { length found.now ≤ vec_capacity keys.old }
    ensures items { keys.new.items ≡ keys_back found.now (length found.now) start }
    ensures few { vec_len keys.new ≤ length found.now }
    ensures capacity { vec_capacity keys.new ≡ vec_capacity keys.old }
{
    let mut index = start;
    for turn in 0..found.as_slice().len() {
        let Some((parent, key)) = found.parent_of(index) else {
            return;
        };
        keys.push_reserved(key);
        index = parent;
    }
}

// The keys that lead from the entry frame to the frame at an index of the list.
pub fn fill_script(keys: &mut Vec<Key>, found: &Found, index: u32)
    requires room { length found.now ≤ vec_capacity keys.old }
    ensures items { keys.new.items ≡ script found.now index }
    ensures few { length keys.new.items ≤ length found.now }
    ensures capacity { vec_capacity keys.new ≡ vec_capacity keys.old }
{
    keys.clear();
    fill_back(keys, found, index);
    keys.reverse();
}
