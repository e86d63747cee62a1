//! The steps of a publish.

ghost use Rattle.std.specs.Prelude.{◌≡◌, true};
ghost use Rattle.editions.specs.Moments.{AreTaken, StaysSound, publish_steps};

use crate::store::{EditionStore, StoreFault};
use crate::whole_edition::WholeEdition;
use std::alloc::Global;

/// Writes an edition, and then makes it current. If that fails, the edition may be there, and may be current.
pub fn put_edition<S: EditionStore>(
    alloc: Global,
    store: &mut S,
    number: u32,
    edition: &WholeEdition,
) -> Result<(), StoreFault>
    requires { (S.seen store.old).held ≡ true }
    ensures taken { AreTaken (publish_steps number edition.now) (S.seen store.old) (S.seen store.new) result }

    // Whatever it answers: if the folder was sound and the edition is, the folder is sound, and no edition has changed.
    ensures sound { StaysSound (publish_steps number edition.now) (S.seen store.old) (S.seen store.new) }
{
    match store.write_edition(alloc, number, edition) {
        Ok(()) => store.set_current(alloc, number),
        Err(fault) => Err(fault),
    }
}
