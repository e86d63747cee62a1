//! The numbers of a folder's editions.

ghost use Rattle.std.specs.Prelude.{◌≡◌, true, IfOk, IfSome};
ghost use Rattle.edition_checks.specs.Served.{IsUnchanged};
ghost use Rattle.edition_lists.specs.Judged.{AreNumbersOf};

use crate::fault::FolderFault;
use editions::EditionStore;
use std::alloc::Global;

/// The numbers of the editions, ascending.
pub fn sorted_numbers<S: EditionStore>(
    alloc: Global,
    store: &mut S,
) -> Result<Vec<u32>, FolderFault>
    requires { (S.seen store.old).held ≡ true }
    ensures unchanged { IsUnchanged (S.seen store.old) (S.seen store.new) }
    ensures all { IfOk result (λ numbers. IfSome (S.seen store.old).state (λ f. AreNumbersOf f numbers.items)) }
{
    let mut numbers = store.numbers(alloc)?;
    numbers.sort_unstable();
    Ok(numbers)
}
