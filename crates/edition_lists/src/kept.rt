//! An edition is read from its folder.

ghost use Rattle.std.specs.Prelude.{◌≡◌, true, IfOk, IfSome};
ghost use Rattle.edition_checks.specs.Served.{IsUnchanged};
ghost use Rattle.edition_lists.specs.Kept.{IsKeptEdition};

use edition_checks::{Served, ServedFault, read_follows, read_served, read_text};
use editions::{EditionFile, EditionFolder};
use std::alloc::Global;

/// An edition of a folder, with what it follows and the text of its sums.
#[derive(Drop)]
pub struct KeptEdition {
    pub served: Served,
    /// The number of the edition against which it was cleared; none of a new beginning.
    pub follows: Option<u32>,
    pub sums: Vec<u8>,
}

/// Reads an edition of a folder, of which the lock is held: first the base, the certificate and the policy, then
/// `follows` and SHA256SUMS, whose sums aren't looked at.
pub fn read_kept<F: EditionFolder>(
    alloc: Global,
    folder: &mut F,
    number: u32,
) -> Result<KeptEdition, ServedFault>
    requires { (F.seen folder.old).held ≡ true }
    ensures unchanged { IsUnchanged (F.seen folder.old) (F.seen folder.new) }
    ensures kept { IfOk result (λ e. IfSome (F.seen folder.old).state (λ f. IsKeptEdition f e)) }
    ensures number { IfOk result (λ e. e.served.number ≡ number) }
{
    let served = read_served(alloc, folder, number)?;
    let follows = read_follows(alloc, folder, number)?;
    let sums = read_text(alloc, folder, number, EditionFile::Sums)?;
    Ok(KeptEdition {
        served,
        follows,
        sums,
    })
}
