//! The edition of a candidate is written.

ghost use Rattle.std.specs.Prelude.{◌≡◌, true, IfOk, IfSome};
ghost use Rattle.editions.specs.Folders.{edition_bytes, IsNewNumber};
ghost use Rattle.edition_checks.specs.Served.{IsUnchanged};
ghost use Rattle.edition_checks.specs.Putting.{IsToPublish, CanFollowIn, LeavesSound, IsPut, ServedMayBeFollowed};

use crate::candidate::Candidate;
use editions::{EditionStore, StoreFault, WholeEdition, next_number, put_edition};
use std::alloc::Global;

/// Why an edition isn't published. After `Folder` or `Memory` it may be in the folder, and may be current.
#[derive(Debug, Clone, Copy, PartialEq, Eq)]
pub enum PutFault {
    /// There is no next number.
    Full,
    /// A call of the folder failed.
    Folder,
    /// A growth was refused.
    Memory,
}

impl From<StoreFault> for PutFault {
    fn from(fault: StoreFault) -> PutFault {
        match fault {
            StoreFault::Broken => PutFault::Folder,
            StoreFault::Memory => PutFault::Memory,
        }
    }
}

// The number of the next edition of a folder.
fn new_number<S: EditionStore>(alloc: Global, store: &mut S) -> Result<u32, PutFault>
    requires { (S.seen store.old).held ≡ true }
    ensures unchanged { IsUnchanged (S.seen store.old) (S.seen store.new) }
    ensures new { IfOk result (λ n. IfSome (S.seen store.old).state (λ f. IsNewNumber f.editions n)) }
{
    let numbers = store.numbers(alloc)?;
    next_number(numbers.as_slice()).ok_or(PutFault::Full)
}

/// Writes the edition of a candidate and makes it current; its number. `follows` is the number of the edition against which it was
/// checked, if there is one.
#[tactic(auto, using(crate::proofs::PutLaws::put_leaves))]
pub fn put_candidate<S: EditionStore>(
    alloc: Global,
    store: &mut S,
    base_text: Vec<u8>,
    policy_text: Vec<u8>,
    candidate: Candidate,
    follows: Option<u32>,
) -> Result<u32, PutFault>
    requires held { (S.seen store.old).held ≡ true }
    requires checked { IsToPublish base_text.items policy_text.items candidate }
    requires follow { CanFollowIn (S.seen store.old) candidate follows }

    // What is published: these texts, the certificate's own text, and the sums.
    ensures put { IfOk result (λ n. IsPut (S.seen store.old) (S.seen store.new) n
        (edition_bytes base_text.items candidate.cert_text.items policy_text.items follows)) }

    // Whatever it answers: a sound folder is left sound, and no edition has changed.
    ensures sound { LeavesSound (S.seen store.old) (S.seen store.new) }
{
    let number = new_number(alloc, store)?;
    let Candidate { cert_text, .. } = candidate;
    let Ok(edition) = WholeEdition::of(alloc, base_text, cert_text, policy_text, follows) else {
        return Err(PutFault::Memory);
    };
    put_edition(alloc, store, number, &edition)?;
    Ok(number)
}

/// The edition that is served may be followed by one that was cleared against it.
pub fn served_may_be_followed()
    ensures { ServedMayBeFollowed }
{}
