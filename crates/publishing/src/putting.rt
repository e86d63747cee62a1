//! An edition that was judged is written.

ghost use Rattle.std.specs.Prelude.{◌≡◌, true, false, IfOk, IfSome};
ghost use Rattle.editions.specs.Folders.{edition_bytes};
ghost use Rattle.edition_checks.specs.Served.{IsUnchanged};
ghost use Rattle.edition_checks.specs.Putting.{IsToPublish, LeavesSound, IsPut};
ghost use Rattle.publishing.specs.Publishing.{FollowsServed, IfPublished};
ghost use Rattle.publishing.specs.Serving.{ServesNow};

use crate::fault::PublishFault;
use crate::status::PublishStatus;
use edition_checks::{Candidate, Served, put_candidate};
use editions::{EditionStore, next_number};
use std::alloc::Global;

/// The texts of an edition.
#[derive(Drop)]
pub struct EditionTexts {
    pub base: Vec<u8>,
    pub policy: Vec<u8>,
}

// Writes an edition and makes it current; its number.
fn put<S: EditionStore>(
    alloc: Global,
    store: &mut S,
    texts: EditionTexts,
    candidate: Candidate,
    served: &Option<Served>,
    new_callers: bool,
    follows: Option<u32>,
) -> Result<u32, PublishFault>
    requires held { (S.seen store.old).held ≡ true }
    requires checked { IsToPublish texts.base.items texts.policy.items candidate }
    requires serves { IfSome (S.seen store.old).state (λ f. ServesNow f served.now) }
    requires following { FollowsServed served.now candidate new_callers follows }
    ensures put { IfOk result (λ n. IsPut (S.seen store.old) (S.seen store.new) n
        (edition_bytes texts.base.items candidate.cert_text.items texts.policy.items follows)) }
    ensures sound { LeavesSound (S.seen store.old) (S.seen store.new) }
{
    let EditionTexts { base, policy } = texts;
    Ok(put_candidate(alloc, store, base, policy, candidate, follows)?)
}

// The number of the next edition.
fn number_after<S: EditionStore>(alloc: Global, store: &mut S) -> Result<u32, PublishFault>
    requires { (S.seen store.old).held ≡ true }
    ensures { IsUnchanged (S.seen store.old) (S.seen store.new) }
{
    let numbers = store.numbers(alloc)?;
    next_number(numbers.as_slice()).ok_or(PublishFault::Full)
}

/// Writes an edition and makes it current, unless nothing may be written.
pub fn put_unless_dry<S: EditionStore>(
    alloc: Global,
    store: &mut S,
    texts: EditionTexts,
    candidate: Candidate,
    served: &Option<Served>,
    new_callers: bool,
    follows: Option<u32>,
    dry_run: bool,
) -> Result<PublishStatus, PublishFault>
    requires held { (S.seen store.old).held ≡ true }
    requires checked { IsToPublish texts.base.items texts.policy.items candidate }
    requires serves { dry_run ≡ false → IfSome (S.seen store.old).state (λ f. ServesNow f served.now) }
    requires following { FollowsServed served.now candidate new_callers follows }
    ensures put { IfPublished result (λ n. IsPut (S.seen store.old) (S.seen store.new) n
        (edition_bytes texts.base.items candidate.cert_text.items texts.policy.items follows)) }
    ensures written { IfPublished result (λ n. dry_run ≡ false) }
    ensures sound { LeavesSound (S.seen store.old) (S.seen store.new) }
    ensures dry { dry_run ≡ true → (S.seen store.new).state ≡ (S.seen store.old).state }
{
    if dry_run {
        let number = number_after(alloc, store)?;
        return Ok(PublishStatus::Passed(number));
    }
    let number = put(alloc, store, texts, candidate, served, new_callers, follows)?;
    Ok(PublishStatus::Published(number))
}
