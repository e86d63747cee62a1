//! The run of `publish`.

ghost use Rattle.std.specs.Prelude.{◌≡◌, true, false, Ok, IfOk, IfSome};
ghost use Rattle.policy_text.specs.Policies.{policy_in};
ghost use Rattle.edition_checks.specs.Putting.{LeavesSound, IsToPublish};
ghost use Rattle.publishing.specs.Publishing.{FollowsServed, IsPublished, IsPublishedFrom, IfPublished};
ghost use Rattle.publishing.specs.Serving.{ServesNow};

use crate::asked::Publish;
use crate::fault::PublishFault;
use crate::following::{MayFollow, judge_following};
use crate::judging::{candidate_fault, folder_policy, lint_base, number_of_same};
use crate::putting::{EditionTexts, put_unless_dry};
use crate::serving::served_edition;
use crate::status::PublishStatus;
use crate::summary::{push_already, push_edition, push_other_groups, push_refusal, summary};
use base_text::MOST_TEXT;
use checker::Policy;
use devices::{Sink, Source, read_whole, write_whole};
use edition_checks::{Candidate, Served, make_candidate};
use editions::EditionStore;
use std::alloc::Global;

const NEW_BEGINNING: &[u8] = b"callers who are inside stay in their edition\n";

const DRY: &[u8] = b"nothing was written\n";

// What is printed between an edition's summary and its verdict.
fn note_of(served: &Option<Served>, follows: Option<u32>, dry_run: bool) -> &'static [u8] {
    if dry_run {
        DRY
    } else if served.is_some() && follows.is_none() {
        NEW_BEGINNING
    } else {
        b"".as_slice()
    }
}

// Prints what was done.
fn say_done(
    said: &mut Vec<u8>,
    status: PublishStatus,
    summary: &[u8],
    note: &[u8],
) -> Result<PublishStatus, PublishFault>
    ensures { IfOk result (λ s. s ≡ status) }
{
    if let PublishStatus::Published(number) | PublishStatus::Passed(number) = status {
        push_edition(said, number, summary, note)?;
    }
    Ok(status)
}

// An edition that was judged is written, and what was done is printed.
fn publish_judged<S: EditionStore>(
    alloc: Global,
    store: &mut S,
    said: &mut Vec<u8>,
    asked: &Publish<'_>,
    texts: EditionTexts,
    candidate: Candidate,
    served: &Option<Served>,
    follows: Option<u32>,
) -> Result<PublishStatus, PublishFault>
    requires held { (S.seen store.old).held ≡ true }
    requires checked { IsToPublish texts.base.items texts.policy.items candidate }
    requires serves { asked.now.dry_run ≡ false → IfSome (S.seen store.old).state (λ f. ServesNow f served.now) }
    requires following { FollowsServed served.now candidate asked.now.new_callers follows }
    ensures published { IfPublished result (IsPublished (S.seen store.old) (S.seen store.new)
        texts.base.items texts.policy.items asked.now.new_callers) }
    ensures sound { LeavesSound (S.seen store.old) (S.seen store.new) }
    ensures dry { asked.now.dry_run ≡ true → (S.seen store.new).state ≡ (S.seen store.old).state }
{
    let summary = summary(alloc, served, &candidate.base)?;
    let note = note_of(served, follows, asked.dry_run);
    let status = put_unless_dry(
        alloc,
        store,
        texts,
        candidate,
        served,
        asked.new_callers,
        follows,
        asked.dry_run,
    )?;
    say_done(said, status, summary.as_slice(), note)
}

// An edition that the check clears: the change to it is judged.
fn publish_candidate<S: EditionStore>(
    alloc: Global,
    store: &mut S,
    said: &mut Vec<u8>,
    asked: &Publish<'_>,
    texts: EditionTexts,
    candidate: Candidate,
    served: &Option<Served>,
) -> Result<PublishStatus, PublishFault>
    requires held { (S.seen store.old).held ≡ true }
    requires checked { IsToPublish texts.base.items texts.policy.items candidate }
    requires serves { asked.now.dry_run ≡ false → IfSome (S.seen store.old).state (λ f. ServesNow f served.now) }
    ensures published { IfPublished result (IsPublished (S.seen store.old) (S.seen store.new)
        texts.base.items texts.policy.items asked.now.new_callers) }
    ensures sound { LeavesSound (S.seen store.old) (S.seen store.new) }
    ensures dry { asked.now.dry_run ≡ true → (S.seen store.new).state ≡ (S.seen store.old).state }
{
    match judge_following(served, &candidate, asked.new_callers) {
        MayFollow::Follows(follows) => publish_judged(
            alloc, store, said, asked, texts, candidate, served, follows,
        ),
        MayFollow::OtherGroups(number) => {
            push_other_groups(said, number)?;
            Ok(PublishStatus::Refused)
        }
        MayFollow::Refused(verdict) => {
            push_refusal(alloc, said, served, &candidate.base, &verdict)?;
            Ok(PublishStatus::Refused)
        }
    }
}

// The edition of texts that the check clears.
fn candidate_of(
    alloc: Global,
    texts: &EditionTexts,
    policy: Policy,
) -> Result<Candidate, PublishFault>
    requires { policy_in texts.now.policy.items ≡ Ok policy }
    ensures { IfOk result (IsToPublish texts.now.base.items texts.now.policy.items) }
{
    match make_candidate(alloc, texts.base.as_slice(), policy) {
        Ok(candidate) => Ok(candidate),
        Err(fault) => Err(candidate_fault(fault)),
    }
}

// A base's text that isn't the one that is served.
fn publish_texts<S: EditionStore>(
    alloc: Global,
    store: &mut S,
    said: &mut Vec<u8>,
    asked: &Publish<'_>,
    texts: EditionTexts,
    policy: Policy,
    served: &Option<Served>,
) -> Result<PublishStatus, PublishFault>
    requires held { (S.seen store.old).held ≡ true }
    requires policy { policy_in texts.policy.items ≡ Ok policy }
    requires serves { asked.now.dry_run ≡ false → IfSome (S.seen store.old).state (λ f. ServesNow f served.now) }
    ensures published { IfPublished result (IsPublished (S.seen store.old) (S.seen store.new)
        texts.base.items texts.policy.items asked.now.new_callers) }
    ensures sound { LeavesSound (S.seen store.old) (S.seen store.new) }
    ensures dry { asked.now.dry_run ≡ true → (S.seen store.new).state ≡ (S.seen store.old).state }
{
    if let Some(counts) = lint_base(alloc, said, asked, texts.base.as_slice(), &policy)? {
        return Ok(PublishStatus::Faulty(counts));
    }
    let candidate = candidate_of(alloc, &texts, policy)?;
    publish_candidate(alloc, store, said, asked, texts, candidate, served)
}

// The texts of a base that is published by the folder's policy.
fn publish_base<S: EditionStore>(
    alloc: Global,
    store: &mut S,
    said: &mut Vec<u8>,
    asked: &Publish<'_>,
    texts: EditionTexts,
    policy: Policy,
) -> Result<PublishStatus, PublishFault>
    requires held { (S.seen store.old).held ≡ true }
    requires policy { policy_in texts.policy.items ≡ Ok policy }
    ensures published { IfPublished result (IsPublished (S.seen store.old) (S.seen store.new)
        texts.base.items texts.policy.items asked.now.new_callers) }
    ensures sound { LeavesSound (S.seen store.old) (S.seen store.new) }
    ensures dry { asked.now.dry_run ≡ true → (S.seen store.new).state ≡ (S.seen store.old).state }
{
    let served = served_edition(alloc, store, asked.dry_run)?;
    if let Some(number) = number_of_same(&served, texts.base.as_slice(), texts.policy.as_slice()) {
        push_already(said, number)?;
        return Ok(PublishStatus::AlreadyServed(number));
    }
    publish_texts(alloc, store, said, asked, texts, policy, &served)
}

// The base of a source, by the folder's policy.
fn publish_from<S: EditionStore, B: Source>(
    alloc: Global,
    store: &mut S,
    base: &mut B,
    said: &mut Vec<u8>,
    asked: &Publish<'_>,
) -> Result<PublishStatus, PublishFault>
    requires held { (S.seen store.old).held ≡ true }
    requires base_open { (B.seen base.old).failed ≡ false }
    ensures published { IfPublished result (IsPublishedFrom (B.seen base.old) (B.seen base.new)
        (S.seen store.old) (S.seen store.new) asked.now.new_callers) }
    ensures sound { LeavesSound (S.seen store.old) (S.seen store.new) }
    ensures dry { asked.now.dry_run ≡ true → (S.seen store.new).state ≡ (S.seen store.old).state }
{
    let (policy_text, policy) = folder_policy(alloc, store, said, asked.policy_path)?;
    let base_text = read_whole(alloc, base, MOST_TEXT + 1)?;
    let texts = EditionTexts {
        base: base_text,
        policy: policy_text,
    };
    publish_base(alloc, store, said, asked, texts, policy)
}

// Writes what there is to print.
fn write_said<O: Sink>(out: &mut O, said: &[u8]) -> Result<(), PublishFault>
    requires { (O.seen out.old).failed ≡ false }
{
    if said.is_empty() {
        return Ok(());
    }
    match write_whole(out, said) {
        Ok(()) => Ok(()),
        Err(fault) => Err(PublishFault::Write(fault.wrote)),
    }
}

/// Publishes a base: it is linted by the folder's policy, certified, checked, and compared with the edition that is served. If all
/// is cleared it becomes the next edition, and current.
///
/// The folder's lock is held by the caller. First the policy is read, and then the base; then what a stop left is put in order
/// ([`PublishStatus::Published`] says nothing of it). The findings, the summary and the verdict, or what callers would lose, are
/// written to `out` at the end, after a fault too: so after `Write`, `Folder` or `Memory` the edition may be current; or after the
/// last two it is in the folder alone, and if it follows one, the next publish makes it current. The summary's words are tested.
pub fn run_publish<S: EditionStore, B: Source, O: Sink>(
    alloc: Global,
    store: &mut S,
    base: &mut B,
    out: &mut O,
    asked: &Publish<'_>,
) -> Result<PublishStatus, PublishFault>
    requires held { (S.seen store.old).held ≡ true }
    requires base_open { (B.seen base.old).failed ≡ false }
    requires out_open { (O.seen out.old).failed ≡ false }

    // If an edition is published: it has the base's text and the folder's policy, a certificate that the check clears, and what it
    // follows; from the edition that was served the change is cleared, unless it is for new callers alone.
    ensures published { IfPublished result (IsPublishedFrom (B.seen base.old) (B.seen base.new)
        (S.seen store.old) (S.seen store.new) asked.now.new_callers) }

    // Whatever it answers: a sound folder is left sound, and no edition has changed.
    ensures sound { LeavesSound (S.seen store.old) (S.seen store.new) }

    // A dry run writes nothing.
    ensures dry { asked.now.dry_run ≡ true → (S.seen store.new).state ≡ (S.seen store.old).state }
{
    let mut said = Vec::new(alloc);
    match publish_from(alloc, store, base, &mut said, asked) {
        Ok(status) => {
            write_said(out, said.as_slice())?;
            Ok(status)
        }
        Err(fault) => {
            let _ = write_said(out, said.as_slice());
            Err(fault)
        }
    }
}
