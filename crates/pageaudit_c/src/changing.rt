ghost use Rattle.std.specs.Prelude.{◌≡◌, IfOk, IfErr};
ghost use Rattle.checker.specs.Headline.{IsInputFault};
ghost use Rattle.audit_report.specs.Lines.{change_text};
ghost use Rattle.audit_report.specs.Statuses.{status_of_change};
ghost use Rattle.pageaudit_c.specs.declared.status.CallStatus.TheVariants.{Clear};
ghost use Rattle.pageaudit_c.specs.Status.{of_judged};
ghost use Rattle.pageaudit_c.specs.Calls.{IsAnswer, asked, HoldsForPolicy, IsAskedAnswer, IsCall, buffer};
ghost use Rattle.pageaudit_c.specs.Changes.{edition_texts, IsEditionOfTexts, IsVerdictAnswer, IsChangeAnswer, IsSafeChangeOf};

use crate::answer::{Answer, bad_policy, fault_answer, lay_over, new_fault_answer, out_of_memory};
use crate::policy::policy_of;
use crate::status::CallStatus;
use audit_report::change_text;
use cert_table::Certificate;
use checker::{ChangeVerdict, InputFault, Policy, base_of, cert_of, check_change};
use frame_records::Base;
use std::alloc::Global;

// The texts of an edition.
#[derive(Clone, Copy)]
struct Texts<'a> {
    base: &'a [u8],
    cert: &'a [u8],
}

// An edition that was read.
#[derive(Drop)]
struct Edition {
    base: Base,
    cert: Certificate,
}

fn edition_of(alloc: Global, texts: Texts<'_>) -> Result<Edition, InputFault>
    ensures read { IfOk result (λ e.
        IsEditionOfTexts (edition_texts texts.entry.base.now texts.entry.cert.now) e.base e.cert) }
    ensures fault { IfErr result (IsInputFault texts.entry.base.now texts.entry.cert.now) }
{
    let base = base_of(alloc, texts.base)?;
    let cert = cert_of(alloc, texts.cert)?;
    Ok(Edition { base, cert })
}

// The line of a verdict.
fn verdict_answer(alloc: Global, verdict: &ChangeVerdict) -> Answer
    ensures answer { IsAnswer (of_judged (status_of_change verdict.now))
        (change_text verdict.now) result.status result.text.items }
    ensures clear { result.status ≡ Clear → verdict.now ≡ ChangeVerdict.Cleared }
{
    match change_text(alloc, verdict) {
        Ok(text) => Answer {
            status: CallStatus::of(audit_report::Status::of_change(verdict)),
            text,
        },
        Err(_) => out_of_memory(alloc),
    }
}

// Checks the change between two editions.
fn judged(
    alloc: Global,
    old: &Edition,
    new: &Edition,
    policy: &Policy,
    old_texts: Texts<'_>,
    new_texts: Texts<'_>,
) -> Answer
    requires of_old { IsEditionOfTexts (edition_texts old_texts.base.now old_texts.cert.now) old.now.base old.now.cert }
    requires of_new { IsEditionOfTexts (edition_texts new_texts.base.now new_texts.cert.now) new.now.base new.now.cert }
    ensures answer { IsVerdictAnswer (edition_texts old_texts.entry.base.now old_texts.entry.cert.now)
        (edition_texts new_texts.entry.base.now new_texts.entry.cert.now) policy.now result.status result.text.items }
    ensures safe { result.status ≡ Clear
        → IsSafeChangeOf (edition_texts old_texts.entry.base.now old_texts.entry.cert.now)
        (edition_texts new_texts.entry.base.now new_texts.entry.cert.now) policy.now }
{
    let verdict = check_change(&old.base, &old.cert, &new.base, &new.cert, policy);
    verdict_answer(alloc, &verdict)
}

// Checks the change between two editions' texts for a policy.
fn changed(alloc: Global, old_texts: Texts<'_>, new_texts: Texts<'_>, policy: &Policy) -> Answer
    ensures answer { IsChangeAnswer (edition_texts old_texts.entry.base.now old_texts.entry.cert.now)
        (edition_texts new_texts.entry.base.now new_texts.entry.cert.now) policy.now result.status result.text.items }
    ensures safe { result.status ≡ Clear
        → IsSafeChangeOf (edition_texts old_texts.entry.base.now old_texts.entry.cert.now)
        (edition_texts new_texts.entry.base.now new_texts.entry.cert.now) policy.now }
{
    let old = match edition_of(alloc, old_texts) {
        Ok(edition) => edition,
        Err(fault) => return fault_answer(alloc, &fault),
    };
    let new = match edition_of(alloc, new_texts) {
        Ok(edition) => edition,
        Err(fault) => return new_fault_answer(alloc, &fault),
    };
    judged(alloc, &old, &new, policy, old_texts, new_texts)
}

// The answer for the policy that is passed.
fn change_answer(
    alloc: Global,
    old_texts: Texts<'_>,
    new_texts: Texts<'_>,
    ceiling: u32,
    keyings: u32,
    groups: &[u8],
) -> Answer
    ensures answer { IsAskedAnswer (IsChangeAnswer (edition_texts old_texts.entry.base.now old_texts.entry.cert.now)
        (edition_texts new_texts.entry.base.now new_texts.entry.cert.now))
        (asked ceiling keyings groups.now) result.status result.text.items }
    ensures safe { result.status ≡ Clear
        → HoldsForPolicy (IsSafeChangeOf (edition_texts old_texts.entry.base.now old_texts.entry.cert.now)
        (edition_texts new_texts.entry.base.now new_texts.entry.cert.now)) (asked ceiling keyings groups.now) }
{
    match policy_of(ceiling, keyings, groups) {
        Some(policy) => changed(alloc, old_texts, new_texts, &policy),
        None => bad_policy(alloc),
    }
}

/// Checks whether a new edition may take an old one's place while callers are inside.
///
/// The policy is passed as to [`crate::pageaudit_check`]. Returns the number of a status. The line that the program prints goes to
/// the front of `line`, as far as it fits, and its whole length to `full_length`.
#[unsafe(no_mangle)]
pub extern "C" fn pageaudit_change(
    alloc: Global,
    old_base: &[u8],
    old_cert: &[u8],
    new_base: &[u8],
    new_cert: &[u8],
    ceiling: u32,
    keyings: u32,
    groups: &[u8],
    line: &mut [u8],
    full_length: &mut usize,
) -> u32
    ensures call { IsCall (IsChangeAnswer (edition_texts old_base.now old_cert.now)
        (edition_texts new_base.now new_cert.now))
        (asked ceiling keyings groups.now) (buffer line.old line.new full_length.new) result }

    // If the status is Clear, callers stay safe over the change.
    ensures safe { result ≡ 0
        → HoldsForPolicy (IsSafeChangeOf (edition_texts old_base.now old_cert.now)
        (edition_texts new_base.now new_cert.now))
        (asked ceiling keyings groups.now) }
{
    let old = Texts {
        base: old_base,
        cert: old_cert,
    };
    let new = Texts {
        base: new_base,
        cert: new_cert,
    };
    let answer = change_answer(alloc, old, new, ceiling, keyings, groups);
    *full_length = lay_over(answer.text.as_slice(), line);
    answer.status.number()
}
