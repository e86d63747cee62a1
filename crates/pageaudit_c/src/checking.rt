ghost use Rattle.std.specs.Prelude.{◌≡◌};
ghost use Rattle.checker.specs.Headline.{Headline};
ghost use Rattle.audit_report.specs.Lines.{verdict_text};
ghost use Rattle.audit_report.specs.Statuses.{status_of_verdict};
ghost use Rattle.pageaudit_c.specs.declared.status.CallStatus.TheVariants.{Clear};
ghost use Rattle.pageaudit_c.specs.Status.{of_judged};
ghost use Rattle.pageaudit_c.specs.Calls.{IsAnswer, asked, HoldsForPolicy, IsAskedAnswer, IsCall, buffer};
ghost use Rattle.pageaudit_c.specs.Checks.{IsResultAnswer, IsCheckAnswer};

use crate::answer::{Answer, bad_policy, fault_answer, lay_over, out_of_memory};
use crate::policy::policy_of;
use crate::status::CallStatus;
use audit_report::verdict_text;
use checker::{InputFault, Policy, Verdict, check_bytes};
use std::alloc::Global;

// The line of a verdict.
fn verdict_answer(alloc: Global, verdict: &Verdict) -> Answer
    ensures { IsAnswer (of_judged (status_of_verdict verdict.now))
        (verdict_text verdict.now) result.status result.text.items }
{
    match verdict_text(alloc, verdict) {
        Ok(text) => Answer {
            status: CallStatus::of(audit_report::Status::of_verdict(verdict)),
            text,
        },
        Err(_) => out_of_memory(alloc),
    }
}

fn result_answer(alloc: Global, result_of: &Result<Verdict, InputFault>) -> Answer
    ensures { IsResultAnswer result_of.now result.status result.text.items }
{
    match result_of {
        Ok(verdict) => verdict_answer(alloc, verdict),
        Err(fault) => fault_answer(alloc, fault),
    }
}

// Checks the texts for a policy.
fn checked(alloc: Global, base: &[u8], cert: &[u8], policy: &Policy) -> Answer
    ensures answer { IsCheckAnswer base.now cert.now policy.now result.status result.text.items }
    ensures headline { result.status ≡ Clear → Headline base.now cert.now policy.now }
{
    result_answer(alloc, &check_bytes(alloc, base, cert, policy))
}

// The answer for the policy that is passed.
fn check_answer(
    alloc: Global,
    base: &[u8],
    cert: &[u8],
    ceiling: u32,
    keyings: u32,
    groups: &[u8],
) -> Answer
    ensures answer { IsAskedAnswer (IsCheckAnswer base.now cert.now)
        (asked ceiling keyings groups.now) result.status result.text.items }
    ensures headline { result.status ≡ Clear
        → HoldsForPolicy (Headline base.now cert.now) (asked ceiling keyings groups.now) }
{
    match policy_of(ceiling, keyings, groups) {
        Some(policy) => checked(alloc, base, cert, &policy),
        None => bad_policy(alloc),
    }
}

/// Checks the text of a certificate against the text of a base, for a policy of at most `ceiling` pence a frame and at most
/// `keyings` keys back to the entry page.
///
/// `groups` lists the caller's closed user groups, as `7,9`; if it is empty there are none. Returns the number of a status. The
/// line that the program prints goes to the front of `line`, as far as it fits, and its whole length to `full_length`.
#[unsafe(no_mangle)]
pub extern "C" fn pageaudit_check(
    alloc: Global,
    base: &[u8],
    cert: &[u8],
    ceiling: u32,
    keyings: u32,
    groups: &[u8],
    line: &mut [u8],
    full_length: &mut usize,
) -> u32
    ensures call { IsCall (IsCheckAnswer base.now cert.now) (asked ceiling keyings groups.now)
        (buffer line.old line.new full_length.new) result }

    // If the status is Clear, the headline holds of the two texts.
    ensures headline { result ≡ 0 → HoldsForPolicy (Headline base.now cert.now) (asked ceiling keyings groups.now) }
{
    let answer = check_answer(alloc, base, cert, ceiling, keyings, groups);
    *full_length = lay_over(answer.text.as_slice(), line);
    answer.status.number()
}
