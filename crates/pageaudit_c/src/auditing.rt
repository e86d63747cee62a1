ghost use Rattle.std.specs.Prelude.{◌⊎◌};
ghost use Rattle.base_text.specs.Whole.{IsTextBase};
ghost use Rattle.pageaudit_c.specs.Calls.{IsOutOfMemory, asked, IsAskedAnswer, IsCall, buffer};
ghost use Rattle.pageaudit_c.specs.Audits.{IsAuditReported, IsAuditAnswer};

use crate::answer::{Answer, bad_policy, fault_answer, lay_over, out_of_memory};
use crate::policy::policy_of;
use crate::status::CallStatus;
use audit_report::report;
use checker::{Policy, base_of};
use fault_scripts::audit;
use frame_records::Base;
use std::alloc::Global;

// The report of the base of a text.
fn reported(alloc: Global, base: &Base, policy: &Policy, text: &[u8]) -> Answer
    requires { IsTextBase text.now base.now }
    ensures { IsAuditReported text.now policy.now result.status result.text.items ⊎
        IsOutOfMemory result.status result.text.items }
{
    let outcome = match audit(alloc, base, policy) {
        Ok(outcome) => outcome,
        Err(_) => return out_of_memory(alloc),
    };
    match report(alloc, &outcome) {
        Ok(text) => Answer {
            status: CallStatus::of(audit_report::Status::of_outcome(&outcome)),
            text,
        },
        Err(_) => out_of_memory(alloc),
    }
}

// Audits the text for a policy.
fn audited(alloc: Global, text: &[u8], policy: &Policy) -> Answer
    ensures { IsAuditAnswer text.now policy.now result.status result.text.items }
{
    match base_of(alloc, text) {
        Ok(base) => reported(alloc, &base, policy, text),
        Err(fault) => fault_answer(alloc, &fault),
    }
}

// The answer for the policy that is passed.
fn audit_answer(alloc: Global, base: &[u8], ceiling: u32, keyings: u32, groups: &[u8]) -> Answer
    ensures { IsAskedAnswer (IsAuditAnswer base.now)
        (asked ceiling keyings groups.now) result.status result.text.items }
{
    match policy_of(ceiling, keyings, groups) {
        Some(policy) => audited(alloc, base, &policy),
        None => bad_policy(alloc),
    }
}

/// Audits the text of a base: its certificate, or every fault with the keys that show it.
///
/// The policy is passed as to [`crate::pageaudit_check`]. Returns the number of a status. The report goes to the front of `report`,
/// as far as it fits, and its whole length to `full_length`.
#[unsafe(no_mangle)]
pub extern "C" fn pageaudit_audit(
    alloc: Global,
    base: &[u8],
    ceiling: u32,
    keyings: u32,
    groups: &[u8],
    report: &mut [u8],
    full_length: &mut usize,
) -> u32
    ensures { IsCall (IsAuditAnswer base.now) (asked ceiling keyings groups.now)
        (buffer report.old report.new full_length.new) result }
{
    let answer = audit_answer(alloc, base, ceiling, keyings, groups);
    *full_length = lay_over(answer.text.as_slice(), report);
    answer.status.number()
}
