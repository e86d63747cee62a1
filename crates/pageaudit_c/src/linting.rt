ghost use Rattle.std.specs.Prelude.{◌≡◌};
ghost use Rattle.finding_forms.specs.declared.format.Format.TheVariants.{Line, Json};
ghost use Rattle.pageaudit_c.specs.Calls.{asked, IsAskedAnswer, IsCall, buffer};
ghost use Rattle.pageaudit_c.specs.Lints.{status_of_findings, IsLintAnswer};

use crate::answer::{Answer, bad_policy, lay_over, out_of_memory};
use crate::policy::policy_of;
use crate::status::CallStatus;
use checker::Policy;
use finding_forms::{Format, findings_text};
use lint::{Counts, Finding, lint};
use std::alloc::Global;

// Faulty if and only if there is an error.
fn status_of_findings(findings: &[Finding]) -> CallStatus
    ensures { result ≡ status_of_findings findings.now }
{
    if Counts::of(findings).errors == 0 {
        CallStatus::Clear
    } else {
        CallStatus::Faulty
    }
}

// Finds what is wrong with the text of a file for a policy.
fn linted(alloc: Global, format: Format, name: &[u8], text: &[u8], policy: &Policy) -> Answer
    ensures { IsLintAnswer format name.now text.now policy.now result.status result.text.items }
{
    let findings = match lint(alloc, text, policy) {
        Ok(findings) => findings,
        Err(_) => return out_of_memory(alloc),
    };
    match findings_text(alloc, format, name, text, findings.as_slice()) {
        Ok(lines) => Answer {
            status: status_of_findings(findings.as_slice()),
            text: lines,
        },
        Err(_) => out_of_memory(alloc),
    }
}

// The answer for the policy that is passed.
fn lint_answer(
    alloc: Global,
    format: Format,
    name: &[u8],
    base: &[u8],
    ceiling: u32,
    keyings: u32,
    groups: &[u8],
) -> Answer
    ensures { IsAskedAnswer (IsLintAnswer format name.now base.now)
        (asked ceiling keyings groups.now) result.status result.text.items }
{
    match policy_of(ceiling, keyings, groups) {
        Some(policy) => linted(alloc, format, name, base, &policy),
        None => bad_policy(alloc),
    }
}

/// Finds every fault and warning of a base's text, as `pageaudit lint` does: a line for each, which begins with the name.
///
/// The policy is passed as to [`crate::pageaudit_check`]. Returns the number of a status; a text at fault is `Faulty`. The lines go
/// to the front of `lines`, as far as they fit, and their whole length to `full_length`.
#[unsafe(no_mangle)]
pub extern "C" fn pageaudit_lint(
    alloc: Global,
    name: &[u8],
    base: &[u8],
    ceiling: u32,
    keyings: u32,
    groups: &[u8],
    lines: &mut [u8],
    full_length: &mut usize,
) -> u32
    ensures { IsCall (IsLintAnswer Line name.now base.now) (asked ceiling keyings groups.now)
        (buffer lines.old lines.new full_length.new) result }
{
    let answer = lint_answer(alloc, Format::Line, name, base, ceiling, keyings, groups);
    *full_length = lay_over(answer.text.as_slice(), lines);
    answer.status.number()
}

/// Finds what [`pageaudit_lint`] finds: an object of JSON for each finding, on a line of its own.
///
/// All else is as there; the name is the object's `file`. [`Format::Json`] says what else it has.
#[unsafe(no_mangle)]
pub extern "C" fn pageaudit_lint_json(
    alloc: Global,
    name: &[u8],
    base: &[u8],
    ceiling: u32,
    keyings: u32,
    groups: &[u8],
    lines: &mut [u8],
    full_length: &mut usize,
) -> u32
    ensures { IsCall (IsLintAnswer Json name.now base.now) (asked ceiling keyings groups.now)
        (buffer lines.old lines.new full_length.new) result }
{
    let answer = lint_answer(alloc, Format::Json, name, base, ceiling, keyings, groups);
    *full_length = lay_over(answer.text.as_slice(), lines);
    answer.status.number()
}
