//! What is judged of a base's text: its findings, and its certificate.

ghost use Rattle.std.specs.Prelude.{◌≡◌, true, Ok, Some, IfOk, IfSome};
ghost use Rattle.policy_text.specs.Policies.{policy_in};
ghost use Rattle.edition_checks.specs.Served.{IsUnchanged};

use crate::asked::Publish;
use crate::fault::PublishFault;
use crate::places::push_policy_fault;
use checker::Policy;
use edition_checks::{CandidateFault, Served};
use editions::EditionStore;
use finding_forms::{Format, findings_text};
use lint::{Counts, lint};
use policy_text::{PolicyFault, policy_read};
use std::alloc::Global;

// The fault of a policy's text, after it is printed.
fn refused_policy(
    alloc: Global,
    said: &mut Vec<u8>,
    path: &str,
    text: &[u8],
    fault: PolicyFault,
) -> PublishFault {
    match push_policy_fault(alloc, said, path, text, fault) {
        Ok(()) if fault != PolicyFault::Memory => PublishFault::Policy(fault),
        _ => PublishFault::Memory,
    }
}

/// The folder's policy and its text.
pub fn folder_policy<S: EditionStore>(
    alloc: Global,
    store: &mut S,
    said: &mut Vec<u8>,
    path: &str,
) -> Result<(Vec<u8>, Policy), PublishFault>
    requires { (S.seen store.old).held ≡ true }
    ensures unchanged { IsUnchanged (S.seen store.old) (S.seen store.new) }
    ensures there { IfOk result (λ read. IfSome (S.seen store.old).state (λ f. f.policy ≡ Some read.0.items)) }
    ensures is { IfOk result (λ read. policy_in read.0.items ≡ Ok read.1) }
{
    let Some(text) = store.read_policy(alloc)? else {
        return Err(PublishFault::NoPolicy);
    };
    match policy_read(alloc, text.as_slice()) {
        Ok(policy) => Ok((text, policy)),
        Err(fault) => Err(refused_policy(alloc, said, path, text.as_slice(), fault)),
    }
}

/// Prints the findings of a base's text; their numbers if they stop the publish.
pub(crate) fn lint_base(
    alloc: Global,
    said: &mut Vec<u8>,
    asked: &Publish<'_>,
    text: &[u8],
    policy: &Policy,
) -> Result<Option<Counts>, PublishFault> {
    let findings = lint(alloc, text, policy)?;
    let path = asked.base_path.as_bytes();
    let lines = findings_text(alloc, Format::Full, path, text, findings.as_slice())?;
    said.extend_from_slice(lines.as_slice())?;
    let counts = Counts::of(findings.as_slice());
    if counts.errors > 0 || (asked.deny_warnings && counts.warnings > 0) {
        Ok(Some(counts))
    } else {
        Ok(None)
    }
}

/// Why there is no candidate after a lint without errors: memory, or what no audit does.
pub(crate) fn candidate_fault(fault: CandidateFault) -> PublishFault {
    match fault {
        CandidateFault::Memory => PublishFault::Memory,
        _ => PublishFault::Uncertified,
    }
}

/// The number of the edition that is served, if it has these texts.
pub(crate) fn number_of_same(served: &Option<Served>, base: &[u8], policy: &[u8]) -> Option<u32> {
    match served {
        Some(served)
            if served.base_text.as_slice() == base && served.policy_text.as_slice() == policy => {
            Some(served.number)
        }
        _ => None,
    }
}
