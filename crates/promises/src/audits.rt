//! What an audit decides, and that the check clears what it certifies.

ghost use Rattle.std.specs.Prelude.{◌≡◌, ◌↔◌, ℕ, List, [], Result, IfOk};
ghost use Rattle.frame_records.specs.Bases.{BaseView, AreApart};
ghost use Rattle.checker.specs.declared.policy.Policy.{Policy as PolicyView};
ghost use Rattle.checker.specs.Safe.{Safe};
ghost use Rattle.base_faults.specs.declared.fault.Fault.{Fault};
ghost use Rattle.fault_scripts.specs.Faults.{AreFaults};
ghost use Rattle.fault_scripts.specs.Outcomes.{IsOutcome};
ghost use Rattle.audit_report.specs.declared.run_fault.RunFault.{RunFault};
ghost use Rattle.audit_report.specs.declared.status.Status.{Status};
ghost use Rattle.pageaudit.specs.Files.{Device};
ghost use Rattle.pageaudit.specs.Certified.{IsFirstRun, IsSecondRun, IsClearing};
ghost use Rattle.promises.specs.Audits.{IsAuditAnswer};

use checker::Policy;
use fault_scripts::{Outcome, audit, none_is_safe};
use frame_records::Base;
use pageaudit::certified_is_cleared;
use std::alloc::{AllocError, Global};

// A certificate if and only if the base is safe; else every fault, each shown by its script.
fn audited(alloc: Global, base: &Base, policy: &Policy) -> Result<Outcome, AllocError>
    ensures answer { IfOk result (IsAuditAnswer base.now policy.now) }
    ensures outcome { IfOk result (IsOutcome base.now policy.now) }
{
    audit(alloc, base, policy)
}

// There is no fault if and only if the base is safe.
fn no_fault()
    ensures { (base : BaseView) (policy : PolicyView) (faults : List Fault) → AreApart base
        → AreFaults base policy faults
        → (faults ≡ []) ↔ Safe policy.groups base policy.ceiling policy.keyings }
{
    none_is_safe();
}

// The headline's other half: what an audit certifies, a check of the same bytes clears.
fn certified()
    ensures { (base_text cert_text : List ℕ) (policy : PolicyView) (out : Device) (answer : Result Status RunFault) →
        IsFirstRun base_text cert_text policy → IsSecondRun base_text cert_text out policy answer
        → IsClearing out answer }
{
    certified_is_cleared();
}
