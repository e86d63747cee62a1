//! What CLEARED promises.

ghost use Rattle.std.specs.Prelude.{◌≡◌, ◌↔◌, List, false};
ghost use Rattle.page_ids.specs.declared.key.Key.{Key};
ghost use Rattle.session_machine.specs.Sessions.{opening};
ghost use Rattle.session_machine.specs.Runs.{state_after};
ghost use Rattle.frame_records.specs.Bases.{BaseView};
ghost use Rattle.cert_table.specs.Table.{CertView};
ghost use Rattle.checker.specs.declared.policy.Policy.{Policy as PolicyView};
ghost use Rattle.checker.specs.declared.verdict.Cause.{Cause};
ghost use Rattle.checker.specs.declared.verdict.Verdict.TheVariants.{Refused};
ghost use Rattle.checker.specs.Good.{Good};
ghost use Rattle.checker.specs.Safe.{HasRows};
ghost use Rattle.checker.specs.Verdict.{verdict, conditions};
ghost use Rattle.checker.specs.Headline.{IsChecked};
ghost use Rattle.pageaudit.specs.Files.{device};
ghost use Rattle.promises.specs.Headlines.{IsKeptByPolicy, HoldsOfTexts, HoldsOfBothFiles};

use audit_report::{RunFault, Sink, Source, Status};
use cert_table::{Certificate, Cover};
use checker::{InputFault, Policy, Verdict, check, check_bytes, refused_is_first};
use frame_records::Base;
use pageaudit::run_check;
use std::alloc::Global;

// The headline, of two files.
fn of_files<B: Source, C: Source, O: Sink>(
    alloc: Global,
    base: &mut B,
    cert: &mut C,
    out: &mut O,
    policy: &Policy,
) -> Result<Status, RunFault>
    requires base_open { (B.seen base.old).failed ≡ false }
    requires cert_open { (C.seen cert.old).failed ≡ false }
    requires out_open { (O.seen out.old).failed ≡ false }
    ensures { result ≡ Ok Status.Clear
        → HoldsOfBothFiles (device B.seen base.old base.new) (device C.seen cert.old cert.new) policy.now }
{
    run_check(alloc, base, cert, out, policy)
}

// The headline, of two texts in memory.
#[tactic(auto, using(crate::proofs::Headlines::of_texts))]
fn of_texts(alloc: Global, base: &[u8], cert: &[u8], policy: &Policy) -> Result<Verdict, InputFault>
    ensures headline { result ≡ Ok Verdict.Cleared → HoldsOfTexts base.now cert.now policy.now }
    ensures checked { IsChecked base.now cert.now policy.now result }
{
    check_bytes(alloc, base, cert, policy)
}

// The headline, of two values. The verdict is Cleared if and only if each condition holds, and after every list of keys the present frame and each
// remembered one have rows.
#[tactic(auto, using(crate::proofs::Headlines::of_values))]
fn of_values<C: Cover + Drop>(base: &Base, policy: &Policy, cert: &Certificate<C>) -> Verdict
    ensures headline { result ≡ Verdict.Cleared → IsKeptByPolicy base.now cert.now policy.now }
    ensures verdict { result ≡ verdict base.now policy.now cert.now }
    ensures good { (result ≡ Verdict.Cleared) ↔ Good base.now policy.now cert.now }
    ensures covered { result ≡ Verdict.Cleared → (keys : List Key) →
        HasRows cert.now.rows (state_after policy.now.groups base.now (opening base.now) keys) }
{
    check(base, policy, cert)
}

// It is refused for a cause if and only if that cause's condition is the first that fails.
fn first_that_fails()
    ensures { (base : BaseView) (policy : PolicyView) (cert : CertView) (cause : Cause) →
        (verdict base policy cert ≡ Refused cause) ↔ (conditions base policy cert).FailsFor cause }
{
    refused_is_first();
}
