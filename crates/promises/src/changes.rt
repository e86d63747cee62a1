//! What CLEARED promises of a change of edition.

ghost use Rattle.std.specs.Prelude.{◌≡◌, ◌∷◌, List, false};
ghost use Rattle.std.specs.List.{AllByRecursion};
ghost use Rattle.page_ids.specs.Ids.{Id};
ghost use Rattle.frame_records.specs.Bases.{AreApart};
ghost use Rattle.checker.specs.declared.policy.Policy.{Policy as PolicyView};
ghost use Rattle.checker.specs.Change.{change_verdict, Edition, AreCleared, IsSafeOverChanges, IsLeastLost};
ghost use Rattle.pageaudit.specs.Files.{device};
ghost use Rattle.pageaudit.specs.ChangeRun.{edition_files};
ghost use Rattle.promises.specs.Changes.{IsKeptOver, HoldsOfFourFiles};

use audit_report::{RunFault, Sink, Source, Status};
use cert_table::{Certificate, Cover};
use checker::{ChangeVerdict, Policy, changes_are_safe, check_change};
use frame_records::Base;
use pageaudit::run_change;
use std::alloc::Global;

// The promise of a change, of four files.
fn of_files<B: Source, C: Source, N: Source, M: Source, O: Sink>(
    alloc: Global,
    old: &mut B,
    old_cert: &mut C,
    new: &mut N,
    new_cert: &mut M,
    out: &mut O,
    policy: &Policy,
) -> Result<Status, RunFault>
    requires old_open { (B.seen old.old).failed ≡ false }
    requires old_cert_open { (C.seen old_cert.old).failed ≡ false }
    requires new_open { (N.seen new.old).failed ≡ false }
    requires new_cert_open { (M.seen new_cert.old).failed ≡ false }
    requires out_open { (O.seen out.old).failed ≡ false }
    ensures { result ≡ Ok Status.Clear → HoldsOfFourFiles
        (edition_files (device B.seen old.old old.new) (device C.seen old_cert.old old_cert.new))
        (edition_files (device N.seen new.old new.new) (device M.seen new_cert.old new_cert.new))
        policy.now }
{
    run_change(alloc, old, old_cert, new, new_cert, out, policy)
}

// The promise of a change, of two editions in memory. E2 names the smallest id that is lost.
fn of_values<C: Cover + Drop>(
    old: &Base,
    old_cert: &Certificate<C>,
    new: &Base,
    new_cert: &Certificate<C>,
    policy: &Policy,
) -> ChangeVerdict
    ensures safe { result ≡ ChangeVerdict.Cleared → IsKeptOver policy.now old.now old_cert.now new.now new_cert.now }
    ensures verdict { result ≡ change_verdict policy.now old.now old_cert.now new.now new_cert.now }
    ensures lost { (id : Id) → result ≡ ChangeVerdict.NoLongerCovered id →
        IsLeastLost old_cert.now.rows new_cert.now.rows id }
{
    check_change(old, old_cert, new, new_cert, policy)
}

// The promise over every list of at least two editions.
fn of_many()
    ensures { (policy : PolicyView) (first second : Edition) (more : List Edition) →
        AllByRecursion (λ e. AreApart e.base) (first ∷ second ∷ more) → AreCleared policy (first ∷ second ∷ more) →
        IsSafeOverChanges policy first (second ∷ more) }
{
    changes_are_safe();
}
