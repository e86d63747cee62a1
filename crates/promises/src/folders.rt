//! What a folder of editions that was verified means.

ghost use Rattle.std.specs.Prelude.{◌≡◌, true, false, Ok, IfSome};
ghost use Rattle.edition_lists.specs.Verified.{IsVerifiedFolder};
ghost use Rattle.edition_lists.specs.FolderChains.{AreChainsSafe, SoundFoldersAreSafe};
ghost use Rattle.edition_lists.specs.Runs.{IsEditionsText, IsVerification, IsRun};

use audit_report::Sink;
use edition_lists::{EditionsFault, EditionsStatus, run_list, run_verify, sound_folders_are_safe};
use editions::EditionStore;
use std::alloc::Global;

// A folder that is cleared.
fn of_a_folder<S: EditionStore, O: Sink>(
    alloc: Global,
    store: &mut S,
    out: &mut O,
    folder: &str,
) -> Result<EditionsStatus, EditionsFault>
    requires held { (S.seen store.old).held ≡ true }
    requires out_open { (O.seen out.old).failed ≡ false }
    ensures verified { result ≡ Ok EditionsStatus.Cleared → IfSome (S.seen store.old).state IsVerifiedFolder }
    ensures safe { result ≡ Ok EditionsStatus.Cleared → IfSome (S.seen store.old).state AreChainsSafe }
    ensures run { IsRun (IsVerification (S.seen store.old) folder.now) (O.seen out.old) (O.seen out.new) result }
{
    run_verify(alloc, store, out, folder)
}

// A folder that is listed.
fn of_a_list<S: EditionStore, O: Sink>(
    alloc: Global,
    store: &mut S,
    out: &mut O,
) -> Result<EditionsStatus, EditionsFault>
    requires held { (S.seen store.old).held ≡ true }
    requires out_open { (O.seen out.old).failed ≡ false }
    ensures { IsRun (IsEditionsText (S.seen store.old)) (O.seen out.old) (O.seen out.new) result }
{
    run_list(alloc, store, out)
}

// Callers, along each chain of its editions.
fn along_chains()
    ensures { SoundFoldersAreSafe }
{
    sound_folders_are_safe();
}
