//! What a folder of editions is promised.

ghost use Rattle.std.specs.Prelude.{◌≡◌, true, false};
ghost use Rattle.edition_checks.specs.Putting.{LeavesSound};
ghost use Rattle.publishing.specs.Publishing.{IfPublished, IsPublishedFrom};

use audit_report::{Sink, Source};
use editions::EditionStore;
use publishing::{Publish, PublishFault, PublishStatus, run_publish};
use std::alloc::Global;

// What is published is cleared, whatever happens a sound folder is left sound, and a dry run writes nothing.
fn published<S: EditionStore, B: Source, O: Sink>(
    alloc: Global,
    store: &mut S,
    base: &mut B,
    out: &mut O,
    asked: &Publish<'_>,
) -> Result<PublishStatus, PublishFault>
    requires held { (S.seen store.old).held ≡ true }
    requires base_open { (B.seen base.old).failed ≡ false }
    requires out_open { (O.seen out.old).failed ≡ false }
    ensures published { IfPublished result (IsPublishedFrom (B.seen base.old) (B.seen base.new)
        (S.seen store.old) (S.seen store.new) asked.now.new_callers) }
    ensures sound { LeavesSound (S.seen store.old) (S.seen store.new) }
    ensures dry { asked.now.dry_run ≡ true → (S.seen store.new).state ≡ (S.seen store.old).state }
{
    run_publish(alloc, store, base, out, asked)
}
