//! The runs of screens, each as one call.

ghost use Rattle.std.specs.Prelude.{◌≡◌, false};

use audit_report::{RunFault, Sink, Source, Status};
use frame_records::Groups;
use page_ids::{FrameId, PageNo};
use pageaudit::{
    Album, FileKind, Gallery, ImportFault, ImportStatus, SavedForm, read_exported, run_export,
    run_import, take_frames,
};
use std::alloc::Global;

/// The base of one file of screens. A file that gives no frame is as one that can't be read.
pub fn imported<S: Source, O: Sink>(
    alloc: Global,
    screen: &mut S,
    kind: FileKind,
    path: &str,
    entry: Option<PageNo>,
    out: &mut O,
) -> Result<ImportStatus, RunFault>
    requires screen_open { (S.seen screen.old).failed ≡ false }
    requires out_open { (O.seen out.old).failed ≡ false }
{
    let mut album = Album::new(alloc);
    match take_frames(alloc, screen, kind, path, 0, &mut album) {
        Ok(_) => printed(alloc, album, entry, out),
        Err(ImportFault::Memory) => Err(RunFault::Memory),
        Err(_) => Err(RunFault::ReadBase),
    }
}

// The base of an album.
fn printed<O: Sink>(
    alloc: Global,
    album: Album,
    entry: Option<PageNo>,
    out: &mut O,
) -> Result<ImportStatus, RunFault>
    requires { (O.seen out.old).failed ≡ false }
{
    match album.settle(alloc) {
        Ok(settled) => run_import(alloc, &settled, entry, true, out),
        Err(_) => Err(RunFault::Memory),
    }
}

/// The screen of one frame of a base.
pub fn exported<B: Source, O: Sink>(
    alloc: Global,
    base: &mut B,
    groups: &Groups,
    id: FrameId,
    out: &mut O,
) -> Result<Status, RunFault>
    requires base_open { (B.seen base.old).failed ≡ false }
    requires out_open { (O.seen out.old).failed ≡ false }
{
    let base = match read_exported(alloc, base) {
        Ok(base) => base,
        Err(fault) => return Err(fault),
    };
    match Gallery::of(alloc, &base, groups) {
        Ok(gallery) => run_export(alloc, &gallery, SavedForm::Link, id, out),
        Err(_) => Err(RunFault::Memory),
    }
}
