ghost use Rattle.std.specs.Prelude.{◌≡◌, false};
ghost use Rattle.pageaudit.specs.Files.{device, IsTextWritten};
ghost use Rattle.pageaudit.specs.ExportRun.{IsExportRead, IsScreenWritten};
ghost use Rattle.screen_forms.specs.Forms.{form_bytes};
ghost use Rattle.audit_report.specs.declared.status.Status.TheVariants.{Clear};

use crate::input::read_base;
use crate::output::write_text;
use audit_report::{RunFault, Sink, Source, Status};
use frame_records::Base;
use frame_screens::Gallery;
use page_ids::FrameId;
use screen_forms::{SavedForm, push_form};
use std::alloc::Global;

/// Reads the base whose screens are written. A [`Gallery`] of it makes them, one for each of its frames.
pub fn read_exported<B: Source>(alloc: Global, base: &mut B) -> Result<Base, RunFault>
    requires { (B.seen base.old).failed ≡ false }
    ensures { IsExportRead (device B.seen base.old base.new) result }
{
    Ok(read_base(alloc, base)?)
}

// Writes the file of a frame's screen.
fn write_form<O: Sink>(
    alloc: Global,
    form: SavedForm,
    id: FrameId,
    codes: &[u8; 960],
    out: &mut O,
) -> Result<Status, RunFault>
    requires { (O.seen out.old).failed ≡ false }
    ensures { IsTextWritten (device O.seen out.old out.new) (form_bytes form id codes.now) Clear result }
{
    let mut bytes = Vec::new(alloc);
    push_form(alloc, &mut bytes, form, id, codes).map_err(|_| RunFault::Memory)?;
    write_text(out, bytes.as_slice(), Status::Clear)
}

/// Writes the file of the screen of a frame, in a form. The screen is that of `show`: the one after the keys that lead there, or of the
/// frame alone if no key does. The status is Clear.
///
/// The file is made first. On every fault except `Write`, nothing was written.
pub fn run_export<O: Sink>(
    alloc: Global,
    gallery: &Gallery,
    form: SavedForm,
    id: FrameId,
    out: &mut O,
) -> Result<Status, RunFault>
    requires { (O.seen out.old).failed ≡ false }
    ensures { IsScreenWritten (device O.seen out.old out.new) gallery.now form id result }
{
    let codes = gallery.screen(alloc, id).map_err(|_| RunFault::Memory)?;
    write_form(alloc, form, id, &codes, out)
}
