ghost use Rattle.std.specs.Prelude.{◌≡◌, false};
ghost use Rattle.pageaudit.specs.Files.{device};
ghost use Rattle.pageaudit.specs.MapRun.{IsMapRun, IsMapWritten, map_number};

use crate::input::read_base;
use crate::output::write_text;
use crate::status::status_of;
use audit_report::{RunFault, Sink, Source};
use base_map::map_view;
use finder::View;
use frame_records::Groups;
use std::alloc::Global;

/// The result of a run of map without a fault.
#[derive(Debug, Clone, Copy, PartialEq, Eq)]
pub enum MapStatus {
    /// The map was written.
    Drawn,
    /// The base lacks the frame `a` of the page that was named; nothing was written.
    NoPage,
}

// Writes a map, if there is one.
fn write_map<O: Sink>(out: &mut O, map: Option<Vec<u8>>) -> Result<MapStatus, RunFault>
    requires { (O.seen out.old).failed ≡ false }
    ensures { IsMapWritten (device O.seen out.old out.new) map result }
{
    match map {
        Some(text) => write_text(out, text.as_slice(), MapStatus::Drawn),
        None => Ok(MapStatus::NoPage),
    }
}

/// Writes the map of a view of a base, for a caller of the groups. If the base lacks the frame `a` of the view's page, nothing
/// is written, and the status is NoPage.
///
/// The base is read whole and judged first. On every fault except `Write`, nothing was written. A device is not called again
/// after it returned an error.
pub fn run_map<B: Source, O: Sink>(
    alloc: Global,
    base: &mut B,
    groups: &Groups,
    view: &View,
    out: &mut O,
) -> Result<MapStatus, RunFault>
    requires base_open { (B.seen base.old).failed ≡ false }
    requires out_open { (O.seen out.old).failed ≡ false }

    // A status: the base's file was read to its end, no device failed, and the map is that of what was read. A fault: the
    // first one, of the base's file or of the output.
    ensures { IsMapRun (device B.seen base.old base.new) (device O.seen out.old out.new) groups.now view.now result }
{
    let base = read_base(alloc, base)?;
    let Ok(map) = map_view(alloc, &base, groups, view) else {
        return Err(RunFault::Memory);
    };
    write_map(out, map)
}

/// The program's exit status after a run of map: 0 a map, 2 no such page; of a fault as `status_of`.
pub fn status_of_map(run: &Result<MapStatus, RunFault>) -> u8
    ensures { result ≡ map_number run.now }
{
    match run {
        Ok(MapStatus::Drawn) => 0,
        Ok(MapStatus::NoPage) => 2,
        Err(fault) => status_of(&Err(*fault)),
    }
}
