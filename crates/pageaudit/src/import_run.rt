ghost use Rattle.std.specs.Prelude.{◌≡◌, false};
ghost use Rattle.screen_files.specs.Files.{found_in};
ghost use Rattle.pageaudit.specs.Files.{device};
ghost use Rattle.pageaudit.specs.ImportRun.{AreFramesTaken, IsImportRun, import_number};
ghost use Rattle.pageaudit.specs.Loops.{AreFramesFound};

use crate::output::write_text;
use crate::status::status_of;
use audit_report::{RunFault, Sink, Source, SourceFault, read_whole};
use page_ids::PageNo;
use screen_files::{
    AddFault, Album, BaseTextFault, FileFrames, FileKind, FramesFault, MOST_SCREEN, ScreenFault,
    Settled, base_text, file_frames,
};
use std::alloc::Global;

/// Why a file gives no frames of a base.
#[derive(Debug, Clone, Copy, PartialEq, Eq)]
pub enum ImportFault {
    /// What it holds is refused.
    Screen(ScreenFault),
    /// With its frames there are more than a base may have.
    TooMany,
    /// A read of it failed.
    Broken,
    /// A growth was refused.
    Memory,
}

/// The result of a run of import without a fault of a device.
#[derive(Debug, Clone, Copy, PartialEq, Eq)]
pub enum ImportStatus {
    /// The base was written.
    Printed,
    /// The base would be longer than a base may be: the number of the file of the first frame that ends too late. Nothing was
    /// written.
    TooLong(usize),
}

// The frames of a file's bytes.
fn find(
    alloc: Global,
    kind: FileKind,
    path: &str,
    file: usize,
    bytes: &[u8],
) -> Result<FileFrames, ImportFault>
    ensures { AreFramesFound (found_in kind path.now file bytes.now) result }
{
    match file_frames(alloc, kind, path, file, bytes) {
        Ok(found) => Ok(found),
        Err(FramesFault::Screen(fault)) => Err(ImportFault::Screen(fault)),
        Err(FramesFault::Memory) => Err(ImportFault::Memory),
    }
}

/// Reads a file of screens, and adds its frames under the number of the file: one of each id. The answer has them too, those that aren't
/// kept, and the offsets of the screens that are left out. After a fault the album is as it was.
///
/// The file is read whole first: one byte more than a file may have is enough. A device is not called again after it returned an
/// error.
pub fn take_frames<S: Source>(
    alloc: Global,
    source: &mut S,
    kind: FileKind,
    path: &str,
    file: usize,
    album: &mut Album,
) -> Result<FileFrames, ImportFault>
    requires { (S.seen source.old).failed ≡ false }
    ensures { AreFramesTaken (device S.seen source.old source.new) kind path.now file album.old album.new result }
{
    let bytes = match read_whole(alloc, source, MOST_SCREEN + 1) {
        Ok(bytes) => bytes,
        Err(SourceFault::Broken) => return Err(ImportFault::Broken),
        Err(SourceFault::Memory) => return Err(ImportFault::Memory),
    };
    let found = find(alloc, kind, path, file, bytes.as_slice())?;
    match album.add(found.frames.frames()) {
        Ok(()) => Ok(found),
        Err(AddFault::TooMany) => Err(ImportFault::TooMany),
        Err(AddFault::Memory) => Err(ImportFault::Memory),
    }
}

/// Writes the base of frames of one id each, which ascend. Its entry page is the one that is asked for, else the first frame's. If routes
/// are guessed, each frame has those that the numbers of pages suggest.
///
/// The text is made first. On every fault except `Write`, nothing was written.
pub fn run_import<O: Sink>(
    alloc: Global,
    settled: &Settled,
    entry: Option<PageNo>,
    guesses: bool,
    out: &mut O,
) -> Result<ImportStatus, RunFault>
    requires { (O.seen out.old).failed ≡ false }
    ensures { IsImportRun (device O.seen out.old out.new) entry guesses settled.now.frames result }
{
    match base_text(alloc, entry, guesses, settled) {
        Ok(text) => write_text(out, text.as_slice(), ImportStatus::Printed),
        Err(BaseTextFault::TooLong(file)) => Ok(ImportStatus::TooLong(file)),
        Err(BaseTextFault::Memory) => Err(RunFault::Memory),
    }
}

/// The program's exit status after such a run: 0 a base, 3 a base that is too long; of a fault as `status_of`.
pub fn status_of_import(run: &Result<ImportStatus, RunFault>) -> u8
    ensures { result ≡ import_number run.now }
{
    match run {
        Ok(ImportStatus::Printed) => 0,
        Ok(ImportStatus::TooLong(_)) => 3,
        Err(fault) => status_of(&Err(*fault)),
    }
}
