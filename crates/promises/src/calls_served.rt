//! What a caller on a line is promised.

ghost use Rattle.std.specs.Prelude.{◌≡◌, ℕ, List, false, IfOk};
ghost use Rattle.ansi_line.specs.AnsiLines.{screen_bytes};
ghost use Rattle.ansi_line.specs.AnsiReading.{ansi_read};
ghost use Rattle.ansi_line.specs.Laws.{LeavesNothingSet, ScreenShows};
ghost use Rattle.one_call.specs.Calls.{IsCallServed, IsKeptCall};
ghost use Rattle.one_call.specs.Safety.{PartsAreSeen, PartsAreSafe};

use ansi_line::{screen_reads_back, screen_text};
use audit_report::{Sink, Source};
use editions::EditionFolder;
use one_call::{CallFault, CallLog, parts_are_safe, parts_are_seen, serve};
use std::alloc::{AllocError, Global};
use terminal_codes::Terminal;

// A call of a folder's editions.
fn of_a_call<F: EditionFolder, R: Source, W: Sink, L: CallLog>(
    alloc: Global,
    folder: &mut F,
    source: &mut R,
    sink: &mut W,
    log: &mut L,
) -> Result<(), CallFault>
    requires reads { (R.seen source.old).failed ≡ false }
    requires writes { (W.seen sink.old).failed ≡ false }
    ensures call { IsCallServed (F.seen folder.old) (R.seen source.old) (R.seen source.new)
        (W.seen sink.old) (W.seen sink.new) result }
    ensures kept { IfOk result (λ _. IsKeptCall (F.seen folder.old) (R.seen source.old) (R.seen source.new)
        (W.seen sink.old) (W.seen sink.new)) }
{
    serve(alloc, folder, source, sink, log)
}

// The screen of a caller whose terminal has colours.
fn of_a_screen(alloc: Global, terminal: &Terminal) -> Result<Vec<u8>, AllocError>
    ensures { IfOk result (λ text. text.items ≡ screen_bytes terminal.now.cells) }
{
    screen_text(alloc, terminal)
}

// Each such screen, read after those before it, shows the looks of its cells.
fn screens_show()
    ensures { (before cells : List ℕ) → LeavesNothingSet (ansi_read before) → ScreenShows before cells }
{
    screen_reads_back();
}

// What a caller sees, of all editions in turn.
fn seen()
    ensures { PartsAreSeen }
{
    parts_are_seen();
}

// What callers are promised, of editions that were cleared.
fn safe()
    ensures { PartsAreSafe }
{
    parts_are_safe();
}
