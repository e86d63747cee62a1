//! What each run of the program reads and writes: the text of what was read, with its status; after a fault nothing, but for a failed
//! write's first bytes.

ghost use Rattle.std.specs.Prelude.{◌≡◌, false};
ghost use Rattle.pageaudit.specs.Files.{device};
ghost use Rattle.pageaudit.specs.Status.{status_number};
ghost use Rattle.pageaudit.specs.AuditRun.{IsAuditRun};
ghost use Rattle.pageaudit.specs.CheckRun.{IsCheckRun};
ghost use Rattle.pageaudit.specs.ChangeRun.{IsChangeRun, edition_files};
ghost use Rattle.pageaudit.specs.LintRun.{IsLintRun, lint_number};
ghost use Rattle.pageaudit.specs.WalkRun.{IsWalkRun};
ghost use Rattle.pageaudit.specs.ShowRun.{IsShowRun, show_number};
ghost use Rattle.pageaudit.specs.ListRun.{IsListRun};
ghost use Rattle.pageaudit.specs.MapRun.{IsMapRun, map_number};
ghost use Rattle.pageaudit.specs.PagesRun.{IsPagesFileRun, pages_number};
ghost use Rattle.pageaudit.specs.ImportRun.{IsImportRun, import_number};
ghost use Rattle.pageaudit.specs.ExportRun.{IsScreenWritten};

use audit_report::{RunFault, Sink, Source};
use checker::Policy;
use frame_records::Groups;
use page_ids::{FrameId, PageNo};
use pageaudit::{
    Counts, Form, Gallery, ImportStatus, Level, LintReport, ListForm, MapStatus, PagesStatus,
    SavedForm, Settled, ShowStatus, Status, Target, View, run_audit, run_change, run_check,
    run_export, run_import, run_lint, run_list, run_map, run_pages, run_show, run_walk, status_of,
    status_of_import, status_of_lint, status_of_map, status_of_pages, status_of_show,
};
use std::alloc::Global;

fn audit<B: Source, O: Sink>(
    alloc: Global,
    base: &mut B,
    out: &mut O,
    policy: &Policy,
) -> Result<Status, RunFault>
    requires base_open { (B.seen base.old).failed ≡ false }
    requires out_open { (O.seen out.old).failed ≡ false }
    ensures { IsAuditRun (device B.seen base.old base.new) (device O.seen out.old out.new) policy.now result }
{
    run_audit(alloc, base, out, policy)
}

fn check<B: Source, C: Source, O: Sink>(
    alloc: Global,
    base: &mut B,
    cert: &mut C,
    out: &mut O,
    policy: &Policy,
) -> Result<Status, RunFault>
    requires base_open { (B.seen base.old).failed ≡ false }
    requires cert_open { (C.seen cert.old).failed ≡ false }
    requires out_open { (O.seen out.old).failed ≡ false }
    ensures { IsCheckRun (device B.seen base.old base.new) (device C.seen cert.old cert.new)
        (device O.seen out.old out.new) policy.now result }
{
    run_check(alloc, base, cert, out, policy)
}

fn change<B: Source, C: Source, N: Source, M: Source, O: Sink>(
    alloc: Global,
    old: &mut B,
    old_cert: &mut C,
    new: &mut N,
    new_cert: &mut M,
    out: &mut O,
    policy: &Policy,
) -> Result<Status, RunFault>
    requires old_open { (B.seen old.old).failed ≡ false }
    requires old_cert_open { (C.seen old_cert.old).failed ≡ false }
    requires new_open { (N.seen new.old).failed ≡ false }
    requires new_cert_open { (M.seen new_cert.old).failed ≡ false }
    requires out_open { (O.seen out.old).failed ≡ false }
    ensures { IsChangeRun
        (edition_files (device B.seen old.old old.new) (device C.seen old_cert.old old_cert.new))
        (edition_files (device N.seen new.old new.new) (device M.seen new_cert.old new_cert.new))
        (device O.seen out.old out.new) policy.now result }
{
    run_change(alloc, old, old_cert, new, new_cert, out, policy)
}

fn lint<B: Source, O: Sink>(
    alloc: Global,
    base: &mut B,
    out: &mut O,
    path: &str,
    policy: &Policy,
    report: &LintReport,
) -> Result<Counts, RunFault>
    requires base_open { (B.seen base.old).failed ≡ false }
    requires out_open { (O.seen out.old).failed ≡ false }
    ensures { IsLintRun (device B.seen base.old base.new)
        (device O.seen out.old out.new) path.now policy.now report.now result }
{
    run_lint(alloc, base, out, path, policy, report)
}

fn walk<B: Source, O: Sink>(
    alloc: Global,
    base: &mut B,
    keys: &str,
    groups: &Groups,
    out: &mut O,
) -> Result<Status, RunFault>
    requires base_open { (B.seen base.old).failed ≡ false }
    requires out_open { (O.seen out.old).failed ≡ false }
    ensures { IsWalkRun (device B.seen base.old base.new) (device O.seen out.old out.new) groups.now keys.now result }
{
    run_walk(alloc, base, keys, groups, out)
}

fn show<B: Source, O: Sink>(
    alloc: Global,
    base: &mut B,
    groups: &Groups,
    target: &Target,
    form: Form,
    out: &mut O,
) -> Result<ShowStatus, RunFault>
    requires base_open { (B.seen base.old).failed ≡ false }
    requires out_open { (O.seen out.old).failed ≡ false }
    ensures { IsShowRun (device B.seen base.old base.new) (device O.seen out.old out.new)
        groups.now target.now form result }
{
    run_show(alloc, base, groups, target, form, out)
}

fn list<B: Source, O: Sink>(
    alloc: Global,
    base: &mut B,
    form: ListForm,
    groups: &Groups,
    out: &mut O,
) -> Result<Status, RunFault>
    requires base_open { (B.seen base.old).failed ≡ false }
    requires out_open { (O.seen out.old).failed ≡ false }
    ensures { IsListRun (device B.seen base.old base.new) (device O.seen out.old out.new) groups.now form result }
{
    run_list(alloc, base, form, groups, out)
}

fn map<B: Source, O: Sink>(
    alloc: Global,
    base: &mut B,
    groups: &Groups,
    view: &View,
    out: &mut O,
) -> Result<MapStatus, RunFault>
    requires base_open { (B.seen base.old).failed ≡ false }
    requires out_open { (O.seen out.old).failed ≡ false }
    ensures { IsMapRun (device B.seen base.old base.new) (device O.seen out.old out.new) groups.now view.now result }
{
    run_map(alloc, base, groups, view, out)
}

fn pages<B: Source, O: Sink>(
    alloc: Global,
    base: &mut B,
    policy: &Policy,
    view: &View,
    name: &str,
    out: &mut O,
) -> Result<PagesStatus, RunFault>
    requires base_open { (B.seen base.old).failed ≡ false }
    requires out_open { (O.seen out.old).failed ≡ false }
    ensures { IsPagesFileRun (device B.seen base.old base.new)
        (device O.seen out.old out.new) name.now policy.now view.now result }
{
    run_pages(alloc, base, policy, view, name, out)
}

fn import<O: Sink>(
    alloc: Global,
    settled: &Settled,
    entry: Option<PageNo>,
    guesses: bool,
    out: &mut O,
) -> Result<ImportStatus, RunFault>
    requires { (O.seen out.old).failed ≡ false }
    ensures { IsImportRun (device O.seen out.old out.new) entry guesses settled.now.frames result }
{
    run_import(alloc, settled, entry, guesses, out)
}

fn export<O: Sink>(
    alloc: Global,
    gallery: &Gallery,
    form: SavedForm,
    id: FrameId,
    out: &mut O,
) -> Result<Status, RunFault>
    requires { (O.seen out.old).failed ≡ false }
    ensures { IsScreenWritten (device O.seen out.old out.new) gallery.now form id result }
{
    run_export(alloc, gallery, form, id, out)
}

// The program's exit status after each.
fn exit(run: &Result<Status, RunFault>) -> u8
    ensures { result ≡ status_number run.now }
{
    status_of(run)
}

fn exit_of_lint(run: &Result<Counts, RunFault>, denied: Level) -> u8
    ensures { result ≡ lint_number denied run.now }
{
    status_of_lint(run, denied)
}

fn exit_of_show(run: &Result<ShowStatus, RunFault>) -> u8
    ensures { result ≡ show_number run.now }
{
    status_of_show(run)
}

fn exit_of_map(run: &Result<MapStatus, RunFault>) -> u8
    ensures { result ≡ map_number run.now }
{
    status_of_map(run)
}

fn exit_of_pages(run: &Result<PagesStatus, RunFault>) -> u8
    ensures { result ≡ pages_number run.now }
{
    status_of_pages(run)
}

fn exit_of_import(run: &Result<ImportStatus, RunFault>) -> u8
    ensures { result ≡ import_number run.now }
{
    status_of_import(run)
}
