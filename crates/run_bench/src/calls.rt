//! One call that takes memory, on the input that words name, and what it answers.
//!
//! The input is made first. Standard error says where the call begins and where it has ended, and standard output has the
//! text of its answer, `memory refused` if a growth was refused. After the line `again` comes the answer of the same call
//! made once more with what was lent to it before. The tables have a row for each call: the words that it takes, each with
//! what it names (`words`), and the text of its answer.
//!
//! No request for memory is refused here: `tests/refuse-calls` does that, between the two lines on standard error.

mod answers;
mod saved;
mod tried;
mod words;

use answers::{
    of_base, of_cert, of_fed, of_frames, of_keyed, of_keys, of_script, of_verdict, shown,
};
use anyhow::{Context, Result};
use audit_report::{RunFault, report};
use base_text::{base_read, body_of_rows};
use cert_text::cert_read;
use checker::check_bytes;
use fault_scripts::{Outcome, audit, faults, replay};
use finder::find;
use frame_screens::{frames_after, nearest, way_to};
use page_ids::keys_read;
use pageaudit::{
    Counts, Format, Level, LintReport, ListForm, run_audit, run_change, run_check, run_lint,
    run_list, run_map, run_pages, run_show, run_walk, status_of, status_of_import, status_of_lint,
    status_of_map, status_of_pages, status_of_show,
};
use saved::{exported, imported};
use tried::{calls, ran};
use words::Words;

/// Makes the call of the first word, on what the others name.
pub fn call(rt: &HostRuntime, words: &[String]) -> Result<()> {
    called(rt, &mut words.iter()).context("no such call, or its words name nothing that it takes")
}

fn called(rt: &HostRuntime, words: &mut Words) -> Option<()> {
    let name = words.next()?.as_str();
    read(rt, name, words)
}

// Texts that are read.
fn read(rt: &HostRuntime, name: &str, words: &mut Words) -> Option<()> {
    calls! { rt, name, words, alloc;
        keys_read(text: word) => of_keys(alloc, keys_read(alloc, text));
        body_of_rows(rows: rows) => shown(alloc, &body_of_rows(alloc, rows.as_slice())?);
        base_read(text: bytes, policy: policy) => of_base(alloc, base_read(alloc, text.as_slice()), &policy);
        cert_read(text: bytes) => of_cert(alloc, cert_read(alloc, text.as_slice()));
        feed(text: bytes, piece: number) => of_fed(alloc, text.as_slice(), piece as usize);
        _ => judge(rt, name, words)
    }
}

// What is judged.
fn judge(rt: &HostRuntime, name: &str, words: &mut Words) -> Option<()> {
    calls! { rt, name, words, alloc;
        check_bytes(base: bytes, cert: bytes, policy: policy) =>
            of_verdict(alloc, check_bytes(alloc, base.as_slice(), cert.as_slice(), &policy));
        replay(base: base, groups: groups, keys: keys) => shown(alloc, &replay(alloc, &base, &groups, &keys));
        audit(base: base, policy: policy) => report(alloc, &audit(alloc, &base, &policy)?);
        faults(base: base, policy: policy) => report(alloc, &Outcome::Faulty(faults(alloc, &base, &policy)?));
        _ => search(rt, name, words)
    }
}

// Frames that are found.
fn search(rt: &HostRuntime, name: &str, words: &mut Words) -> Option<()> {
    calls! { rt, name, words, alloc;
        find(base: base, groups: groups) => shown(alloc, &find(alloc, &base, &groups)?);
        script_to(base: base, groups: groups, index: number) => of_script(alloc, &base, &groups, index);
        way_to(base: base, groups: groups, frame: frame) => of_frames(alloc, way_to(alloc, &base, &groups, frame)?);
        frames_after(base: base, groups: groups, keys: keys) =>
            of_keyed(alloc, frames_after(alloc, &base, &groups, keys.as_slice()));
        nearest(base: base, frame: frame) => shown(alloc, &nearest(alloc, &base, frame)?);
        _ => run(rt, name, words)
    }
}

fn status_of_errors(run: &Result<Counts, RunFault>) -> u8 {
    status_of_lint(run, Level::Error)
}

// The runs that judge, on files and an output that can fail.
fn run(rt: &HostRuntime, name: &str, words: &mut Words) -> Option<()> {
    calls! { rt, name, words, alloc;
        run_audit(base: file, out: word, policy: policy) =>
            ran!(alloc, out, status_of, run_audit(alloc, &mut base.source(), out, &policy));
        run_check(base: file, cert: file, out: word, policy: policy) =>
            ran!(alloc, out, status_of, run_check(alloc, &mut base.source(), &mut cert.source(), out, &policy));
        run_change(old: file, old_cert: file, new: file, new_cert: file, out: word, policy: policy) =>
            ran!(alloc, out, status_of, run_change(alloc, &mut old.source(), &mut old_cert.source(), &mut new.source(),
                &mut new_cert.source(), out, &policy));
        run_lint(base: file, out: word, policy: policy) =>
            ran!(alloc, out, status_of_errors, run_lint(alloc, &mut base.source(), out, "base.toml", &policy, &LintReport::all(Format::Full)));
        _ => run_view(rt, name, words)
    }
}

// The runs that show a base.
fn run_view(rt: &HostRuntime, name: &str, words: &mut Words) -> Option<()> {
    calls! { rt, name, words, alloc;
        run_walk(base: file, keys: word, out: word, groups: groups) =>
            ran!(alloc, out, status_of, run_walk(alloc, &mut base.source(), keys, &groups, out));
        run_list(base: file, out: word, groups: groups) =>
            ran!(alloc, out, status_of, run_list(alloc, &mut base.source(), ListForm::Line, &groups, out));
        run_map(base: file, view: view, out: word, groups: groups) =>
            ran!(alloc, out, status_of_map, run_map(alloc, &mut base.source(), &groups, &view, out));
        run_show(base: file, target: target, form: form, out: word, groups: groups) =>
            ran!(alloc, out, status_of_show, run_show(alloc, &mut base.source(), &groups, &target, form, out));
        _ => run_screens(rt, name, words)
    }
}

// The runs of pages and screens.
fn run_screens(rt: &HostRuntime, name: &str, words: &mut Words) -> Option<()> {
    calls! { rt, name, words, alloc;
        run_pages(base: file, view: view, out: word, policy: policy) =>
            ran!(alloc, out, status_of_pages, run_pages(alloc, &mut base.source(), &policy, &view, "base.toml", out));
        run_import(screen: file, kind: kind, path: word, entry: entry, out: word) =>
            ran!(alloc, out, status_of_import, imported(alloc, &mut screen.source(), kind, path, entry, out));
        run_export(base: file, frame: frame, out: word, groups: groups) =>
            ran!(alloc, out, status_of, exported(alloc, &mut base.source(), &groups, frame, out));
        _ => None
    }
}
