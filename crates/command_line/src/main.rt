//! The program: audits the page base of a viewdata information provider.
//!
//! The commands open their files in the order of the words and pass them
//! to the runs of the crate `pageaudit`, which are proved over any reader and writer. This crate only opens files, prints and
//! picks the exit status.
#![tactic(auto)]

mod editions_files;
mod export_files;
mod fix_files;
mod import_files;
mod lint_files;
mod merge_files;
mod pages_file;
mod publish_files;
mod reports;
mod screen_paths;
mod serve_call;
mod serve_line;
mod serve_notes;
mod show_screen;

use audit_report::{FromRead, IntoWrite, RunFault, fault_text, write_whole};
use checker::Policy;
use clap::error::ErrorKind;
use clap::{ArgMatches, Error};
use command_words::{Pages, Request, Show, WordsFault, asked_for, groups_of, matches, words};
use disk_files::{
    Opened, Out, Unfinished, ended, is_same_file, open, open_base, open_out, path_to,
};
use editions_files::show_editions;
use explain::{explanation, nearest, overview};
use export_files::export;
use frame_records::Groups;
use import_files::import;
use lint_files::lint;
use pageaudit::{
    ListForm, MapStatus, Status, View, run_audit, run_audit_into, run_change, run_check, run_list,
    run_map, run_walk, status_of, status_of_map,
};
use pages_file::pages;
use publish_files::publish;
use reports::report;
use serve_call::serve_call;
use show_screen::show;
use std::alloc::{AllocError, Global};
use std::fs::File;
use std::io;
use std::process::ExitCode;
use std::rt::{Env, Files, Stderr};

fn main(rt: HostRuntime) -> ExitCode {
    ExitCode::from(run(&rt, rt.stderr()))
}

// Reads the words and does what they ask; the exit status.
fn run<R: Files<File = File> + Env + Input + Print + Eprint + AllocGlobal + Clone + Drop>(
    rt: &R,
    errors: Stderr,
) -> u8 {
    match words(rt, rt.alloc()) {
        Ok(words) => run_words(rt, errors, words.as_slice()),
        Err(WordsFault::Memory) => fail(rt, &RunFault::Memory),
        Err(WordsFault::NotUtf8) => {
            let _ = eprintln!(rt; "error: a word on the command line isn't valid UTF-8");
            2
        }
    }
}

fn run_words<R: Files<File = File> + Env + Input + Print + Eprint + AllocGlobal + Clone + Drop>(
    rt: &R,
    errors: Stderr,
    words: &[String],
) -> u8 {
    match matches(rt.alloc(), words) {
        Ok(matches) => run_matches(rt, errors, &matches),
        Err(error) => print_error(rt, &error),
    }
}

// Prints what clap has to say: help on standard output, or what is wrong with the words on standard error.
fn print_error<R: Print + Eprint + AllocGlobal>(rt: &R, error: &Error) -> u8 {
    if error.kind() == ErrorKind::OutOfMemory {
        return fail(rt, &RunFault::Memory);
    }
    if error.use_stderr() {
        let _ = error.print(rt);
        return 2;
    }
    match format!(in rt.alloc(); "{error}") {
        Ok(help) => print_whole(rt, help.as_str()),
        Err(_) => fail(rt, &RunFault::Memory),
    }
}

// Writes a text whole; the exit status.
fn print_whole<R: Print + Eprint + AllocGlobal>(rt: &R, text: &str) -> u8 {
    let mut out = IntoWrite::new(io::writer(rt));
    match write_whole(&mut out, text.as_bytes()) {
        Ok(()) => 0,
        Err(_) if out.is_closed() => 3,
        Err(fault) => fail(rt, &RunFault::Write(fault.wrote)),
    }
}

// Paragraphs with a blank line between them.
fn joined(alloc: Global, paragraphs: &[&str]) -> Result<String, AllocError> {
    let mut text = paragraphs.join(alloc, "\n\n")?;
    text.push('\n')?;
    Ok(text)
}

fn print_paragraphs<R: Print + Eprint + AllocGlobal>(rt: &R, paragraphs: &[&str]) -> u8 {
    match joined(rt.alloc(), paragraphs) {
        Ok(text) => print_whole(rt, text.as_str()),
        Err(_) => fail(rt, &RunFault::Memory),
    }
}

// Prints what a word means, or all words.
fn explain<R: Print + Eprint + AllocGlobal>(rt: &R, word: Option<&str>) -> u8 {
    let Some(word) = word else {
        return print_whole(rt, overview());
    };
    if let Some(paragraphs) = explanation(word) {
        return print_paragraphs(rt, paragraphs);
    }
    match nearest(rt.alloc(), word) {
        Ok(Some(near)) => {
            let _ = eprintln!(rt; "error: no printed word is '{word}'; did you mean '{near}'?");
            2
        }
        Ok(None) => {
            let _ = eprintln!(rt;
                "error: no printed word is '{word}'; 'pageaudit explain' lists them"
            );
            2
        }
        Err(_) => fail(rt, &RunFault::Memory),
    }
}

// Reports a fault of the run; its status, or 4 if there is no memory for its line.
fn fail<R: Eprint + AllocGlobal>(rt: &R, fault: &RunFault) -> u8 {
    if print_fault(rt, fault) {
        status_of(&Err(*fault))
    } else {
        4
    }
}

// Does what was asked for; the exit status. The groups are read first; files are opened in the order of the words.
fn run_matches<R: Files<File = File> + Env + Input + Print + Eprint + AllocGlobal + Clone + Drop>(
    rt: &R,
    errors: Stderr,
    matches: &ArgMatches,
) -> u8 {
    match groups_of(matches).map(|groups| asked_for(matches, groups)) {
        Ok(
            Some(
                Request::Audit {
                    base,
                    out: Some(out),
                    ..
                }
                | Request::Show(
                    Show {
                        base,
                        out: Some(out),
                        ..
                    },
                )
                | Request::Pages(
                    Pages {
                        base,
                        out: Some(out),
                        ..
                    },
                ),
            ),
        ) if is_same_file(rt, path_to(base), out) => {
            let _ = eprintln!(rt; "error: --out names the base itself");
            2
        }
        Ok(Some(request)) => run_request(rt, errors, &request),
        Ok(None) => 2,
        Err(_) => fail(rt, &RunFault::Groups),
    }
}

// The exit status of a run, whose fault is reported.
fn status_after<R: Eprint + AllocGlobal>(rt: &R, run: Result<Status, RunFault>) -> u8 {
    match &run {
        Err(fault) => fail(rt, fault),
        Ok(_) => status_of(&run),
    }
}

// Says that no frame is named by a word.
fn report_no_frame<R: Eprint>(rt: &R, word: &str) -> u8 {
    let _ = eprintln!(rt; "error: '{word}' is neither a frame (478a) nor a page (478)");
    2
}

// Says why the words can't be used together.
fn report_misused<R: Eprint>(rt: &R, why: &str) -> u8 {
    let _ = eprintln!(rt; "error: {why}");
    2
}

// Runs what was asked for.
fn run_request<R: Files<File = File> + Env + Input + Print + Eprint + AllocGlobal + Clone + Drop>(
    rt: &R,
    errors: Stderr,
    request: &Request,
) -> u8 {
    match request {
        Request::Audit { base, out, policy } => status_after(
            rt,
            audit(rt, errors, base, *out, policy),
        ),
        Request::Check { base, cert, policy } => status_after(
            rt,
            check_files(rt, base, cert, policy),
        ),
        Request::Change {
            old,
            old_cert,
            new,
            new_cert,
            policy,
        } => status_after(rt, change_files(rt, [old, old_cert, new, new_cert], policy)),
        Request::Walk { base, keys, groups } => status_after(rt, walk_file(rt, base, keys, groups)),
        Request::List { base, form, groups } => list(rt, base, *form, groups),
        Request::Lint(asked) => lint(rt, errors, asked),
        Request::Map { base, view, groups } => map(rt, base, view, groups),
        Request::Show(asked) => show(rt, errors, asked),
        Request::Pages(asked) => pages(rt, errors, asked),
        Request::Import(asked) => import(rt, asked),
        Request::Export(asked) => export(rt, asked),
        Request::Serve(asked) => serve_call(rt, asked),
        Request::Publish(asked) => publish(rt, errors, asked),
        Request::Editions { folder, verify } => show_editions(rt, folder, *verify),
        Request::Misused { why } => report_misused(rt, why),
        Request::NoFrame { word } => report_no_frame(rt, word),
        Request::Explain { word } => explain(rt, *word),
    }
}

// Draws a map; a line on standard error if the base lacks the frame `a` of the page.
fn map<R: Files + Input + Print + Eprint + AllocGlobal>(
    rt: &R,
    base: &str,
    view: &View,
    groups: &Groups,
) -> u8 {
    let run = map_file(rt, base, view, groups);
    match run {
        Ok(status) => {
            if let MapStatus::NoPage = status {
                tell_no_page(rt, view);
            }
            status_of_map(&Ok(status))
        }
        Err(unfinished) => report(rt, base, &unfinished),
    }
}

fn map_file<R: Files + Input + Print + AllocGlobal>(
    rt: &R,
    base: &str,
    view: &View,
    groups: &Groups,
) -> Result<MapStatus, Unfinished> {
    match open_base(rt, base) {
        Ok(base) => {
            let mut base = FromRead::new(base);
            let mut out = IntoWrite::new(io::writer(rt));
            let run = run_map(rt.alloc(), &mut base, groups, view, &mut out);
            ended(run, &out)
        }
        Err(unfinished) => Err(unfinished),
    }
}

/// Says that the base lacks the frame `a` of the page.
pub fn tell_no_page<R: Eprint>(rt: &R, view: &View) {
    if let View::From(page, _) | View::To(page, _) = view {
        let text = page.text();
        let _ = eprintln!(rt; "error: the base has no frame {}a", text.as_str());
    }
}

// One line on standard error; false if there is no memory for it, and then nothing is printed.
fn print_fault<R: Eprint + AllocGlobal>(rt: &R, fault: &RunFault) -> bool {
    let Ok(text) = fault_text(rt.alloc(), fault) else {
        return false;
    };
    if let Ok(line) = str::from_utf8(text.as_slice()) {
        let _ = eprint!(rt; "{line}");
    }
    true
}

// A file, or the fault of one that can't be opened.
fn opened<R: Files + Input>(
    rt: &R,
    path: &str,
    fault: RunFault,
) -> Result<Opened<R::File, R::Reader>, RunFault> {
    match open(rt, path) {
        Ok(file) => Ok(file),
        Err(_) => Err(fault),
    }
}

// The certificate goes to standard output, or into a file of its own.
fn audit<R: Files + Input + Print + AllocGlobal>(
    rt: &R,
    errors: Stderr,
    base: &str,
    out: Option<&str>,
    policy: &Policy,
) -> Result<Status, RunFault> {
    match out {
        Some(out) => audit_into(rt, errors, base, out, policy),
        None => audit_file(rt, base, policy),
    }
}

fn audit_file<R: Files + Input + Print + AllocGlobal>(
    rt: &R,
    base: &str,
    policy: &Policy,
) -> Result<Status, RunFault> {
    let base = opened(rt, base, RunFault::ReadBase)?;
    let mut base = FromRead::new(base);
    let mut out = IntoWrite::new(io::writer(rt));
    run_audit(rt.alloc(), &mut base, &mut out, policy)
}

// Without memory to open the certificate's file, that is the fault.
fn audit_into<R: Files + Input + Print + AllocGlobal>(
    rt: &R,
    errors: Stderr,
    base: &str,
    path: &str,
    policy: &Policy,
) -> Result<Status, RunFault> {
    let base = opened(rt, base, RunFault::ReadBase)?;
    match open_out(rt, path) {
        Ok(out) => audit_to(rt, errors, base, out, policy),
        Err(error) if error.kind() == io::ErrorKind::OutOfMemory => Err(RunFault::Memory),
        Err(_) => Err(RunFault::Write(0)),
    }
}

fn audit_to<R: Files + Input + Print + AllocGlobal>(
    rt: &R,
    errors: Stderr,
    base: Opened<R::File, R::Reader>,
    out: Out<R::File>,
    policy: &Policy,
) -> Result<Status, RunFault> {
    let mut base = FromRead::new(base);
    let mut output = IntoWrite::new(io::writer(rt));
    match out {
        Out::Output => run_audit(rt.alloc(), &mut base, &mut output, policy),
        Out::Errors => {
            let mut cert = IntoWrite::new(io::writer(&errors));
            run_audit_into(rt.alloc(), &mut base, &mut cert, &mut output, policy)
        }
        Out::File(names, mut file) => {
            let run = {
                let mut cert = IntoWrite::new(&mut file);
                run_audit_into(rt.alloc(), &mut base, &mut cert, &mut output, policy)
            };
            names.close(rt, file, run, &Status::Clear)
        }
    }
}

fn check_files<R: Files + Input + Print + AllocGlobal>(
    rt: &R,
    base: &str,
    cert: &str,
    policy: &Policy,
) -> Result<Status, RunFault> {
    let base = opened(rt, base, RunFault::ReadBase)?;
    let cert = opened(rt, cert, RunFault::ReadCert)?;
    let mut base = FromRead::new(base);
    let mut cert = FromRead::new(cert);
    let mut out = IntoWrite::new(io::writer(rt));
    run_check(rt.alloc(), &mut base, &mut cert, &mut out, policy)
}

// The paths are those of the old base, its certificate, the new base and its certificate.
fn change_files<R: Files + Input + Print + AllocGlobal>(
    rt: &R,
    paths: [&str; 4],
    policy: &Policy,
) -> Result<Status, RunFault> {
    let [old, old_cert, new, new_cert] = paths;
    let old = opened(rt, old, RunFault::ReadBase)?;
    let old_cert = opened(rt, old_cert, RunFault::ReadCert)?;
    let new = opened(rt, new, RunFault::ReadNewBase)?;
    let new_cert = opened(rt, new_cert, RunFault::ReadNewCert)?;
    let mut old = FromRead::new(old);
    let mut old_cert = FromRead::new(old_cert);
    let mut new = FromRead::new(new);
    let mut new_cert = FromRead::new(new_cert);
    let mut out = IntoWrite::new(io::writer(rt));
    run_change(
        rt.alloc(),
        &mut old,
        &mut old_cert,
        &mut new,
        &mut new_cert,
        &mut out,
        policy,
    )
}

fn walk_file<R: Files + Input + Print + AllocGlobal>(
    rt: &R,
    base: &str,
    keys: &str,
    groups: &Groups,
) -> Result<Status, RunFault> {
    let base = opened(rt, base, RunFault::ReadBase)?;
    let mut base = FromRead::new(base);
    let mut out = IntoWrite::new(io::writer(rt));
    run_walk(rt.alloc(), &mut base, keys, groups, &mut out)
}

// Prints a line for each frame; the exit status.
fn list<R: Files + Input + Print + Eprint + AllocGlobal>(
    rt: &R,
    base: &str,
    form: ListForm,
    groups: &Groups,
) -> u8 {
    match list_file(rt, base, form, groups) {
        Ok(status) => status_of(&Ok(status)),
        Err(unfinished) => report(rt, base, &unfinished),
    }
}

fn list_file<R: Files + Input + Print + AllocGlobal>(
    rt: &R,
    base: &str,
    form: ListForm,
    groups: &Groups,
) -> Result<Status, Unfinished> {
    match open_base(rt, base) {
        Ok(base) => {
            let mut base = FromRead::new(base);
            let mut out = IntoWrite::new(io::writer(rt));
            let run = run_list(rt.alloc(), &mut base, form, groups, &mut out);
            ended(run, &out)
        }
        Err(unfinished) => Err(unfinished),
    }
}
