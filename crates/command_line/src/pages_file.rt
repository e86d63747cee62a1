//! The form `html` of `show`: into which file it goes, and what is said if there is none.

ghost use Rattle.std.specs.Prelude.{◌≡◌, false};

use crate::reports::report_written;
use crate::tell_no_page;
use audit_report::{FromRead, IntoWrite, RunFault};
use command_words::Pages;
use disk_files::{Opened, Out, Unfinished, ended, named_out, open_base};
use pageaudit::{PagesStatus, run_pages, status_of_pages};
use std::io;
use std::rt::{Files, Stderr};

/// The name of a path's file.
pub fn name_of<'a>(path: &'a str) -> &'a str {
    match path.rfind('/') {
        Some(at) => &path[at + 1..],
        None => path,
    }
}

fn pages_file<R: Files + Input + Print + AllocGlobal>(
    rt: &R,
    errors: Stderr,
    asked: &Pages,
    name: &str,
) -> Result<PagesStatus, Unfinished> {
    match open_base(rt, asked.base) {
        Ok(base) => match named_out(rt, asked.out) {
            Ok(out) => pages_to(rt, errors, base, asked, name, out),
            Err(unfinished) => Err(unfinished),
        },
        Err(unfinished) => Err(unfinished),
    }
}

fn write_to<R: Files + Input + AllocGlobal, W: io::Write>(
    rt: &R,
    base: Opened<R::File, R::Reader>,
    asked: &Pages,
    name: &str,
    out: &mut IntoWrite<W>,
) -> Result<PagesStatus, RunFault>
    requires { out.old.failed ≡ false }
{
    let mut base = FromRead::new(base);
    run_pages(rt.alloc(), &mut base, &asked.policy, &asked.view, name, out)
}

fn pages_to<R: Files + Input + Print + AllocGlobal>(
    rt: &R,
    errors: Stderr,
    base: Opened<R::File, R::Reader>,
    asked: &Pages,
    name: &str,
    out: Out<R::File>,
) -> Result<PagesStatus, Unfinished> {
    match out {
        Out::Output => {
            let mut output = IntoWrite::new(io::writer(rt));
            let run = write_to(rt, base, asked, name, &mut output);
            ended(run, &output)
        }
        Out::Errors => {
            let mut output = IntoWrite::new(io::writer(&errors));
            let run = write_to(rt, base, asked, name, &mut output);
            ended(run, &output)
        }
        Out::File(names, mut file) => {
            let run = {
                let mut output = IntoWrite::new(&mut file);
                write_to(rt, base, asked, name, &mut output)
            };
            match names.close(rt, file, run, &PagesStatus::Written) {
                Ok(status) => Ok(status),
                Err(fault) => Err(Unfinished::Fault(fault)),
            }
        }
    }
}

/// Writes a base as an HTML file, under its own name.
pub fn pages<R: Files + Input + Print + Eprint + AllocGlobal>(
    rt: &R,
    errors: Stderr,
    asked: &Pages,
) -> u8 {
    pages_of(rt, errors, asked, name_of(asked.base))
}

/// Writes a base as an HTML file, in which it has this name; a line on standard error if the base lacks the frame `a` of the page.
/// The exit status.
pub fn pages_of<R: Files + Input + Print + Eprint + AllocGlobal>(
    rt: &R,
    errors: Stderr,
    asked: &Pages,
    name: &str,
) -> u8 {
    match pages_file(rt, errors, asked, name) {
        Ok(status) => {
            if let PagesStatus::NoPage = status {
                tell_no_page(rt, &asked.view);
            }
            status_of_pages(&Ok(status))
        }
        Err(unfinished) => report_written(rt, asked.base, asked.out, &unfinished),
    }
}
