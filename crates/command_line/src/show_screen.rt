//! The command `show`: in which form, into which file, and what is said if there is no screen.

use crate::reports::report_written;
use audit_report::{FromRead, IntoWrite, RunFault};
use command_words::Show;
use disk_files::{Opened, Out, Unfinished, ended, named_out, open_base, shows_colours};
use frame_records::Groups;
use page_ids::FrameId;
use pageaudit::{Form, ShowStatus, Target, read_keys, run_show, status_of_show};
use std::io;
use std::rt::{Env, Files, Stderr};

// The form that was asked for, or the one that suits standard output.
fn form_of<R: Files + Env + AllocGlobal>(rt: &R, asked: &Show) -> Result<Form, RunFault> {
    match asked.form {
        Some(form) => Ok(form),
        None if shows_colours(rt)? => Ok(Form::Ansi),
        None => Ok(Form::Text),
    }
}

// Which screen was asked for. Keys are read once the base's file is open.
fn target_of<R: AllocGlobal>(rt: &R, asked: &Show) -> Result<Target, RunFault> {
    if let Some(words) = asked.keys {
        return match read_keys(rt.alloc(), words) {
            Ok(keys) => Ok(Target::Keys(keys)),
            Err(fault) => Err(fault),
        };
    }
    match asked.frame {
        Some(id) => Ok(Target::Frame(id)),
        None => Ok(Target::Entry),
    }
}

// Which screen was asked for, in which form.
fn screen_of<R: Files + Env + AllocGlobal>(
    rt: &R,
    asked: &Show,
) -> Result<(Target, Form), RunFault> {
    let target = target_of(rt, asked)?;
    Ok((target, form_of(rt, asked)?))
}

// Writes the screen to standard output, or to the file that is named.
fn show_file<R: Files + Env + Input + Print + AllocGlobal>(
    rt: &R,
    errors: Stderr,
    asked: &Show,
) -> Result<ShowStatus, Unfinished> {
    match open_base(rt, asked.base) {
        Ok(base) => show_opened(rt, errors, asked, base),
        Err(unfinished) => Err(unfinished),
    }
}

fn show_opened<R: Files + Env + Input + Print + AllocGlobal>(
    rt: &R,
    errors: Stderr,
    asked: &Show,
    base: Opened<R::File, R::Reader>,
) -> Result<ShowStatus, Unfinished> {
    let (target, form) = match screen_of(rt, asked) {
        Ok(screen) => screen,
        Err(fault) => return Err(Unfinished::Fault(fault)),
    };
    match named_out(rt, asked.out) {
        Ok(out) => show_to(rt, errors, base, (&target, form, &asked.groups), out),
        Err(unfinished) => Err(unfinished),
    }
}

fn show_to<R: Files + Input + Print + AllocGlobal>(
    rt: &R,
    errors: Stderr,
    base: Opened<R::File, R::Reader>,
    (target, form, groups): (&Target, Form, &Groups),
    out: Out<R::File>,
) -> Result<ShowStatus, Unfinished> {
    let mut base = FromRead::new(base);
    match out {
        Out::Output => {
            let mut output = IntoWrite::new(io::writer(rt));
            let run = run_show(rt.alloc(), &mut base, groups, target, form, &mut output);
            ended(run, &output)
        }
        Out::Errors => {
            let mut output = IntoWrite::new(io::writer(&errors));
            let run = run_show(rt.alloc(), &mut base, groups, target, form, &mut output);
            ended(run, &output)
        }
        Out::File(names, mut file) => {
            let run = {
                let mut output = IntoWrite::new(&mut file);
                run_show(rt.alloc(), &mut base, groups, target, form, &mut output)
            };
            match names.close(rt, file, run, &ShowStatus::Shown) {
                Ok(status) => Ok(status),
                Err(fault) => Err(Unfinished::Fault(fault)),
            }
        }
    }
}

fn print_id<R: Eprint>(rt: &R, word: &str, id: FrameId) {
    let text = id.text();
    let _ = eprintln!(rt; "{word} {}", text.as_str());
}

// The frame that the base lacks, and the one that was probably meant.
fn print_no_frame<R: Eprint>(rt: &R, id: FrameId, near: Option<FrameId>) {
    let id = id.text();
    match near {
        Some(near) => {
            let near = near.text();
            let _ = eprintln!(rt;
                "error: the base has no frame {}; did you mean {}?",
                id.as_str(),
                near.as_str()
            );
        }
        None => {
            let _ = eprintln!(rt; "error: the base has no frame {}", id.as_str());
        }
    }
}

// Says why there is no screen, if there is none.
fn print_no_screen<R: Eprint>(rt: &R, asked: &Show, status: ShowStatus) {
    match status {
        ShowStatus::Shown => {}
        ShowStatus::EntryMissing(id) => print_id(rt, "ENTRYMISSING", id),
        ShowStatus::EntryClosed(id) => print_id(rt, "ENTRYCLOSED", id),
        ShowStatus::Gone(page) => {
            let page = page.text();
            let _ = eprintln!(rt; "GONE {}", page.as_str());
        }
        ShowStatus::NoFrame(near) => {
            if let Some(id) = asked.frame {
                print_no_frame(rt, id, near);
            }
        }
    }
}

// Says why there is no screen, if there is none; the exit status.
fn shown<R: Eprint>(rt: &R, asked: &Show, run: &Result<ShowStatus, RunFault>) -> u8 {
    if let Ok(status) = run {
        print_no_screen(rt, asked, *status);
    }
    status_of_show(run)
}

/// Shows a screen, or says in a line on standard error why there is none; the exit status.
pub fn show<R: Files + Env + Input + Print + Eprint + AllocGlobal>(
    rt: &R,
    errors: Stderr,
    asked: &Show,
) -> u8 {
    match show_file(rt, errors, asked) {
        Ok(status) => shown(rt, asked, &Ok(status)),
        Err(unfinished) => report_written(rt, asked.base, asked.out, &unfinished),
    }
}
