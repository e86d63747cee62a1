//! The command `publish`: the folder is opened under its lock, which is held until the program ends.

ghost use Rattle.std.specs.Prelude.{true, false};

use crate::editions_files::{share_lock, shut};
use crate::lint_files::print_counts;
use crate::pages_file::{name_of, pages_of};
use crate::reports::report;
use audit_report::{FromRead, IntoWrite, RunFault};
use command_words::{Pages, Publish as Asked};
use disk_files::{
    FolderFiles, Opened, Unfinished, flush_folder, followed, is_same_file, open_base, path_in,
    path_to, unwritten, write_policy,
};
use editions::{EditionFile, EditionFolder};
use pageaudit::View;
use policy_text::{PolicyFault, policy_read, widest_text};
use publishing::{Publish, PublishFault, PublishStatus, run_publish, status_of_publish};
use std::alloc::Global;
use std::fs::{File, OpenOptions};
use std::path::PathBuf;
use std::rt::{Files, Stderr};
use std::{fs, io};

// The files of a folder beside its editions.
const OWN_FILES: [&str; 3] = ["policy.toml", "current", "lock"];

// What happened to the folder before the run.
#[derive(Debug, Clone, Copy, PartialEq, Eq)]
enum Found {
    // It has a policy, or editions.
    Old,
    // It was made now, with a policy of the widest limits.
    Made,
    // It isn't there, or it is new, and in a dry run nothing is made.
    Missing,
}

// Why the folder can't be opened: the name of a file in it, if it is one's, and the reason.
#[derive(Clone, Copy)]
struct Shut {
    name: &'static str,
    why: Unfinished,
}

fn shut_by(name: &'static str, error: &io::Error) -> Shut {
    Shut {
        name,
        why: unwritten(error),
    }
}

// Opens the file of the lock; it is made if it isn't there. A network's file system locks only what is open for writing; who may only
// read the file can lock it elsewhere.
fn open_lock<R: Files>(rt: &R, path: &str) -> io::Result<R::File> {
    match OpenOptions::new().write(true).create(true).open(rt, path) {
        Ok(file) => Ok(file),
        Err(error) => fs::open(rt, path).map_err(|_| error),
    }
}

// Takes the lock of a folder, and waits while another program holds it. It is held while the file is open.
fn lock<R: Files<File = File>>(rt: &R, alloc: Global, folder: &str) -> io::Result<File> {
    let path = path_in(alloc, folder, "lock")?;
    let file = open_lock(rt, path.as_str())?;
    file.lock()?;
    Ok(file)
}

// Whether a folder has a file.
fn has<R: Files>(rt: &R, alloc: Global, folder: &str, name: &str) -> io::Result<bool> {
    let path = path_in(alloc, folder, name)?;
    match fs::symlink_metadata(rt, path.as_str()) {
        Ok(_) => Ok(true),
        Err(error) if error.kind() == io::ErrorKind::NotFound => Ok(false),
        Err(error) => Err(error),
    }
}

// Whether a folder is new: it has no policy, no edition and no `current`.
fn is_new<R: Files>(rt: &R, alloc: Global, folder: &str) -> io::Result<bool> {
    Ok(
        !has(rt, alloc, folder, "policy.toml")?
            && !has(rt, alloc, folder, "current")?
            && !has(rt, alloc, folder, "editions")?,
    )
}

// Writes the policy of a new folder.
fn make_policy<R: Files>(rt: &R, alloc: Global, folder: &str) -> io::Result<Found> {
    if !is_new(rt, alloc, folder)? {
        return Ok(Found::Old);
    }
    let text = widest_text(alloc)?;
    write_policy(rt, alloc, folder, text.as_slice())?;
    Ok(Found::Made)
}

// Makes the folder, with what leads to it, if it isn't there.
fn make_folder<R: Files>(rt: &R, folder: &str) -> Result<(), Shut> {
    if folder.is_empty() {
        return Err(Shut {
            name: "",
            why: Unfinished::Unwritten("no such folder"),
        });
    }
    match fs::metadata(rt, folder) {
        Ok(there) if there.is_dir() => Ok(()),
        Ok(_) => Err(Shut {
            name: "",
            why: Unfinished::Unwritten("not a folder"),
        }),
        Err(_) => match make_flushed(rt, folder) {
            Ok(()) => Ok(()),
            Err(error) => Err(shut_by("", &error)),
        },
    }
}

// The folder that has a path's last name.
fn parent<'a>(path: &'a str) -> &'a str {
    match path.trim_end_matches('/').rsplit_once('/') {
        Some(("", _)) => "/",
        Some((parent, _)) => parent,
        None => ".",
    }
}

// Makes a folder that isn't there, and flushes its name to the disk.
fn make_flushed<R: Files>(rt: &R, folder: &str) -> io::Result<()> {
    fs::create_dir_all(rt, folder)?;
    flush_folder(rt, parent(folder))
}

// A folder whose lock is held, and how it was found.
#[derive(Drop)]
struct Locked {
    // The lock's file; none of a folder that isn't there.
    lock: Option<File>,
    found: Found,
}

// Opens a folder for a dry run, which makes nothing in it: a new one is as one that isn't there.
fn open_unchanged<R: Files<File = File>>(
    rt: &R,
    alloc: Global,
    folder: &str,
) -> Result<Locked, Shut> {
    if !fs::symlink_metadata(rt, folder).is_ok() {
        return Ok(Locked {
            lock: None,
            found: Found::Missing,
        });
    }
    if let Some(why) = shut(rt, folder) {
        return Err(Shut { name: "", why });
    }
    let lock = match share_lock(rt, alloc, folder) {
        Ok(lock) => lock,
        Err(error) => return Err(shut_by("lock", &error)),
    };
    match is_new(rt, alloc, folder) {
        Ok(true) => Ok(Locked {
            lock,
            found: Found::Missing,
        }),
        Ok(false) => Ok(Locked {
            lock,
            found: Found::Old,
        }),
        Err(error) => Err(shut_by("policy.toml", &error)),
    }
}

// Opens a folder under its lock.
fn open_folder<R: Files<File = File>>(rt: &R, alloc: Global, folder: &str) -> Result<Locked, Shut> {
    match make_folder(rt, folder) {
        Ok(()) => {}
        Err(shut) => return Err(shut),
    }
    let lock = match lock(rt, alloc, folder) {
        Ok(lock) => Some(lock),
        Err(error) => return Err(shut_by("lock", &error)),
    };
    match make_policy(rt, alloc, folder) {
        Ok(found) => Ok(Locked { lock, found }),
        Err(error) => Err(shut_by("policy.toml", &error)),
    }
}

/// Says why a file of the folder stops the run; the exit status.
pub fn report_in<R: Files + Eprint + AllocGlobal>(
    rt: &R,
    folder: &str,
    name: &str,
    why: &Unfinished,
) -> u8 {
    if name.is_empty() {
        return report(rt, folder, why);
    }
    match path_in(rt.alloc(), folder, name) {
        Ok(path) => report(rt, path.as_str(), why),
        Err(_) => report(rt, folder, &Unfinished::Fault(RunFault::Memory)),
    }
}

/// Says why a file of an edition stops the run; the exit status.
pub fn report_edition<R: Files + Eprint + AllocGlobal>(
    rt: &R,
    folder: &str,
    number: u32,
    name: &str,
    why: &Unfinished,
) -> u8 {
    match format!(in rt.alloc(); "{folder}/editions/{number}/{name}") {
        Ok(path) => report(rt, path.as_str(), why),
        Err(_) => report(rt, folder, &Unfinished::Fault(RunFault::Memory)),
    }
}

/// What is wrong with a `current` that names nothing.
pub const NO_NUMBER: Unfinished = Unfinished::Unread(
    "has to hold an edition's number and a line end",
);

/// What is wrong with a file that isn't there.
pub const NO_FILE: Unfinished = Unfinished::Unread("no such file");

/// What is wrong with a file of an edition that doesn't read.
pub const UNREAD: Unfinished = Unfinished::Unread("refused: it isn't what was published");

const UNCERTIFIED: Unfinished = Unfinished::Unread("the check refuses the audit's certificate");

const FULL: Unfinished = Unfinished::Unwritten("no number is left");

/// A growth was refused.
pub const MEMORY: Unfinished = Unfinished::Fault(RunFault::Memory);

/// Says what the folder's last call that failed was about; the exit status.
pub fn report_failed<'a, R: Files + Eprint + AllocGlobal>(
    rt: &R,
    store: &FolderFiles<'a, R>,
) -> u8 {
    match &store.failed {
        Some(failed) => report(rt, failed.path.as_str(), &failed.why),
        None => report(rt, store.path, &MEMORY),
    }
}

// Says why a publish ended without its work done; the exit status. A fault of the policy is printed already.
fn report_fault<'a, R: Files + Eprint + AllocGlobal>(
    rt: &R,
    asked: &Asked<'_>,
    store: &FolderFiles<'a, R>,
    fault: PublishFault,
    is_closed: bool,
) -> u8 {
    match fault {
        PublishFault::ReadBase => report(rt, asked.base, &Unfinished::Unread("read failed")),
        PublishFault::NoPolicy => report_in(rt, asked.folder, "policy.toml", &NO_FILE),
        PublishFault::Policy(_) => 3,
        PublishFault::Current => report_in(rt, asked.folder, "current", &NO_NUMBER),
        PublishFault::Missing(number, file) => {
            report_edition(rt, asked.folder, number, file.name(), &NO_FILE)
        }
        PublishFault::Unread(number, file) => {
            report_edition(rt, asked.folder, number, file.name(), &UNREAD)
        }
        PublishFault::Uncertified => report(rt, asked.base, &UNCERTIFIED),
        PublishFault::Full => report_in(rt, asked.folder, "editions", &FULL),
        PublishFault::Folder => report_failed(rt, store),
        PublishFault::Write(_) if is_closed => 3,
        PublishFault::Write(wrote) => {
            report(rt, asked.base, &Unfinished::Fault(RunFault::Write(wrote)))
        }
        PublishFault::Memory => report(rt, asked.base, &MEMORY),
    }
}

// The whole path of the file that is written at a path. There need not be such a file yet.
fn leading_to<R: Files + AllocGlobal>(rt: &R, path: &str) -> io::Result<PathBuf> {
    let file = followed(rt, path)?;
    let path = file.as_path().as_str();
    let folder = fs::canonicalize(rt, parent(path))?;
    Ok(folder.as_path().join(rt.alloc(), name_of(path))?)
}

// Whether a path leads to one of the folder's own files, or into its editions.
fn leads_into<R: Files + AllocGlobal>(rt: &R, folder: &str, path: &str) -> io::Result<bool> {
    let folder = fs::canonicalize(rt, folder)?;
    let file = leading_to(rt, path)?;
    let editions = folder.as_path().join(rt.alloc(), "editions")?;
    if file.as_path().starts_with(editions.as_path().as_str()) {
        return Ok(true);
    }
    for name in OWN_FILES {
        let own = folder.as_path().join(rt.alloc(), name)?;
        if own.as_path().as_str() == file.as_path().as_str() {
            return Ok(true);
        }
    }
    Ok(false)
}

// Whether a page would be one of the folder's own files. What leads nowhere yet isn't one now, nor is an open file of /dev.
fn is_of_folder<R: Files + AllocGlobal>(rt: &R, folder: &str, page: &str) -> io::Result<bool> {
    match leads_into(rt, folder, page) {
        Err(error)
            if matches!(
                error.kind(),
                io::ErrorKind::NotFound | io::ErrorKind::PermissionDenied
            ) => { Ok(false) }
        known => known,
    }
}

// Writes the base of an edition for a browser, by the edition's policy; the exit status.
fn write_page<'a, R: Files + Input + Print + Eprint + AllocGlobal>(
    rt: &R,
    errors: Stderr,
    asked: &Asked<'_>,
    page: &str,
    store: &mut FolderFiles<'a, R>,
    number: u32,
) -> u8 {
    let text = match store.read_file(rt.alloc(), number, EditionFile::Policy) {
        Ok(Some(text)) => text,
        Ok(None) => return report_edition(rt, asked.folder, number, "policy.toml", &NO_FILE),
        Err(_) => return report_failed(rt, &*store),
    };
    let policy = match policy_read(rt.alloc(), text.as_slice()) {
        Ok(policy) => policy,
        Err(PolicyFault::Memory) => return report(rt, asked.folder, &MEMORY),
        Err(_) => return report_edition(rt, asked.folder, number, "policy.toml", &UNREAD),
    };
    let Ok(base) = format!(in rt.alloc(); "{}/editions/{number}/base.toml", asked.folder) else {
        return report(rt, asked.folder, &MEMORY);
    };
    let whole = Pages {
        base: base.as_str(),
        policy,
        view: View::Whole,
        out: Some(page),
    };
    pages_of(rt, errors, &whole, name_of(asked.base))
}

// Why a page isn't written once its edition is there.
const OF_FOLDER: Unfinished = Unfinished::Unwritten("is one of the folder's own files");

// Writes the page that is asked for, of the edition that is served now, whose files are there by now; the exit status.
fn page_after<'a, R: Files + Input + Print + Eprint + AllocGlobal>(
    rt: &R,
    errors: Stderr,
    asked: &Asked<'_>,
    store: &mut FolderFiles<'a, R>,
    status: PublishStatus,
) -> u8 {
    match (asked.page, status) {
        (Some(page), PublishStatus::Published(number) | PublishStatus::AlreadyServed(number)) => {
            match is_of_folder(rt, asked.folder, page) {
                Ok(false) => write_page(rt, errors, asked, page, store, number),
                Ok(true) => report(rt, page, &OF_FOLDER),
                Err(error) => report(rt, page, &unwritten(&error)),
            }
        }
        _ => status_of_publish(&Ok(status)),
    }
}

// Publishes a base into a folder whose lock is held; the exit status.
fn publish_into<R: Files + Input + Print + Eprint + AllocGlobal + Clone + Drop>(
    rt: &R,
    errors: Stderr,
    asked: &Asked<'_>,
    found: Found,
    base: Opened<R::File, R::Reader>,
) -> u8 {
    let Ok(policy_path) = path_in(rt.alloc(), asked.folder, "policy.toml") else {
        return report(rt, asked.folder, &MEMORY);
    };
    let mut base = FromRead::new(base);
    let mut store = FolderFiles::locked(rt, asked.folder, found == Found::Missing);
    let mut out = IntoWrite::new(io::writer(rt));
    let run = run_publish(
        rt.alloc(),
        &mut store,
        &mut base,
        &mut out,
        &Publish {
            base_path: asked.base,
            policy_path: policy_path.as_str(),
            dry_run: asked.dry_run,
            new_callers: asked.new_callers,
            deny_warnings: asked.deny_warnings,
        },
    );
    match run {
        Ok(status) => {
            if let PublishStatus::Faulty(counts) = &status {
                print_counts(rt, counts);
            }
            page_after(rt, errors, asked, &mut store, status)
        }
        Err(fault) => report_fault(rt, asked, &store, fault, out.is_closed()),
    }
}

// Says why a page can't be written at the path that is asked for, before the run; the exit status.
fn refused_page<R: Files + Eprint + AllocGlobal>(rt: &R, asked: &Asked<'_>) -> Option<u8> {
    let page = asked.page?;
    match is_of_folder(rt, asked.folder, page) {
        Ok(false) => None,
        Ok(true) => {
            let _ = eprintln!(rt; "error: --page names one of the folder's own files");
            Some(2)
        }
        Err(error) => Some(report(rt, page, &unwritten(&error))),
    }
}

/// Publishes a base into a folder, which is made if it isn't there; the exit status.
pub fn publish<R: Files<File = File> + Input + Print + Eprint + AllocGlobal + Clone + Drop>(
    rt: &R,
    errors: Stderr,
    asked: &Asked<'_>,
) -> u8 {
    if let Some(page) = asked.page
        && is_same_file(rt, path_to(asked.base), page)
    {
        let _ = eprintln!(rt; "error: --page names the base itself");
        return 2;
    }
    let base = match open_base(rt, asked.base) {
        Ok(base) => base,
        Err(unfinished) => return report(rt, asked.base, &unfinished),
    };
    let opened = if asked.dry_run {
        open_unchanged(rt, rt.alloc(), asked.folder)
    } else {
        open_folder(rt, rt.alloc(), asked.folder)
    };
    let Locked { lock, found } = match opened {
        Ok(locked) => locked,
        Err(Shut { name, why }) => return report_in(rt, asked.folder, name, &why),
    };
    if found == Found::Made {
        let _ = eprintln!(rt;
            "{}/policy.toml is new, with the widest limits: write the centre's ceiling and keyings there",
            asked.folder
        );
    }
    let status = match refused_page(rt, asked) {
        Some(status) => status,
        None => publish_into(rt, errors, asked, found, base),
    };
    drop(lock);
    status
}
