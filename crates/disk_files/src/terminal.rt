//! Whether standard output shows colours.

use audit_report::RunFault;
use std::os::unix::fs::FileTypeExt;
use std::rt::{Env, Files};
use std::{env, fs, io};

// Standard output's file.
const OUTPUT: &str = "/proc/self/fd/1";

// Whether a path is a terminal's.
fn is_terminal_path(path: &str) -> bool {
    path.starts_with("/dev/pts/") || path.starts_with("/dev/tty") || path == "/dev/console"
}

// Whether standard output is a terminal: a character device with such a name. Without /proc it isn't known to be one.
fn is_terminal<R: Files + AllocGlobal>(rt: &R) -> Result<bool, RunFault> {
    match fs::read_link(rt, OUTPUT) {
        Ok(path) if is_terminal_path(path.as_path().as_str()) => Ok(is_device(rt)),
        Err(error) if error.kind() == io::ErrorKind::OutOfMemory => Err(RunFault::Memory),
        _ => Ok(false),
    }
}

fn is_device<R: Files>(rt: &R) -> bool {
    match fs::metadata(rt, OUTPUT) {
        Ok(output) => output.file_type().is_char_device(),
        Err(_) => false,
    }
}

// Whether the environment allows colours: an empty NO_COLOR does.
fn allows_colours<R: Env + AllocGlobal>(rt: &R) -> Result<bool, RunFault> {
    match env::var(rt, "NO_COLOR") {
        Ok(value) => Ok(value.is_empty()),
        Err(env::VarError::NotPresent) => Ok(true),
        Err(env::VarError::NotUnicode) => Ok(false),
        Err(env::VarError::OutOfMemory) => Err(RunFault::Memory),
    }
}

/// Whether standard output is a terminal, and the environment allows colours.
pub fn shows_colours<R: Files + Env + AllocGlobal>(rt: &R) -> Result<bool, RunFault> {
    Ok(is_terminal(rt)? && allows_colours(rt)?)
}
