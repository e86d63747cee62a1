//! What is printed if a command ends without its work done.

use crate::fail;
use audit_report::RunFault;
use disk_files::{Unfinished, is_certificate};
use std::rt::Files;

// Says what helps with a base's text that is refused.
fn print_help<R: Files + Eprint>(rt: &R, path: &str) {
    let _ = if is_certificate(rt, path) {
        eprintln!(rt; "{path} is a certificate: pageaudit check BASE {path}")
    } else {
        eprintln!(rt; "pageaudit lint {path} says where")
    };
}

/// Says why a command ends without its work done, if somebody is to know it; the exit status. A base's text that is refused has its
/// fault in one line, and another says what helps.
pub fn report<R: Files + Eprint + AllocGlobal>(rt: &R, path: &str, unfinished: &Unfinished) -> u8 {
    match unfinished {
        Unfinished::Unread(reason) | Unfinished::Unwritten(reason) => {
            let _ = eprintln!(rt; "{path}: {reason}");
            3
        }
        Unfinished::Unwanted => 3,
        Unfinished::Fault(fault) => {
            let status = fail(rt, fault);
            if let RunFault::Base(_) = fault
                && status == 3
            {
                print_help(rt, path);
            }
            status
        }
    }
}

/// The same of a command that reads a base and writes a file, if one is named: that is the file of a fault of the output.
pub fn report_written<R: Files + Eprint + AllocGlobal>(
    rt: &R,
    base: &str,
    out: Option<&str>,
    unfinished: &Unfinished,
) -> u8 {
    let Some(out) = out else {
        return report(rt, base, unfinished);
    };
    match unfinished {
        Unfinished::Unwritten(_) => report(rt, out, unfinished),
        Unfinished::Fault(RunFault::Write(wrote)) => {
            let _ = eprintln!(rt; "{out}: write failed after {wrote} bytes");
            3
        }
        _ => report(rt, base, unfinished),
    }
}
