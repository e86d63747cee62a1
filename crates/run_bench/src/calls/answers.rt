//! The texts of answers.

use audit_report::{RunFault, fault_text, report, verdict_text};
use base_text::BaseFault;
use cert_table::Certificate;
use cert_text::{CertReader, ReadFault, cert_write};
use checker::{InputFault, Policy, Verdict};
use fault_scripts::audit;
use finder::{find, script_to};
use frame_records::{Base, Groups};
use frame_screens::{FrameList, NoScreen};
use page_ids::{IdFault, KeyList, keys_text};
use std::alloc::{AllocError, Global};
use std::fmt::Debug;
use test_support::CERT;

/// The text of an answer, if there was memory for the call and for the text.
pub type Answer = Result<Vec<u8>, AllocError>;

/// A value as `{:?}` prints it.
pub fn shown<T: Debug>(alloc: Global, value: &T) -> Answer {
    Ok(format!(in alloc; "{value:?}\n")?.into_bytes())
}

pub fn of_keys(alloc: Global, keys: Result<KeyList, IdFault>) -> Answer {
    match keys {
        Ok(keys) => keys_text(alloc, &keys),
        Err(IdFault::BadKey(offset)) => fault_text(alloc, &RunFault::Keys(offset)),
        Err(_) => Err(AllocError),
    }
}

/// The report of the audit of a base that was read.
pub fn of_base(alloc: Global, base: Result<Base, BaseFault>, policy: &Policy) -> Answer {
    match base {
        Ok(base) => report(alloc, &audit(alloc, &base, policy)?),
        Err(fault) => fault_text(alloc, &RunFault::Base(fault)),
    }
}

pub fn of_cert(alloc: Global, cert: Result<Certificate, ReadFault>) -> Answer {
    match cert {
        Ok(cert) => cert_write(alloc, &cert),
        Err(fault) => fault_text(alloc, &RunFault::Cert(fault)),
    }
}

/// The certificate of a text that is fed in pieces; or why a piece is refused, and what the reader answers to all that follows.
pub fn of_fed(alloc: Global, text: &[u8], piece: usize) -> Answer {
    let mut reader = CertReader::new(alloc);
    for piece in text.chunks(piece.max(1)) {
        if let Err(fault) = reader.feed(piece) {
            return of_refused(alloc, reader, fault);
        }
    }
    of_cert(alloc, reader.finish())
}

fn of_refused(alloc: Global, mut reader: CertReader, fault: ReadFault) -> Answer {
    let mut text = fault_text(alloc, &RunFault::Cert(fault))?;
    for piece in [CERT.as_bytes(), b"", b"\n"] {
        text.extend_from_slice(shown(alloc, &reader.feed(piece))?.as_slice())?;
    }
    text.extend_from_slice(shown(alloc, &reader.finish().err())?.as_slice())?;
    Ok(text)
}

pub fn of_verdict(alloc: Global, verdict: Result<Verdict, InputFault>) -> Answer {
    match verdict {
        Ok(verdict) => verdict_text(alloc, &verdict),
        Err(InputFault::Base(fault)) => fault_text(alloc, &RunFault::Base(fault)),
        Err(InputFault::Cert(fault)) => fault_text(alloc, &RunFault::Cert(fault)),
        Err(InputFault::Memory) => Err(AllocError),
    }
}

/// The keys that lead to the frame at an index of the list of found frames; no text past its end.
pub fn of_script(alloc: Global, base: &Base, groups: &Groups, index: u32) -> Answer {
    let found = find(alloc, base, groups)?;
    if index as usize >= found.as_slice().len() {
        return Ok(Vec::new(alloc));
    }
    keys_text(alloc, &script_to(alloc, &found, index)?)
}

/// The ids of frames, a line each.
pub fn of_frames(alloc: Global, frames: FrameList) -> Answer {
    let mut text = Vec::new(alloc);
    for id in frames.as_slice() {
        text.extend_from_slice(id.text().as_str().as_bytes())?;
        text.push(b'\n')?;
    }
    Ok(text)
}

pub fn of_keyed(alloc: Global, frames: Result<FrameList, NoScreen>) -> Answer {
    match frames {
        Ok(frames) => of_frames(alloc, frames),
        Err(NoScreen::Memory) => Err(AllocError),
        Err(none) => shown(alloc, &none),
    }
}

/// The line of a run's fault, its exit status, and what it wrote. A run without memory has written nothing.
pub fn of_run<T>(alloc: Global, status: u8, run: &Result<T, RunFault>, taken: &[u8]) -> Answer {
    let mut text = match run {
        Err(RunFault::Memory) if taken.is_empty() => return Err(AllocError),
        Err(fault) => fault_text(alloc, fault)?,
        Ok(_) => Vec::new(alloc),
    };
    text.extend_from_slice(format!(in alloc; "status {status}\n")?.as_bytes())?;
    text.extend_from_slice(taken)?;
    Ok(text)
}
