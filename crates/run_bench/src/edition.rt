//! A base's text with its certificate, and how both are read and checked.

use crate::shape::Mark;
use audit_report::{FromRead, read_whole, report};
use base_text::{MOST_TEXT, base_read};
use cert_table::Certificate;
use cert_text::CertReader;
use checker::{ChangeVerdict, Count, Policy, Verdict, check_change, check_counted};
use fault_scripts::audit;
use frame_records::{Base, Groups, Pence};
use std::alloc::Global;
use std::io::Read;

// What is asked of a certificate's file at once.
const PIECE: usize = 4_096;

/// Up to a price, with any keyings, for a caller of the groups that a mark gives.
pub fn policy(ceiling: u16, mark: Mark) -> Option<Policy> {
    let groups = match mark {
        Mark::Group => Groups::read("1,2,3,4,5,6,7,8,9,10,11,12,13,14,15,16").ok()?,
        Mark::None | Mark::Price | Mark::LongRow => Groups::none(),
    };
    Some(Policy {
        ceiling: Pence::new(ceiling)?,
        keyings: 65_535,
        groups,
    })
}

/// The base of a text that is read.
pub fn read_base(alloc: Global, mut text: impl Read + Drop) -> Option<Base> {
    match read_whole(alloc, &mut FromRead::new(&mut text), MOST_TEXT + 1) {
        Ok(text) => whole_base(alloc, text.as_slice()),
        Err(_) => None,
    }
}

/// The base of a text.
pub fn whole_base(alloc: Global, text: &[u8]) -> Option<Base> {
    match base_read(alloc, text) {
        Ok(base) => Some(base),
        Err(_) => None,
    }
}

// The pieces of a text are read in turn, up to the first that is refused.
fn is_fed(reader: &mut CertReader, text: &[u8]) -> bool {
    for piece in text.chunks(PIECE) {
        if reader.feed(piece).is_err() {
            return false;
        }
    }
    true
}

fn read_cert(alloc: Global, text: &[u8]) -> Option<Certificate> {
    let mut reader = CertReader::new(alloc);
    if is_fed(&mut reader, text) {
        reader.finish().ok()
    } else {
        None
    }
}

/// What the audit of a base prints.
pub fn audited(alloc: Global, base: &Base, policy: &Policy) -> Option<Vec<u8>> {
    match audit(alloc, base, policy) {
        Ok(outcome) => report(alloc, &outcome).ok(),
        Err(_) => None,
    }
}

/// The certificate that the audit of a text finds.
pub fn certificate(alloc: Global, text: &[u8], policy: &Policy) -> Option<Vec<u8>> {
    let base = whole_base(alloc, text)?;
    audited(alloc, &base, policy).filter(|printed| printed.as_slice().starts_with(b"PBC"))
}

/// A base's text with the certificate that the audit finds, for a caller.
#[derive(Drop)]
pub struct Edition {
    pub text: Vec<u8>,
    pub cert: Vec<u8>,
    pub policy: Policy,
}

// Both texts, read.
#[derive(Drop)]
struct Both {
    base: Base,
    cert: Certificate,
}

impl Edition {
    /// Makes the edition of a text whose frames have a mark.
    pub fn of(alloc: Global, text: Vec<u8>, mark: Mark) -> Option<Edition> {
        let policy = policy(16, mark)?;
        let cert = certificate(alloc, text.as_slice(), &policy)?;
        Some(Edition { text, cert, policy })
    }

    fn read(&self, alloc: Global) -> Option<Both> {
        let base = read_base(alloc, self.text.as_slice())?;
        match read_cert(alloc, self.cert.as_slice()) {
            Some(cert) => Some(Both { base, cert }),
            None => None,
        }
    }

    /// Both texts are read, checked and dropped: what the check compared and painted.
    pub fn count(&self, alloc: Global) -> Option<Count> {
        let both = self.read(alloc)?;
        match check_counted(&both.base, &self.policy, &both.cert) {
            (Verdict::Cleared, count) => Some(count),
            _ => None,
        }
    }

    /// Two editions of the same texts are read, the change between them is checked, and all is dropped.
    pub fn clears_change(&self, alloc: Global) -> bool {
        match self.read(alloc) {
            Some(old) => self.clears_change_from(alloc, &old),
            None => false,
        }
    }

    fn clears_change_from(&self, alloc: Global, old: &Both) -> bool {
        match self.read(alloc) {
            Some(new) => {
                check_change(&old.base, &old.cert, &new.base, &new.cert, &self.policy)
                    == ChangeVerdict::Cleared
            }
            None => false,
        }
    }
}
