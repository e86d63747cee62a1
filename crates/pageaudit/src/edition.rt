//! Reads the two files of an edition.

ghost use Rattle.std.specs.Prelude.{◌≡◌, false, Ok, Err};
ghost use Rattle.pageaudit.specs.Files.{device};
ghost use Rattle.pageaudit.specs.ChangeRun.{edition_files};
ghost use Rattle.pageaudit.specs.Loops.{IsEditionRead, old_fault, new_fault};

use crate::file_fault::FileFault;
use crate::input::{read_base, read_cert};
use audit_report::{RunFault, Source};
use base_text::BaseFault;
use cert_table::Certificate;
use cert_text::ReadFault;
use frame_records::Base;
use std::alloc::Global;

/// Why the files of an edition don't give one: the first fault.
#[derive(Clone, Copy)]
pub enum EditionFault {
    /// The base's file.
    Base(FileFault<BaseFault>),
    /// The certificate's, after a whole base.
    Cert(FileFault<ReadFault>),
}

// Reads an edition: its base whole, then its certificate as far as needed. The base's text is dropped before the
// certificate is read.
pub fn read_edition<B: Source, C: Source>(
    alloc: Global,
    base: &mut B,
    cert: &mut C,
) -> Result<(Base, Certificate), EditionFault>
    requires base_open { (B.seen base.old).failed ≡ false }
    requires cert_open { (C.seen cert.old).failed ≡ false }
    ensures { IsEditionRead (edition_files (device B.seen base.old base.new) (device C.seen cert.old cert.new)) result }
{
    let base = match read_base(alloc, base) {
        Ok(base) => base,
        Err(fault) => return Err(EditionFault::Base(fault)),
    };
    match read_cert(alloc, cert) {
        Ok(cert) => Ok((base, cert)),
        Err(fault) => Err(EditionFault::Cert(fault)),
    }
}

// The run's fault, if the files are those of the old edition.
pub fn old_fault(fault: EditionFault) -> RunFault
    ensures { result ≡ old_fault fault }
{
    match fault {
        EditionFault::Base(fault) => RunFault::from(fault),
        EditionFault::Cert(fault) => RunFault::from(fault),
    }
}

// The run's fault, if the files are those of the new edition.
pub fn new_fault(fault: EditionFault) -> RunFault
    ensures { result ≡ new_fault fault }
{
    match fault {
        EditionFault::Base(FileFault::Text(fault)) => RunFault::NewBase(fault),
        EditionFault::Base(FileFault::Broken) => RunFault::ReadNewBase,
        EditionFault::Cert(FileFault::Text(fault)) => RunFault::NewCert(fault),
        EditionFault::Cert(FileFault::Broken) => RunFault::ReadNewCert,
        EditionFault::Base(FileFault::Memory) => RunFault::Memory,
        EditionFault::Cert(FileFault::Memory) => RunFault::Memory,
    }
}
