ghost use Rattle.std.specs.Prelude.{◌≡◌};
ghost use Rattle.pageaudit.specs.Loops.{base_fault, cert_fault, source_fault};

use audit_report::{RunFault, SourceFault};
use base_text::BaseFault;
use cert_text::ReadFault;

/// Why a file gives neither a base nor a certificate.
#[derive(Clone, Copy)]
pub enum FileFault<F> {
    /// Its text is refused.
    Text(F),
    /// A read of it failed.
    Broken,
    /// A growth was refused.
    Memory,
}

impl<F> From<SourceFault> for FileFault<F> {
    ghost from_gives = { λ fault e. e ≡ source_fault fault };

    fn from(fault: SourceFault) -> FileFault<F> {
        match fault {
            SourceFault::Broken => FileFault::Broken,
            SourceFault::Memory => FileFault::Memory,
        }
    }
}

// The run's fault, if the file is the base.
impl From<FileFault<BaseFault>> for RunFault {
    ghost from_gives = { λ fault e. e ≡ base_fault fault };

    fn from(fault: FileFault<BaseFault>) -> RunFault {
        match fault {
            FileFault::Text(fault) => RunFault::Base(fault),
            FileFault::Broken => RunFault::ReadBase,
            FileFault::Memory => RunFault::Memory,
        }
    }
}

// The run's fault, if the file is the certificate.
impl From<FileFault<ReadFault>> for RunFault {
    ghost from_gives = { λ fault e. e ≡ cert_fault fault };

    fn from(fault: FileFault<ReadFault>) -> RunFault {
        match fault {
            FileFault::Text(fault) => RunFault::Cert(fault),
            FileFault::Broken => RunFault::ReadCert,
            FileFault::Memory => RunFault::Memory,
        }
    }
}
