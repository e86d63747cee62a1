use devices::SourceFault;
use edition_checks::{PutFault, ServedFault};
use editions::{EditionFile, StoreFault};
use policy_text::PolicyFault;
use std::alloc::AllocError;
use thiserror::Error;

/// Why a publish ends without its work done.
#[derive(Debug, Clone, Copy, PartialEq, Eq, Error)]
pub enum PublishFault {
    /// The base's reader failed.
    #[error("base: read failed")]
    ReadBase,
    /// The folder has no policy.toml.
    #[error("policy.toml: no such file")]
    NoPolicy,
    /// The folder's policy.toml is no policy: its first fault.
    #[error("policy.toml: no policy")]
    Policy(PolicyFault),
    /// `current` names no number: it may be half written.
    #[error("current: no number of an edition")]
    Current,
    /// A file of the edition that is served isn't there.
    #[error("the edition that is served lacks a file")]
    Missing(u32, EditionFile),
    /// A file of the edition that is served doesn't read.
    #[error("the edition that is served doesn't read")]
    Unread(u32, EditionFile),
    /// The check refuses what the audit made. No audit makes such a certificate.
    #[error("the check refuses the audit's certificate")]
    Uncertified,
    /// There is no number after 999,999,999.
    #[error("no number is left")]
    Full,
    /// A call of the folder failed.
    #[error("the folder failed")]
    Folder,
    /// The writer failed; how many bytes it took before.
    #[error("write failed after {0} bytes")]
    Write(u64),
    /// A growth was refused.
    #[error("memory refused")]
    Memory,
}

impl From<AllocError> for PublishFault {
    fn from(_fault: AllocError) -> PublishFault {
        PublishFault::Memory
    }
}

// A read of the base.
impl From<SourceFault> for PublishFault {
    fn from(fault: SourceFault) -> PublishFault {
        match fault {
            SourceFault::Broken => PublishFault::ReadBase,
            SourceFault::Memory => PublishFault::Memory,
        }
    }
}

impl From<StoreFault> for PublishFault {
    fn from(fault: StoreFault) -> PublishFault {
        match fault {
            StoreFault::Broken => PublishFault::Folder,
            StoreFault::Memory => PublishFault::Memory,
        }
    }
}

impl From<PutFault> for PublishFault {
    fn from(fault: PutFault) -> PublishFault {
        match fault {
            PutFault::Full => PublishFault::Full,
            PutFault::Folder => PublishFault::Folder,
            PutFault::Memory => PublishFault::Memory,
        }
    }
}

pub(crate) fn served_fault(number: u32, fault: ServedFault) -> PublishFault {
    match fault {
        ServedFault::Missing(file) => PublishFault::Missing(number, file),
        ServedFault::Unread(file) => PublishFault::Unread(number, file),
        ServedFault::Folder => PublishFault::Folder,
        ServedFault::Memory => PublishFault::Memory,
    }
}
