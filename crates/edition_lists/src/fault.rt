use checker::{ChangeVerdict, Verdict};
use edition_checks::ServedFault;
use editions::{EditionFile, StoreFault};
use std::alloc::AllocError;
use thiserror::Error;

/// Why a folder isn't read to its last edition.
#[derive(Debug, Clone, Copy, PartialEq, Eq, Error)]
pub enum FolderFault {
    /// `current` names no number: it may be half written.
    #[error("current: no number of an edition")]
    Current,
    /// The edition of this number lacks the file.
    #[error("an edition lacks a file")]
    Missing(u32, EditionFile),
    /// The file of the edition of this number doesn't read.
    #[error("an edition doesn't read")]
    Unread(u32, EditionFile),
    /// A call of the folder failed.
    #[error("the folder failed")]
    Broken,
    /// A growth was refused.
    #[error("memory refused")]
    Memory,
}

impl From<StoreFault> for FolderFault {
    fn from(fault: StoreFault) -> FolderFault {
        match fault {
            StoreFault::Broken => FolderFault::Broken,
            StoreFault::Memory => FolderFault::Memory,
        }
    }
}

impl From<AllocError> for FolderFault {
    fn from(_e: AllocError) -> FolderFault {
        FolderFault::Memory
    }
}

/// Why a run ends without its work done.
#[derive(Debug, Clone, Copy, PartialEq, Eq, Error)]
pub enum EditionsFault {
    /// The folder isn't read to its last edition; nothing was written.
    #[error("the folder isn't read")]
    Folder(FolderFault),
    /// The writer failed; how many bytes it took before.
    #[error("write failed after {0} bytes")]
    Write(u64),
}

/// What is wrong with an edition.
#[derive(Clone, Copy)]
pub enum EditionFlaw {
    /// The file isn't there.
    Missing(EditionFile),
    /// The text of the file doesn't read.
    Unread(EditionFile),
    /// The file's sum is another than SHA256SUMS has; or SHA256SUMS itself isn't four sums.
    Sum(EditionFile),
    /// The check refuses the edition by its own policy.
    Refused(Verdict),
    /// It follows the edition of this number, which isn't there.
    FollowsNone(u32),
    /// It follows the edition of this number, which isn't before it.
    FollowsLater(u32),
    /// It follows the edition of this number, of which a file is missing or doesn't read.
    FollowsWrong(u32),
    /// Its policy is for callers of other groups than that of the edition of this number, which it follows.
    OtherGroups(u32),
    /// The change from the edition of this number, which it follows, is refused.
    ChangeRefused(u32, ChangeVerdict),
    /// It follows the edition of this number, and comes after the one that is served; so `current` isn't the last of
    /// its chain.
    Passed(u32),
}

/// Why the files of an edition end a run.
pub(crate) fn kept_fault(number: u32, fault: ServedFault) -> FolderFault {
    match fault {
        ServedFault::Missing(file) => FolderFault::Missing(number, file),
        ServedFault::Unread(file) => FolderFault::Unread(number, file),
        ServedFault::Folder => FolderFault::Broken,
        ServedFault::Memory => FolderFault::Memory,
    }
}
