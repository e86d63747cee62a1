ghost use Rattle.std.specs.Prelude.{◌≡◌};
ghost use Rattle.edition_lists.specs.EditionsStatuses.{editions_number};

use crate::fault::{EditionsFault, FolderFault};

/// What a run found.
#[derive(Debug, Clone, Copy, PartialEq, Eq)]
pub enum EditionsStatus {
    /// The editions were listed.
    Listed,
    /// All is what was published.
    Cleared,
    /// Something isn't.
    Refused,
}

/// The program's exit status: 0, or 1 if something isn't what was published; 3 a fault of a file; 4 out of memory.
pub fn status_of_editions(run: &Result<EditionsStatus, EditionsFault>) -> u8
    ensures { result ≡ editions_number run.now }
{
    match run {
        Ok(EditionsStatus::Refused) => 1,
        Ok(_) => 0,
        Err(EditionsFault::Folder(FolderFault::Memory)) => 4,
        Err(_) => 3,
    }
}
