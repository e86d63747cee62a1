//! A folder of editions as a device: what reads it, and what writes it.

ghost use Rattle.std.specs.Prelude.{◌≡◌, true, map, IfOk, IfSome};
ghost use Rattle.editions.specs.Folders.{SeenFolder, FolderStep, RemoveParts, WriteEdition, SetCurrent, IsLater, ShowsFile, TakesStep, file_at};

use crate::edition_file::EditionFile;
use crate::whole_edition::WholeEdition;
use std::alloc::Global;
use thiserror::Error;

/// Why a call on a folder wasn't done, or not to its end.
#[derive(Debug, Clone, Copy, PartialEq, Eq, Error)]
pub enum StoreFault {
    /// The system refused it.
    #[error("the folder failed")]
    Broken,
    /// A growth was refused.
    #[error("memory refused")]
    Memory,
}

/// A folder of editions that is read. Others may publish between two calls, unless its lock is held.
pub trait EditionFolder {
    /// What is in it, if it shows that, and whether its lock is held.
    ghost seen: { Self → SeenFolder };

    /// The bytes of `current`; `None` if there is no such file.
    fn read_current(&mut self, alloc: Global) -> Result<Option<Vec<u8>>, StoreFault>
        ensures later { IsLater (seen self.old) (seen self.new) }
        ensures read { IfOk result (ShowsFile (seen self.new) (λ f. f.current)) };

    /// The bytes of the folder's own policy.toml; `None` if there is no such file.
    fn read_policy(&mut self, alloc: Global) -> Result<Option<Vec<u8>>, StoreFault>
        ensures later { IsLater (seen self.old) (seen self.new) }
        ensures read { IfOk result (ShowsFile (seen self.new) (λ f. f.policy)) };

    /// The bytes of a file of an edition; `None` if there is no such file or no such edition.
    fn read_file(
        &mut self,
        alloc: Global,
        number: u32,
        file: EditionFile,
    ) -> Result<Option<Vec<u8>>, StoreFault>
        ensures later { IsLater (seen self.old) (seen self.new) }
        ensures read { IfOk result (ShowsFile (seen self.new) (λ f. file_at f number file)) };
}

/// A folder of editions that is written. A call that fails has stopped at some moment of its step.
pub trait EditionStore: EditionFolder {
    /// The numbers of the editions.
    fn numbers(&mut self, alloc: Global) -> Result<Vec<u32>, StoreFault>
        ensures later { IsLater (Self.seen self.old) (Self.seen self.new) }
        ensures read { IfOk result (λ numbers. IfSome (Self.seen self.new).state (λ f. numbers.items ≡
            map (λ e. e.0) f.editions)) };

    /// Removes the parts that a stop left.
    fn remove_parts(&mut self, alloc: Global) -> Result<(), StoreFault>
        requires { (Self.seen self.old).held ≡ true }
        ensures { TakesStep RemoveParts (Self.seen self.old) (Self.seen self.new) result };

    /// Writes a whole edition: first as a part, all of which is flushed to the disk, which then gets the edition's name.
    fn write_edition(
        &mut self,
        alloc: Global,
        number: u32,
        edition: &WholeEdition,
    ) -> Result<(), StoreFault>
        requires { (Self.seen self.old).held ≡ true }
        ensures { TakesStep (WriteEdition number edition.now) (Self.seen self.old) (Self.seen self.new) result };

    /// Makes an edition current, by a rename.
    fn set_current(&mut self, alloc: Global, number: u32) -> Result<(), StoreFault>
        requires { (Self.seen self.old).held ≡ true }
        ensures { TakesStep (SetCurrent number) (Self.seen self.old) (Self.seen self.new) result };
}
