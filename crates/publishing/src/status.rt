ghost use Rattle.std.specs.Prelude.{◌≡◌};
ghost use Rattle.publishing.specs.ExitStatus.{publish_number};

use crate::fault::PublishFault;
use lint::Counts;

/// What a publish did.
#[derive(Debug, Clone, Copy, PartialEq, Eq)]
pub enum PublishStatus {
    /// The edition of this number was written and is current.
    Published(u32),
    /// A dry run: the edition of this number would be written.
    Passed(u32),
    /// The edition of this number is served, and has these texts.
    AlreadyServed(u32),
    /// The base isn't published because of these findings.
    Faulty(Counts),
    /// The change from the edition that is served is refused.
    Refused,
}

/// The program's exit status: 0 if these texts are served now, or would be after a dry run; 1 if they are refused; 3 a fault of a
/// file; 4 out of memory.
pub fn status_of_publish(run: &Result<PublishStatus, PublishFault>) -> u8
    ensures { result ≡ publish_number run.now }
{
    match run {
        Ok(PublishStatus::Faulty(_) | PublishStatus::Refused) => 1,
        Ok(_) => 0,
        Err(PublishFault::Memory) => 4,
        Err(_) => 3,
    }
}
