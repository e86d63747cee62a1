ghost use Rattle.fault_scripts.specs.Shows.{IsReplayed};

use frame_records::{Base, Groups};
use page_ids::{FrameId, KeyList};
use session_machine::{OpenFault, Reply, Session};
use std::alloc::Global;

/// The result of a session of some keys.
#[derive(Debug, Clone, Copy, PartialEq, Eq)]
pub struct Replayed {
    /// The reply to the last key; without keys the opening one.
    pub last: Reply,
    /// The present frame; `None` if the caller left.
    pub at: Option<FrameId>,
}

/// Runs keys from the entry frame, by a caller of exactly these groups.
///
/// `EntryMissing` and `EntryClosed` if no session can be opened.
pub fn replay(
    alloc: Global,
    base: &Base,
    groups: &Groups,
    keys: &KeyList,
) -> Result<Replayed, OpenFault>
    ensures { IsReplayed groups.now base.now keys.now result }
{
    let (mut session, opened) = Session::open(alloc, base, groups)?;
    let mut last = opened;
    for key in keys.as_slice() {
        last = session.key(base, *key);
    }
    Ok(Replayed {
        last,
        at: session.at(),
    })
}
