ghost use Rattle.std.specs.Prelude.{◌≡◌, IfOk};
ghost use Rattle.session_machine.specs.Sessions.{opening};
ghost use Rattle.session_machine.specs.Runs.{state_after};
ghost use Rattle.frame_screens.specs.Frames.{IsKeyed, frames_sent};

use crate::list::FrameList;
use frame_records::{Base, Groups};
use page_ids::{Key, PageNo};
use session_machine::{OpenFault, Session};
use std::alloc::{AllocError, Global};
use thiserror::Error;

/// Why there is no screen after a session's keys.
#[derive(Debug, Clone, Copy, PartialEq, Eq, Error)]
pub enum NoScreen {
    /// The base lacks the entry page's frame `a`.
    #[error("the entry frame is missing")]
    EntryMissing,
    /// The entry page's frame `a` isn't open to the caller.
    #[error("the entry frame is closed")]
    EntryClosed,
    /// The caller left for this outside page.
    #[error("the caller left the base")]
    Gone(PageNo),
    /// A growth was refused.
    #[error("memory refused")]
    Memory,
}

// The frames of a session that was just opened, and where its keys leave it.
pub fn press(
    alloc: Global,
    base: &Base,
    session: &mut Session,
    keys: &[Key],
) -> Result<FrameList, AllocError>
    requires { session.old.state ≡ opening base.now }
    ensures sent { IfOk result (λ list. list ≡ frames_sent session.old.groups base.now keys.now) }
    ensures state { IfOk result (λ list.
        session.new.state ≡ state_after session.old.groups base.now (opening base.now) keys.now) }
{
    let mut list = FrameList::of(alloc, base.entry_frame())?;
    for key in keys {
        let reply = session.key(base, *key);
        list.push_sent(&reply)?;
    }
    Ok(list)
}

/// The frames that are sent to a caller of these groups who presses the keys from the entry frame on: that one, and
/// then the frame of each reply `Shown` and `Again`.
///
/// If the entry frame is missing or closed, or the caller leaves for an outside page, there is no screen.
pub fn frames_after(
    alloc: Global,
    base: &Base,
    groups: &Groups,
    keys: &[Key],
) -> Result<FrameList, NoScreen>
    ensures { IsKeyed groups.now base.now keys.now result }
{
    let mut session = match Session::open(alloc, base, groups) {
        Ok((session, _)) => session,
        Err(OpenFault::EntryMissing) => return Err(NoScreen::EntryMissing),
        Err(OpenFault::EntryClosed) => return Err(NoScreen::EntryClosed),
        Err(OpenFault::Memory) => return Err(NoScreen::Memory),
    };
    let Ok(list) = press(alloc, base, &mut session, keys) else {
        return Err(NoScreen::Memory);
    };
    match session.left() {
        None => Ok(list),
        Some(page) => Err(NoScreen::Gone(page)),
    }
}
