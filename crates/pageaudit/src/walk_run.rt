ghost use Rattle.std.specs.Prelude.{◌≡◌, ◌∷◌, IfOk, false};
ghost use Rattle.session_machine.specs.Runs.{replies_to, session_of};
ghost use Rattle.pageaudit.specs.Files.{device, IsTextWritten};
ghost use Rattle.pageaudit.specs.WalkRun.{IsWalkRun, IsKeysAnswer, session_text, session_status};
ghost use Rattle.pageaudit.specs.Loops.{IsSessionAnswer};

use crate::input::read_base;
use crate::output::write_text;
use audit_report::{RunFault, Sink, Source, Status, entry_text, walk_text};
use frame_records::{Base, Groups};
use page_ids::{IdFault, KeyList, keys_read};
use session_machine::{OpenFault, Reply, Session};
use std::alloc::{AllocError, Global};

/// The keys of a text. On the fault `Keys` nothing else is said of them: it carries the byte at which the first word that can't be
/// read begins.
pub fn read_keys(alloc: Global, words: &str) -> Result<KeyList, RunFault>
    ensures { IsKeysAnswer words.now result }
{
    match keys_read(alloc, words) {
        Ok(keys) => Ok(keys),
        Err(IdFault::BadKey(offset)) => Err(RunFault::Keys(offset)),
        Err(_) => Err(RunFault::Memory),
    }
}

// The opening reply, and a session's replies to the keys in order.
fn replies(
    alloc: Global,
    base: &Base,
    mut session: Session,
    opening: Reply,
    keys: &KeyList,
) -> Result<Vec<Reply>, AllocError>
    ensures { IfOk result (λ replies. replies.items
        ≡ opening ∷ replies_to session.groups base.now session.state keys.now) }
{
    let mut replies = Vec::new(alloc);
    replies.push(opening)?;
    for key in keys.as_slice() {
        replies.push(session.key(base, *key))?;
    }
    Ok(replies)
}

// The text of a whole session, and its status.
fn session_text(
    alloc: Global,
    base: &Base,
    groups: &Groups,
    keys: &KeyList,
) -> Result<(Vec<u8>, Status), AllocError>
    ensures { IfOk result (IsSessionAnswer groups.now base.now keys.now) }
{
    match Session::open(alloc, base, groups) {
        Ok((session, opening)) => {
            let replies = replies(alloc, base, session, opening, keys)?;
            Ok((walk_text(alloc, replies.as_slice())?, Status::Clear))
        }
        Err(OpenFault::EntryMissing) => Ok((
            entry_text(alloc, base.entry_frame(), false)?,
            Status::Faulty,
        )),
        Err(OpenFault::EntryClosed) => {
            Ok((entry_text(alloc, base.entry_frame(), true)?, Status::Faulty))
        }
        Err(OpenFault::Memory) => Err(AllocError),
    }
}

// Writes the session's text.
fn write_session<O: Sink>(
    alloc: Global,
    out: &mut O,
    base: &Base,
    groups: &Groups,
    keys: &KeyList,
) -> Result<Status, RunFault>
    requires { (O.seen out.old).failed ≡ false }
    ensures { let session = session_of groups.now base.now keys.now in
        IsTextWritten (device O.seen out.old out.new) (session_text base.now session) (session_status session) result }
{
    let (text, status) = session_text(alloc, base, groups, keys).map_err(|_| RunFault::Memory)?;
    write_text(out, text.as_slice(), status)
}

/// Runs a caller's keys from the entry page and writes a line for each reply, the opening one first.
///
/// The keys are read before anything is read of the base. On every fault except `Write`, nothing was written. A device is
/// not called again after it returned an error.
pub fn run_walk<B: Source, O: Sink>(
    alloc: Global,
    base: &mut B,
    keys: &str,
    groups: &Groups,
    out: &mut O,
) -> Result<Status, RunFault>
    requires base_open { (B.seen base.old).failed ≡ false }
    requires out_open { (O.seen out.old).failed ≡ false }

    // A status: the base's file was read to its end, no device failed, and the session's text and its status are those of
    // what was read. A fault: the first one, of the keys, of the base's file, or of the output.
    ensures { IsWalkRun (device B.seen base.old base.new) (device O.seen out.old out.new) groups.now keys.now result }
{
    let keys = read_keys(alloc, keys)?;
    let base = read_base(alloc, base)?;
    write_session(alloc, out, &base, groups, &keys)
}
