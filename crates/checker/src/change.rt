ghost use Rattle.std.specs.Prelude.{◌≡◌};
ghost use Rattle.page_ids.specs.Ids.{Id};
ghost use Rattle.frame_records.specs.Bases.{IsBase};
ghost use Rattle.cert_table.specs.Table.{AreRows};
ghost use Rattle.checker.specs.Change.{lost_id, change_verdict, IsLeastLost, IsSafeChange};
ghost use Rattle.checker.specs.Good.{is_row_of};
ghost use Rattle.checker.specs.Loops.{AreBelow, IsPlaceOf};

use crate::judge::check;
use crate::policy::Policy;
use crate::verdict::{Cause, Verdict};
use cert_table::{Certificate, Cover};
use frame_records::Base;
use page_ids::FrameId;

/// What the check of a change of edition answers: the first condition that fails, in this order.
#[derive(Debug, Clone, Copy, PartialEq, Eq)]
pub enum ChangeVerdict {
    /// Callers may stay inside while the new edition takes the old one's place.
    Cleared,
    /// The old edition's own check refuses it.
    Old(Cause),
    /// The new edition's own check refuses it.
    New(Cause),
    /// E1: the entry pages differ.
    EntryMoved,
    /// E2: the smallest id with a row in the old certificate and none in the new one.
    NoLongerCovered(FrameId),
}

// The first place, from a given one on, whose row isn't before the id. All rows before the given place are.
fn place_from<C: Cover + Drop>(rows: &C, from: usize, id: FrameId) -> usize
    requires { AreBelow (C.rows rows.now) from id }
    ensures { IsPlaceOf (C.rows rows.now) id result }
{
    for at in from..rows.len() {
        if !rows.row_at(at).id.cmp(&id).is_lt() {
            return at;
        }
    }
    rows.len()
}

// Whether an id has a row, by its place.
fn has_row_at<C: Cover + Drop>(rows: &C, at: usize, id: FrameId) -> bool
    requires { IsPlaceOf (C.rows rows.now) id at }
    ensures { result ≡ is_row_of (C.rows rows.now) id }
{
    at < rows.len() && rows.row_at(at).id == id
}

// The first id with a row in the old table and none in the new one, in one pass over both: they are in the order of ids.
fn lost_id<C: Cover + Drop>(old: &C, new: &C) -> Option<FrameId>
    ensures { result ≡ lost_id (C.rows old.now) (C.rows new.now) }
{
    let mut at = 0;
    for i in 0..old.len() {
        let id = old.row_at(i).id;
        at = place_from(new, at, id);
        if !has_row_at(new, at, id) {
            return Some(id);
        }
    }
    None
}

// The first condition that fails of a change.
fn judge_change<C: Cover + Drop>(
    old: &Base,
    old_cert: &Certificate<C>,
    new: &Base,
    new_cert: &Certificate<C>,
    policy: &Policy,
) -> ChangeVerdict
    ensures verdict { result ≡ change_verdict policy.now old.now old_cert.now new.now new_cert.now }
    ensures bases { result ≡ ChangeVerdict.Cleared → IsBase old.now × IsBase new.now }
    ensures rows { (id : Id) → result ≡ ChangeVerdict.NoLongerCovered id → AreRows old_cert.now.rows }
{
    if let Verdict::Refused(cause) = check(old, policy, old_cert) {
        return ChangeVerdict::Old(cause);
    }
    if let Verdict::Refused(cause) = check(new, policy, new_cert) {
        return ChangeVerdict::New(cause);
    }
    if old.entry() != new.entry() {
        return ChangeVerdict::EntryMoved;
    }
    match lost_id(old_cert.cover(), new_cert.cover()) {
        None => ChangeVerdict::Cleared,
        Some(id) => ChangeVerdict::NoLongerCovered(id),
    }
}

/// Checks whether a new edition may take an old one's place while callers of the policy's groups are inside. Takes no memory.
///
/// Both editions are checked against their own certificates first. Their tables are then gone through once, side by side.
pub fn check_change<C: Cover + Drop>(
    old: &Base,
    old_cert: &Certificate<C>,
    new: &Base,
    new_cert: &Certificate<C>,
    policy: &Policy,
) -> ChangeVerdict
    ensures verdict { result ≡ change_verdict policy.now old.now old_cert.now new.now new_cert.now }

    // From every state whose frames have rows in the old certificate, the opening one too, after any keys in either edition:
    // nothing sought is missing or closed, over the change too.
    ensures safe { result ≡ ChangeVerdict.Cleared → IsSafeChange policy.now old.now old_cert.now new.now new_cert.now }

    // E2 names the smallest id with a row in the old certificate and none in the new one.
    ensures lost { (id : Id) → result ≡ ChangeVerdict.NoLongerCovered id →
        IsLeastLost old_cert.now.rows new_cert.now.rows id }
{
    judge_change(old, old_cert, new, new_cert, policy)
}
