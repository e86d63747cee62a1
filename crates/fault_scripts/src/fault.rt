ghost use Rattle.std.specs.Prelude.{◌≡◌, ◌++◌, ◌∷◌, [], IfOk};
ghost use Rattle.fault_scripts.specs.Faults as spec;

use abstract_paint::Start;
use base_faults::{Fault, FaultKind};
use frame_records::Pence;
use page_ids::{FrameId, Key, KeyList};
use std::alloc::{AllocError, Global};
use std::marker::Model;

// The keys, as a list of its own.
fn copied(alloc: Global, keys: &[Key]) -> Result<KeyList, AllocError>
    ensures { IfOk result (λ list. list ≡ keys.now) }
{
    let mut list = Vec::new(alloc);
    list.extend_from_slice(keys)?;
    Ok(KeyList::of(list))
}

// The keys, and after them one more.
fn pressed(alloc: Global, keys: &[Key], key: Key) -> Result<KeyList, AllocError>
    ensures { IfOk result (λ list. list ≡ keys.now ++ key ∷ []) }
{
    let mut list = Vec::new(alloc);
    list.extend_from_slice(keys)?;
    list.push(key)?;
    Ok(KeyList::of(list))
}

// A fault of a frame to which the keys lead, without a key, a start or a price.
pub fn plain_fault(
    alloc: Global,
    kind: FaultKind,
    frame: FrameId,
    keys: &[Key],
) -> Result<Fault, AllocError>
    ensures { IfOk result (λ fault. fault ≡ spec.plain_fault kind frame keys.now) }
{
    let script = copied(alloc, keys)?;
    Ok(Fault {
        kind,
        frame,
        key: None,
        sought: None,
        script,
        start: None,
        price: Pence::FREE,
    })
}

// A frame that costs too much.
pub fn price_fault(
    alloc: Global,
    frame: FrameId,
    keys: &[Key],
    price: Pence,
) -> Result<Fault, AllocError>
    ensures { IfOk result (λ fault. fault ≡ spec.price_fault frame keys.now price) }
{
    let mut fault = plain_fault(alloc, FaultKind::Price, frame, keys)?;
    fault.price = price;
    Ok(fault)
}

// A frame that writes a service position from the start.
pub fn touch_fault(
    alloc: Global,
    frame: FrameId,
    keys: &[Key],
    start: Start,
) -> Result<Fault, AllocError>
    ensures { IfOk result (λ fault. fault ≡ spec.touch_fault frame keys.now start) }
{
    let mut fault = plain_fault(alloc, FaultKind::Touches, frame, keys)?;
    fault.start = Some(start);
    Ok(fault)
}

// A key that seeks a frame which isn't found.
pub fn key_fault(
    alloc: Global,
    kind: FaultKind,
    frame: FrameId,
    keys: &[Key],
    key: Key,
    to: FrameId,
) -> Result<Fault, AllocError>
    ensures { IfOk result (λ fault. fault ≡ spec.key_fault kind frame keys.now key to) }
{
    let again = key;
    let script = pressed(alloc, keys, again)?;
    Ok(Fault {
        kind,
        frame,
        key: Some(key),
        sought: Some(to),
        script,
        start: None,
        price: Pence::FREE,
    })
}

/// The faults of a base, in order. Contracts see the list.
#[derive(Debug, Drop)]
pub struct FaultList {
    faults: Vec<Fault>,
}

impl Model for FaultList {
    ghost use Rattle.std.specs.Prelude.{List};
    ghost use Rattle.base_faults.specs.declared.fault.Fault.{Fault};

    ghost Value = { List Fault };

    ghost view = { λ l. l.faults.items };
}

impl FaultList {
    /// The faults, in order.
    pub fn as_slice(&self) -> &[Fault]
        ensures { result.now ≡ self.now }
    {
        self.faults.as_slice()
    }

    // These faults.
    pub(crate) fn of(faults: Vec<Fault>) -> FaultList
        ensures { result ≡ faults.items }
    {
        FaultList { faults }
    }
}
