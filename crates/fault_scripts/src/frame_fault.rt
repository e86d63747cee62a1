ghost use Rattle.std.specs.Prelude.{◌≡◌, IfOk, option_map};
ghost use Rattle.abstract_paint.specs.Paint.{paint_of};
ghost use Rattle.abstract_paint.specs.Start.{start_of};
ghost use Rattle.fault_scripts.specs.declared.frame_fault.FrameFault.TheVariants as wrong;
ghost use Rattle.fault_scripts.specs.Loops.{fault_of, over_price, way_fault, is_far, return_fault};

use crate::fault::{key_fault, plain_fault, price_fault, touch_fault};
use abstract_paint::{Painted, Start, start_at};
use base_faults::{Fault, FaultKind};
use frame_records::{Destination, Frame, Pence};
use page_ids::{FrameId, Key, Way};
use std::alloc::{AllocError, Global};

// What is wrong at a frame.
#[derive(Clone, Copy)]
pub enum FrameFault {
    // It costs this, which is above the ceiling.
    Price(Pence),
    // From this start, the least, it writes a service position.
    Touches(Start),
    // The way seeks this frame, which the base lacks, and isn't one to an outside page.
    Missing(Way, FrameId),
    // The way seeks this frame, which isn't open to the caller.
    Closed(Way, FrameId),
    // The way back is too long, or there is none.
    NoReturn,
}

impl FrameFault {
    // The fault of a frame to which the keys lead.
    pub fn fault(&self, alloc: Global, frame: FrameId, keys: &[Key]) -> Result<Fault, AllocError>
        ensures { IfOk result (λ fault. fault ≡ fault_of frame keys.now self.now) }
    {
        match self {
            FrameFault::Price(price) => price_fault(alloc, frame, keys, *price),
            FrameFault::Touches(start) => touch_fault(alloc, frame, keys, *start),
            FrameFault::Missing(way, to) => {
                key_fault(alloc, FaultKind::Missing, frame, keys, way.key(), *to)
            }
            FrameFault::Closed(way, to) => {
                key_fault(alloc, FaultKind::Closed, frame, keys, way.key(), *to)
            }
            FrameFault::NoReturn => plain_fault(alloc, FaultKind::NoReturn, frame, keys),
        }
    }
}

// A price above the ceiling.
pub fn over_price(ceiling: Pence, price: Pence) -> Option<FrameFault>
    ensures { result ≡ over_price ceiling price }
{
    if price > ceiling {
        Some(FrameFault::Price(price))
    } else {
        None
    }
}

// The least start that touches, of a frame that was painted.
pub fn touch_start(frame: &Frame, painted: Painted) -> Option<FrameFault>
    requires { painted ≡ paint_of frame.now.lead frame.now.body }
    ensures { result ≡ option_map wrong.Touches (start_of frame.now.lead frame.now.body painted) }
{
    match painted {
        Painted::Clean(_) => None,
        Painted::Touches(offset) => {
            start_at(frame.lead, frame.body.as_slice(), offset).map(|start| FrameFault::Touches(
                start,
            ))
        }
    }
}

// A way by its destination.
pub fn way_fault(way: &Way, destination: Destination) -> Option<FrameFault>
    ensures { result ≡ way_fault way.now destination }
{
    match destination {
        Destination::Closed(to) => Some(FrameFault::Closed(*way, to)),
        Destination::Missing(to) => Some(FrameFault::Missing(*way, to)),
        Destination::NotOffered | Destination::Found(_, _) | Destination::Outside(_) => None,
    }
}

// Whether a rank is above the keyings, or there is none.
fn is_far(keyings: u16, rank: Option<u16>) -> bool
    ensures { result ≡ is_far keyings rank }
{
    match rank {
        Some(rank) => rank > keyings,
        None => true,
    }
}

// A way back that is too long.
pub fn return_fault(keyings: u16, rank: Option<u16>) -> Option<FrameFault>
    ensures { result ≡ return_fault keyings rank }
{
    if is_far(keyings, rank) {
        Some(FrameFault::NoReturn)
    } else {
        None
    }
}
