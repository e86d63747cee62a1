//! Lists of faults, and the cell that a frame wrongly writes.

ghost use Rattle.std.specs.Prelude.{◌≡◌, ◌++◌, ◌∷◌, [], OnOk};
ghost use Rattle.screens.specs.Svg.{markup};
ghost use Rattle.base_pages.specs.Faults as spec;
ghost use Rattle.base_pages.specs.Faults.{picked};
ghost use Rattle.base_pages.specs.Loops.{numbered_item, numbered_items, entry_item, entry_items, numbered_start, first_numbered_start};

use crate::element::{push_element, push_wrapped};
use crate::index::is_entry_kind;
use abstract_paint::Start;
use audit_report::push_fault;
use fault_scripts::Fault;
use frame_records::Frame;
use std::alloc::{AllocError, Global};
use terminal_codes::{Caret, lead_bytes};

fn push_item(alloc: Global, out: &mut Vec<u8>, fault: &Fault) -> Result<(), AllocError>
    ensures { OnOk result (out.new.items ≡ out.old.items ++ markup (spec.item fault.now)) }
{
    let mut line = Vec::new(alloc);
    push_fault(&mut line, fault)?;
    push_element(out, b"li", &[], line.as_slice())
}

// The line of the fault of a number, if there is one.
fn push_numbered(
    alloc: Global,
    out: &mut Vec<u8>,
    faults: &[Fault],
    number: usize,
) -> Result<(), AllocError>
    ensures { OnOk result (out.new.items ≡ out.old.items ++ numbered_item faults.now number) }
{
    match faults.get(number) {
        Some(fault) => push_item(alloc, out, fault),
        None => Ok(()),
    }
}

// The lines of the faults of numbers.
fn push_items(
    alloc: Global,
    out: &mut Vec<u8>,
    faults: &[Fault],
    numbers: &[usize],
) -> Result<(), AllocError>
    ensures { OnOk result (out.new.items ≡ out.old.items ++ numbered_items faults.now numbers.now) }
{
    for number in numbers {
        push_numbered(alloc, out, faults, *number)?;
    }
    Ok(())
}

// The list of the faults of numbers.
#[tactic(auto, using(crate::proofs::Numbering::items_picked))]
pub fn push_faults(
    alloc: Global,
    out: &mut Vec<u8>,
    faults: &[Fault],
    numbers: &[usize],
) -> Result<(), AllocError>
    ensures { OnOk result (out.new.items ≡ out.old.items ++ markup (spec.fault_list (picked faults.now numbers.now))) }
{
    let mut items = Vec::new(alloc);
    push_items(alloc, &mut items, faults, numbers)?;
    push_wrapped(out, b"faults", items.as_slice())
}

// The line of a fault, if it is that the entry frame isn't found.
fn push_entry_item(alloc: Global, out: &mut Vec<u8>, fault: &Fault) -> Result<(), AllocError>
    ensures { OnOk result (out.new.items ≡ out.old.items ++ entry_item fault.now) }
{
    if is_entry_kind(fault.kind) {
        push_item(alloc, out, fault)
    } else {
        Ok(())
    }
}

fn push_entry_items(alloc: Global, out: &mut Vec<u8>, faults: &[Fault]) -> Result<(), AllocError>
    ensures { OnOk result (out.new.items ≡ out.old.items ++ entry_items faults.now) }
{
    for fault in faults {
        push_entry_item(alloc, out, fault)?;
    }
    Ok(())
}

// The list of those that the entry frame isn't found.
#[tactic(auto, using(crate::proofs::Numbering::entry_items_are))]
pub fn push_entry_faults(
    alloc: Global,
    out: &mut Vec<u8>,
    faults: &[Fault],
) -> Result<(), AllocError>
    ensures { OnOk result (out.new.items ≡ out.old.items ++ markup (spec.fault_list (spec.entry_faults faults.now))) }
{
    let mut items = Vec::new(alloc);
    push_entry_items(alloc, &mut items, faults)?;
    push_wrapped(out, b"faults", items.as_slice())
}

// The start that the fault of a number names.
fn start_at(faults: &[Fault], number: usize) -> Option<Start>
    ensures { result ≡ numbered_start faults.now number }
{
    match faults.get(number) {
        Some(fault) => fault.start,
        None => None,
    }
}

// The first start that the faults of numbers name.
fn first_start(faults: &[Fault], numbers: &[usize]) -> Option<Start>
    ensures { result ≡ first_numbered_start faults.now numbers.now }
{
    for number in numbers {
        if let Some(start) = start_at(faults, *number) {
            return Some(start);
        }
    }
    None
}

// The first cell that the byte of a start writes.
fn cell_of(frame: &Frame, start: &Start) -> Option<u16>
    ensures { result ≡ spec.cell_by frame.now (Some start.now) }
{
    if start.at >= 960 {
        return None;
    }
    let body = frame.body.as_slice();
    if body.get(start.offset).copied().unwrap_or(0) == 0x0c {
        return Some(0);
    }
    let caret = Caret {
        at: start.at,
        pending: start.pending,
    };
    let before = &body[..start.offset.min(body.len())];
    Some(caret.run(lead_bytes(frame.lead)).run(before).at)
}

// The cell that a frame with the faults of numbers wrongly writes.
#[tactic(auto, using(crate::proofs::Numbering::start_picked))]
pub fn touched_cell(frame: &Frame, faults: &[Fault], numbers: &[usize]) -> Option<u16>
    ensures { result ≡ spec.touched_cell frame.now (picked faults.now numbers.now) }
{
    let start = first_start(faults, numbers)?;
    cell_of(frame, &start)
}
