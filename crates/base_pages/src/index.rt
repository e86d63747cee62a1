//! The faults of each frame, found by its id.

ghost use Rattle.std.specs.Prelude.{◌≡◌, ◌++◌, [], false, IfOk, OnOk};
ghost use Rattle.page_ids.specs.Ids.{Id, id_eq};
ghost use Rattle.base_pages.specs.Faults.{is_entry_kind};
ghost use Rattle.base_pages.specs.Loops as spec;

use fault_scripts::{Fault, FaultKind};
use indexmap::IndexMap;
use page_ids::FrameId;
use std::alloc::{AllocError, Global};

// A frame, and the number of one of its faults, from 0.
#[derive(Clone, Copy)]
pub struct Numbered {
    pub frame: FrameId,
    pub number: usize,
}

// The numbers of faults, by their frames.
#[derive(Drop)]
pub struct FaultIndex {
    map: IndexMap<FrameId, Vec<usize>>,
}

// Whether the fault is that the entry frame isn't found.
pub fn is_entry_kind(kind: FaultKind) -> bool
    ensures { result ≡ is_entry_kind kind }
{
    match kind {
        FaultKind::EntryMissing | FaultKind::EntryClosed => true,
        FaultKind::Price
        | FaultKind::Touches
        | FaultKind::Missing
        | FaultKind::Closed
        | FaultKind::NoReturn => false,
    }
}

// Adds a fault with its number, if it is a frame's own.
fn number_one(list: &mut Vec<Numbered>, number: usize, fault: &Fault) -> Result<(), AllocError>
    ensures { OnOk result (list.new.items ≡ list.old.items ++ spec.numbered_one number fault.now) }
{
    if is_entry_kind(fault.kind) {
        return Ok(());
    }
    list.push(Numbered {
        frame: fault.frame,
        number,
    })?;
    Ok(())
}

// The faults of frames, numbered.
fn number_all(alloc: Global, faults: &[Fault]) -> Result<Vec<Numbered>, AllocError>
    ensures { IfOk result (λ list. list.items ≡ spec.numbered_faults 0 faults.now) }
{
    let mut list = Vec::new(alloc);
    for (number, fault) in faults.iter().enumerate() {
        number_one(&mut list, number, fault)?;
    }
    Ok(list)
}

impl FaultIndex {
    fn empty(alloc: Global) -> FaultIndex
        ensures { (id : Id) → spec.kept_of result id ≡ [] }
    {
        FaultIndex {
            map: IndexMap::new(alloc),
        }
    }

    // The numbers of a frame, taken out.
    fn taken(&mut self, alloc: Global, frame: FrameId) -> Vec<usize>
        ensures taken { result.items ≡ spec.kept_of self.old frame }
        ensures others { (id : Id) → id_eq frame id ≡ false → spec.kept_of self.new id ≡ spec.kept_of self.old id }
    {
        match self.map.swap_remove(&frame) {
            Some(numbers) => numbers,
            None => Vec::new(alloc),
        }
    }

    fn add(&mut self, alloc: Global, fault: Numbered) -> Result<(), AllocError>
        ensures { OnOk result ((id : Id) → spec.kept_of self.new id ≡ spec.kept_of self.old id ++
            spec.number_by fault id) }
    {
        let mut numbers = self.taken(alloc, fault.frame);
        numbers.push(fault.number)?;
        self.map.insert(fault.frame, numbers)?;
        Ok(())
    }

    fn of_numbered(alloc: Global, list: &[Numbered]) -> Result<FaultIndex, AllocError>
        ensures { IfOk result (λ index. (id : Id) → spec.kept_of index id ≡ spec.numbers_of list.now id) }
    {
        let mut index = FaultIndex::empty(alloc);
        for fault in list {
            index.add(alloc, *fault)?;
        }
        Ok(index)
    }

    // The index of faults.
    pub fn of(alloc: Global, faults: &[Fault]) -> Result<FaultIndex, AllocError>
        ensures { IfOk result (λ index. (id : Id) → spec.kept_of index id ≡
            spec.numbers_of (spec.numbered_faults 0 faults.now) id) }
    {
        let list = number_all(alloc, faults)?;
        FaultIndex::of_numbered(alloc, list.as_slice())
    }

    // The numbers of a frame's faults, ascending.
    pub fn numbers(&self, id: FrameId) -> &[usize]
        ensures { result.now ≡ spec.kept_of self.now id }
    {
        match self.map.get(&id) {
            Some(numbers) => numbers.as_slice(),
            None => &[],
        }
    }
}
