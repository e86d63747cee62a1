ghost use Rattle.std.specs.Prelude.{◌≡◌, [], length};
ghost use Rattle.audit_report.specs.FaultLines.{fault_text};
ghost use Rattle.pageaudit_c.specs.declared.status.CallStatus.TheVariants.{BadText, BadPolicy};
ghost use Rattle.pageaudit_c.specs.Calls.{IsOutOfMemory, IsAnswer, IsFaultAnswer, IsNewFaultAnswer, laid_over};

use crate::status::CallStatus;
use audit_report::{RunFault, fault_text};
use checker::InputFault;
use std::alloc::Global;

/// A status and the text that the program prints.
#[derive(Drop)]
pub struct Answer {
    pub status: CallStatus,
    pub text: Vec<u8>,
}

// Copies items, as a text's bytes, to the front of a buffer, as far as they fit; returns how many there are.
pub fn lay_over<T: Copy>(items: &[T], buffer: &mut [T]) -> usize
    ensures laid { buffer.new ≡ laid_over items.now buffer.old }
    ensures whole { result ≡ length items.now }
{
    let count = items.len().min(buffer.len());
    buffer[..count].copy_from_slice(&items[..count]);
    items.len()
}

// An answer without a text.
pub fn without_text(alloc: Global, status: CallStatus) -> Answer
    ensures status { result.status ≡ status }
    ensures text { result.text.items ≡ [] }
{
    Answer {
        status,
        text: Vec::new(alloc),
    }
}

pub fn out_of_memory(alloc: Global) -> Answer
    ensures { IsOutOfMemory result.status result.text.items }
{
    without_text(alloc, CallStatus::OutOfMemory)
}

pub fn bad_policy(alloc: Global) -> Answer
    ensures status { result.status ≡ BadPolicy }
    ensures text { result.text.items ≡ [] }
{
    without_text(alloc, CallStatus::BadPolicy)
}

// The line of a fault in a text.
fn bad_text(alloc: Global, fault: &RunFault) -> Answer
    ensures { IsAnswer BadText (fault_text fault.now) result.status result.text.items }
{
    match fault_text(alloc, fault) {
        Ok(text) => Answer {
            status: CallStatus::BadText,
            text,
        },
        Err(_) => out_of_memory(alloc),
    }
}

// The answer to a fault in the only edition's texts, or the old one's.
pub fn fault_answer(alloc: Global, fault: &InputFault) -> Answer
    ensures { IsFaultAnswer fault.now result.status result.text.items }
{
    match fault {
        InputFault::Base(fault) => bad_text(alloc, &RunFault::Base(*fault)),
        InputFault::Cert(fault) => bad_text(alloc, &RunFault::Cert(*fault)),
        InputFault::Memory => out_of_memory(alloc),
    }
}

// The answer to a fault in the new edition's texts.
pub fn new_fault_answer(alloc: Global, fault: &InputFault) -> Answer
    ensures { IsNewFaultAnswer fault.now result.status result.text.items }
{
    match fault {
        InputFault::Base(fault) => bad_text(alloc, &RunFault::NewBase(*fault)),
        InputFault::Cert(fault) => bad_text(alloc, &RunFault::NewCert(*fault)),
        InputFault::Memory => out_of_memory(alloc),
    }
}
