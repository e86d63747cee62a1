ghost use Rattle.std.specs.Prelude.{◌≡◌, ◌++◌, IfOk, OnOk, codes, decimal};
ghost use Rattle.audit_report.specs.Lines.{ended_line};
ghost use Rattle.audit_report.specs.ReportLines.{script_text, sought_text, pressed_text, start_text, price_words, touches_words, sought_words, no_return_words, words_as, fault_lines, fault_list_text, report_text, IsReport};

use crate::push::{push_id_number, push_words_id, push_words_number};
use abstract_paint::Start;
use cert_text::cert_write;
use fault_scripts::{Fault, FaultKind, Outcome};
use page_ids::{FrameId, Key, push_key, push_keys};
use std::alloc::{AllocError, Global};

// The keys that lead to a fault.
fn push_script(out: &mut Vec<u8>, keys: &[Key]) -> Result<(), AllocError>
    ensures { OnOk result (out.new.items ≡ out.old.items ++ script_text keys.now) }
{
    match keys {
        [] => out.extend_from_slice(b" SCRIPT -"),
        _ => {
            out.extend_from_slice(b" SCRIPT ")?;
            push_keys(out, keys)
        }
    }
}

// The frame that a key seeks.
fn push_sought(out: &mut Vec<u8>, sought: Option<FrameId>) -> Result<(), AllocError>
    ensures { OnOk result (out.new.items ≡ out.old.items ++ sought_text sought) }
{
    match sought {
        None => Ok(()),
        Some(id) => push_words_id(out, b" ", id),
    }
}

// The key that is pressed.
fn push_pressed(out: &mut Vec<u8>, key: Option<Key>) -> Result<(), AllocError>
    ensures { OnOk result (out.new.items ≡ out.old.items ++ pressed_text key) }
{
    match key {
        None => Ok(()),
        Some(key) => {
            out.extend_from_slice(b" KEY ")?;
            push_key(out, key)
        }
    }
}

// The body byte that touches, and the start.
fn push_start(out: &mut Vec<u8>, start: Option<Start>) -> Result<(), AllocError>
    ensures { OnOk result (out.new.items ≡ out.old.items ++ start_text start) }
{
    match start {
        None => Ok(()),
        Some(start) => {
            push_words_number(out, b" BYTE ", start.offset as u64)?;
            push_words_number(out, b" START ", u64::from(start.at))
        }
    }
}

fn push_price(out: &mut Vec<u8>, fault: &Fault) -> Result<(), AllocError>
    ensures { OnOk result (out.new.items ≡ out.old.items ++ price_words fault.now) }
{
    push_id_number(out, b"PRICE ", fault.frame, u64::from(fault.price.get()))?;
    push_script(out, fault.script.as_slice())
}

fn push_touches(out: &mut Vec<u8>, fault: &Fault) -> Result<(), AllocError>
    ensures { OnOk result (out.new.items ≡ out.old.items ++ touches_words fault.now) }
{
    push_words_id(out, b"TOUCHES ", fault.frame)?;
    push_start(out, fault.start)?;
    push_script(out, fault.script.as_slice())
}

// A key whose frame isn't found.
fn push_unfound(out: &mut Vec<u8>, words: &[u8], fault: &Fault) -> Result<(), AllocError>
    ensures { OnOk result (out.new.items ≡ out.old.items ++ sought_words words.now fault.now) }
{
    out.extend_from_slice(words)?;
    push_sought(out, fault.sought)?;
    push_words_id(out, b" AT ", fault.frame)?;
    push_pressed(out, fault.key)?;
    push_script(out, fault.script.as_slice())
}

fn push_no_return(out: &mut Vec<u8>, fault: &Fault) -> Result<(), AllocError>
    ensures { OnOk result (out.new.items ≡ out.old.items ++ no_return_words fault.now) }
{
    push_words_id(out, b"NORETURN ", fault.frame)?;
    push_script(out, fault.script.as_slice())
}

/// Writes the line of a fault, without its newline.
pub fn push_fault(out: &mut Vec<u8>, fault: &Fault) -> Result<(), AllocError>
    ensures { OnOk result (out.new.items ≡ out.old.items ++ words_as fault.now.kind fault.now) }
{
    match fault.kind {
        FaultKind::EntryMissing => push_words_id(out, b"ENTRYMISSING ", fault.frame),
        FaultKind::EntryClosed => push_words_id(out, b"ENTRYCLOSED ", fault.frame),
        FaultKind::Price => push_price(out, fault),
        FaultKind::Touches => push_touches(out, fault),
        FaultKind::Missing => push_unfound(out, b"MISSING", fault),
        FaultKind::Closed => push_unfound(out, b"CLOSED", fault),
        FaultKind::NoReturn => push_no_return(out, fault),
    }
}

fn push_line(out: &mut Vec<u8>, fault: &Fault) -> Result<(), AllocError>
    ensures { OnOk result (out.new.items ≡ out.old.items ++ ended_line (words_as fault.now.kind fault.now)) }
{
    push_fault(out, fault)?;
    out.extend_from_slice(b"\n")
}

// How many faults there are.
fn push_count(out: &mut Vec<u8>, count: u64) -> Result<(), AllocError>
    ensures { OnOk result (out.new.items ≡ out.old.items ++ ended_line (codes "FAULTS " ++ decimal count)) }
{
    push_words_number(out, b"FAULTS ", count)?;
    out.extend_from_slice(b"\n")
}

fn push_lines(out: &mut Vec<u8>, faults: &[Fault]) -> Result<(), AllocError>
    ensures { OnOk result (out.new.items ≡ out.old.items ++ fault_lines faults.now) }
{
    for fault in faults {
        push_line(out, fault)?;
    }
    Ok(())
}

// The list of faults.
fn fault_list_text(alloc: Global, faults: &[Fault]) -> Result<Vec<u8>, AllocError>
    ensures { IfOk result (λ text. text.items ≡ fault_list_text faults.now) }
{
    let mut text = Vec::new(alloc);
    push_count(&mut text, faults.len() as u64)?;
    push_lines(&mut text, faults)?;
    Ok(text)
}

/// The text of an outcome: that of its certificate, or the number of faults and a line for each, in their order.
///
/// Linear in the text, which for faults is as long as their scripts together.
pub fn report(alloc: Global, outcome: &Outcome) -> Result<Vec<u8>, AllocError>
    ensures text { IfOk result (λ text. text.items ≡ report_text outcome.now) }
    // A certificate's text is in the grammar with it.
    ensures in_grammar { IfOk result (λ text. IsReport text.items outcome.now) }
{
    match outcome {
        Outcome::Certified(cert) => cert_write(alloc, cert),
        Outcome::Faulty(faults) => fault_list_text(alloc, faults.as_slice()),
    }
}
