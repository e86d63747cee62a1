ghost use Rattle.std.specs.Prelude.{◌≡◌, ◌++◌, IfOk, OnOk, decimal};
ghost use Rattle.base_text.specs.Fields.{field_name};
ghost use Rattle.audit_report.specs.FaultLines.{base_cause_text, base_place_text, base_fault_text, line_cause_text, cert_fault_text, fault_words, fault_text};

use crate::push::{push_words_id, push_words_number, push_words_page};
use crate::run_fault::RunFault;
use base_text::{BaseCause, BaseFault, Field};
use cert_text::{LineCause, ReadFault};
use page_ids::push_number;
use std::alloc::{AllocError, Global};

// Words and the name of a key.
fn push_field(out: &mut Vec<u8>, words: &[u8], field: Field) -> Result<(), AllocError>
    ensures { OnOk result (out.new.items ≡ out.old.items ++ (words.now ++ field_name field)) }
{
    out.extend_from_slice(words)?;
    out.extend_from_slice(field.name().as_bytes())
}

fn push_base_cause(out: &mut Vec<u8>, cause: BaseCause) -> Result<(), AllocError>
    ensures { OnOk result (out.new.items ≡ out.old.items ++ base_cause_text cause) }
{
    match cause {
        BaseCause::TooLong => out.extend_from_slice(b"X1 TooLong"),
        BaseCause::NotToml => out.extend_from_slice(b"X2 NotToml"),
        BaseCause::UnknownKey => out.extend_from_slice(b"X3 UnknownKey"),
        BaseCause::Absent(field) => push_field(out, b"X4 Absent ", field),
        BaseCause::WrongKind(field) => push_field(out, b"X5 WrongKind ", field),
        BaseCause::Range(field) => push_field(out, b"X6 Range ", field),
        BaseCause::BodyAndRows => out.extend_from_slice(b"X7 BodyAndRows"),
        BaseCause::RowTooLong => out.extend_from_slice(b"X8 RowTooLong"),
        BaseCause::RowCode => out.extend_from_slice(b"X9 RowCode"),
        BaseCause::BadFrame => out.extend_from_slice(b"I2 BadFrame"),
        BaseCause::TooMany => out.extend_from_slice(b"B4 TooMany"),
        BaseCause::BodyTooLong(id) => push_words_id(out, b"B5 BodyTooLong ", id),
        BaseCause::NextAfterZ(id) => push_words_id(out, b"B3 NextAfterZ ", id),
        BaseCause::Duplicate(id) => push_words_id(out, b"B1 Duplicate ", id),
        BaseCause::OutsideInside(page) => push_words_page(out, b"B2 OutsideInside ", page),
        BaseCause::Memory => out.extend_from_slice(b"memory refused"),
    }
}

fn push_base_place(out: &mut Vec<u8>, frame: Option<u32>) -> Result<(), AllocError>
    ensures { OnOk result (out.new.items ≡ out.old.items ++ base_place_text frame) }
{
    match frame {
        None => out.extend_from_slice(b"base: ")?,
        Some(index) => {
            out.extend_from_slice(b"base: frame ")?;
            push_number(out, u64::from(index))?;
            out.extend_from_slice(b": ")?;
        }
    }
    Ok(())
}

fn push_base_fault(out: &mut Vec<u8>, edition: &[u8], fault: &BaseFault) -> Result<(), AllocError>
    ensures { OnOk result (out.new.items ≡ out.old.items ++ base_fault_text edition.now fault.now) }
{
    out.extend_from_slice(edition)?;
    push_base_place(out, fault.frame)?;
    push_base_cause(out, fault.cause)
}

fn cause_name(cause: LineCause) -> &'static [u8]
    ensures { result.now ≡ line_cause_text cause }
{
    match cause {
        LineCause::Magic => b"Magic",
        LineCause::Word => b"Word",
        LineCause::Number => b"Number",
        LineCause::Range => b"Range",
        LineCause::Order => b"Order",
        LineCause::Cursor => b"Cursor",
        LineCause::Count => b"Count",
        LineCause::Tail => b"Tail",
        LineCause::Truncated => b"Truncated",
    }
}

fn push_line_fault(
    out: &mut Vec<u8>,
    edition: &[u8],
    number: u32,
    cause: LineCause,
) -> Result<(), AllocError>
    ensures { OnOk result (out.new.items ≡ out.old.items ++ cert_fault_text edition.now (ReadFault.Line number cause)) }
{
    out.extend_from_slice(edition)?;
    out.extend_from_slice(b"certificate: line ")?;
    push_number(out, u64::from(number))?;
    out.extend_from_slice(b": ")?;
    out.extend_from_slice(cause_name(cause))?;
    Ok(())
}

// The reader's own refusal of a certificate that it has refused before.
fn push_failed(out: &mut Vec<u8>, edition: &[u8]) -> Result<(), AllocError>
    ensures { OnOk result (out.new.items ≡ out.old.items ++ cert_fault_text edition.now ReadFault.Failed) }
{
    out.extend_from_slice(edition)?;
    out.extend_from_slice(b"certificate: failed")
}

fn push_cert_fault(out: &mut Vec<u8>, edition: &[u8], fault: ReadFault) -> Result<(), AllocError>
    ensures { OnOk result (out.new.items ≡ out.old.items ++ cert_fault_text edition.now fault) }
{
    match fault {
        ReadFault::Line(number, cause) => push_line_fault(out, edition, number, cause),
        ReadFault::Failed => push_failed(out, edition),
        ReadFault::Memory => out.extend_from_slice(b"memory refused"),
    }
}

// Words, a number, and words after it.
fn push_count(out: &mut Vec<u8>, words: &[u8], count: u64, after: &[u8]) -> Result<(), AllocError>
    ensures { OnOk result (out.new.items ≡ out.old.items ++ ((words.now ++ decimal count) ++ after.now)) }
{
    push_words_number(out, words, count)?;
    out.extend_from_slice(after)
}

fn push_fault(out: &mut Vec<u8>, fault: &RunFault) -> Result<(), AllocError>
    ensures { OnOk result (out.new.items ≡ out.old.items ++ fault_words fault.now) }
{
    match fault {
        RunFault::Base(fault) => push_base_fault(out, b"", fault),
        RunFault::Cert(fault) => push_cert_fault(out, b"", *fault),
        RunFault::NewBase(fault) => push_base_fault(out, b"new ", fault),
        RunFault::NewCert(fault) => push_cert_fault(out, b"new ", *fault),
        RunFault::Groups => out.extend_from_slice(b"groups: I4 BadGroups"),
        RunFault::Keys(offset) => push_words_number(out, b"keys: I3 BadKey ", *offset as u64),
        RunFault::ReadBase => out.extend_from_slice(b"base: read failed"),
        RunFault::ReadCert => out.extend_from_slice(b"certificate: read failed"),
        RunFault::ReadNewBase => out.extend_from_slice(b"new base: read failed"),
        RunFault::ReadNewCert => out.extend_from_slice(b"new certificate: read failed"),
        RunFault::Write(wrote) => {
            push_count(out, b"output: write failed after ", *wrote, b" bytes")
        }
        RunFault::Memory => out.extend_from_slice(b"memory refused"),
    }
}

/// The one line that reports a fault on standard error.
pub fn fault_text(alloc: Global, fault: &RunFault) -> Result<Vec<u8>, AllocError>
    ensures { IfOk result (λ text. text.items ≡ fault_text fault.now) }
{
    let mut text = Vec::new(alloc);
    push_fault(&mut text, fault)?;
    text.push(b'\n')?;
    Ok(text)
}
