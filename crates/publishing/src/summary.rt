//! What is printed of an edition: how it differs from the one that is served, and the verdict.

use audit_report::change_text;
use base_differences::base_summary;
use checker::ChangeVerdict;
use edition_checks::Served;
use frame_records::Base;
use page_ids::{FrameId, push_id, push_number, push_page};
use std::alloc::{AllocError, Global};

// How many letters of a frame are printed.
const MOST_LETTERS: usize = 32;

/// The summary of a base that is to follow the one that is served.
pub(crate) fn summary(
    alloc: Global,
    served: &Option<Served>,
    new: &Base,
) -> Result<Vec<u8>, AllocError> {
    match served {
        Some(served) => base_summary(alloc, Some(&served.base), new),
        None => base_summary(alloc, None, new),
    }
}

/// The lines of an edition: its number, the summary and the verdict.
pub(crate) fn push_edition(
    out: &mut Vec<u8>,
    number: u32,
    summary: &[u8],
    note: &[u8],
) -> Result<(), AllocError> {
    out.extend_from_slice(b"edition ")?;
    push_number(out, u64::from(number))?;
    out.extend_from_slice(b": ")?;
    out.extend_from_slice(summary)?;
    out.push(b'\n')?;
    out.extend_from_slice(note)?;
    out.extend_from_slice(b"CLEARED\n")
}

/// Says that an edition with these texts is served.
pub(crate) fn push_already(out: &mut Vec<u8>, number: u32) -> Result<(), AllocError> {
    out.extend_from_slice(b"edition ")?;
    push_number(out, u64::from(number))?;
    out.extend_from_slice(b" is served already\n")
}

/// Says that the policy is for callers of other groups.
pub(crate) fn push_other_groups(out: &mut Vec<u8>, number: u32) -> Result<(), AllocError> {
    out.extend_from_slice(b"policy.toml has other groups than edition ")?;
    push_number(out, u64::from(number))?;
    out.extend_from_slice(b": callers of other groups need a folder of their own\nREFUSED\n")
}

// Whether a byte is a letter, a digit or a sign, and neither the second half of a code nor a mosaic.
fn is_sign(mosaics: bool, before: u8, byte: u8) -> bool {
    let is_block = mosaics && !(0x40..=0x5F).contains(&byte);
    before != 0x1B && !is_block && (0x21..=0x7E).contains(&byte)
}

// The column after a byte: one cell for each byte but the controls, of which a few lead to the first column.
fn column_after(column: u8, byte: u8) -> u8 {
    match byte {
        b'\r' | 0x0C | 0x1E => 0,
        0x00..=0x1F => column,
        _ => column.saturating_add(1) % 40,
    }
}

// Whether mosaics follow a byte in its line: until letters have a colour again. Rows have an attribute in one byte.
fn mosaics_after(mosaics: bool, before: u8, byte: u8) -> bool {
    match (before, byte) {
        (0x1B, 0x51..=0x57) | (_, 0x91..=0x97) => true,
        (0x1B, 0x41..=0x47) | (_, 0x81..=0x87) => false,
        _ => mosaics,
    }
}

// The first letters of a frame, with one space for all that is between two of them.
fn push_first_words(out: &mut Vec<u8>, body: &[u8]) -> Result<(), AllocError> {
    let mut left = MOST_LETTERS;
    let mut before = b' ';
    let mut gap = true;
    let mut mosaics = false;
    let mut column = 0;
    for byte in body {
        let sign = left > 0 && is_sign(mosaics, before, *byte);
        if sign && gap {
            out.push(b' ')?;
        }
        if sign {
            out.push(*byte)?;
            left = left.saturating_sub(1);
        }
        gap = !sign;
        column = column_after(column, *byte);
        mosaics = column > 0 && mosaics_after(mosaics, before, *byte);
        before = *byte;
    }
    Ok(())
}

fn push_lost(out: &mut Vec<u8>, old: &Base, id: FrameId) -> Result<(), AllocError> {
    push_id(out, id)?;
    if let Some(frame) = old.find(id) {
        push_first_words(out, frame.body.as_slice())?;
    }
    out.extend_from_slice(b": callers may be there; keep it, or publish with --new-callers\n")
}

fn push_moved(out: &mut Vec<u8>, old: &Base, new: &Base) -> Result<(), AllocError> {
    out.extend_from_slice(b"the entry page was ")?;
    push_page(out, old.entry())?;
    out.extend_from_slice(b" and is ")?;
    push_page(out, new.entry())?;
    out.extend_from_slice(b": keep it, or publish with --new-callers\n")
}

/// What callers who are inside would lose, and the verdict's line.
pub(crate) fn push_refusal(
    alloc: Global,
    out: &mut Vec<u8>,
    served: &Option<Served>,
    new: &Base,
    verdict: &ChangeVerdict,
) -> Result<(), AllocError> {
    match (served, verdict) {
        (Some(served), ChangeVerdict::NoLongerCovered(id)) => push_lost(out, &served.base, *id)?,
        (Some(served), ChangeVerdict::EntryMoved) => push_moved(out, &served.base, new)?,
        _ => {}
    }
    let line = change_text(alloc, verdict)?;
    out.extend_from_slice(line.as_slice())
}
