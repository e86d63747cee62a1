ghost use Rattle.std.specs.Prelude.{◌≡◌, ◌++◌, OnOk, codes};
ghost use Rattle.lint_words.specs.Pieces.{grouped};
ghost use Rattle.lint_words.specs.KeyPieces.{key_text, key_subject, integer_text, least_of, most_of_field, least_text, most_text, limit_text, item_text, out_of_range_text};

use crate::pieces::{push_between, push_decimal, push_frame, push_grouped};
use base_text::Field;
use frame_records::{MOST_GROUP, MOST_PENCE};
use page_ids::{FrameId, MOST_PAGE};
use std::alloc::AllocError;

// The key of a field, in quotes.
pub fn push_key_name(out: &mut Vec<u8>, field: Field) -> Result<(), AllocError>
    ensures { OnOk result (out.new.items ≡ out.old.items ++ key_text field) }
{
    out.extend_from_slice(b"\"")?;
    out.extend_from_slice(field.name().as_bytes())?;
    out.extend_from_slice(b"\"")
}

// A key of the top, or one of a frame with the frame's name.
pub fn push_subject(out: &mut Vec<u8>, field: Field, id: Option<FrameId>) -> Result<(), AllocError>
    ensures { OnOk result (out.new.items ≡ out.old.items ++ key_subject field id) }
{
    push_key_name(out, field)?;
    match field {
        Field::Entry | Field::Outside | Field::Frame => Ok(()),
        _ => {
            out.extend_from_slice(b" of ")?;
            push_frame(out, id)
        }
    }
}

fn push_integer(out: &mut Vec<u8>, number: i64) -> Result<(), AllocError>
    ensures { OnOk result (out.new.items ≡ out.old.items ++ integer_text number) }
{
    if number < 0 {
        out.extend_from_slice(b"-")?;
    }
    push_decimal(out, number.unsigned_abs())
}

fn least_of(field: Field) -> u32
    ensures { result ≡ least_of field }
{
    match field {
        Field::Group => 1,
        _ => 0,
    }
}

fn most_of(field: Field) -> u32
    ensures { result ≡ most_of_field field }
{
    match field {
        Field::Price => u32::from(MOST_PENCE),
        Field::Group => u32::from(MOST_GROUP),
        _ => MOST_PAGE,
    }
}

fn push_least(out: &mut Vec<u8>, least: u32) -> Result<(), AllocError>
    ensures { OnOk result (out.new.items ≡ out.old.items ++ least_text least) }
{
    push_between(out, b", at least ", u64::from(least), b" is needed")
}

fn push_most(out: &mut Vec<u8>, most: u32) -> Result<(), AllocError>
    ensures { OnOk result (out.new.items ≡ out.old.items ++ most_text most) }
{
    push_between(out, b", at most ", u64::from(most), b" is allowed")
}

// What is needed in place of an integer out of range.
fn push_limit(out: &mut Vec<u8>, field: Field, number: i64) -> Result<(), AllocError>
    ensures { OnOk result (out.new.items ≡ out.old.items ++ limit_text field number) }
{
    if number < i64::from(least_of(field)) {
        push_least(out, least_of(field))
    } else {
        push_most(out, most_of(field))
    }
}

// An integer and what is allowed in its place.
pub fn push_out_of_range(out: &mut Vec<u8>, field: Field, number: i64) -> Result<(), AllocError>
    ensures { OnOk result (out.new.items ≡ out.old.items ++ out_of_range_text field number) }
{
    out.extend_from_slice(b" is ")?;
    push_integer(out, number)?;
    push_limit(out, field, number)
}

// A word for an item, and its number.
fn push_nth(out: &mut Vec<u8>, word: &[u8], number: usize) -> Result<(), AllocError>
    ensures { OnOk result (out.new.items ≡ out.old.items ++ (word.now ++ (grouped number ++ codes " of "))) }
{
    out.extend_from_slice(word)?;
    push_grouped(out, number)?;
    out.extend_from_slice(b" of ")
}

// An item of `outside`, a route by its digit, or a row.
pub fn push_item(
    out: &mut Vec<u8>,
    field: Field,
    number: usize,
    id: Option<FrameId>,
) -> Result<(), AllocError>
    ensures { OnOk result (out.new.items ≡ out.old.items ++ item_text field number id) }
{
    match field {
        Field::Outside => {
            push_nth(out, b"item ", number)?;
            push_key_name(out, Field::Outside)
        }
        Field::Routes => {
            push_nth(out, b"route ", number)?;
            push_frame(out, id)
        }
        _ => {
            push_nth(out, b"row ", number)?;
            push_frame(out, id)
        }
    }
}
