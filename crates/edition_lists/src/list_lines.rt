//! The lines of a list of editions, in columns.

ghost use Rattle.std.specs.Prelude.{◌≡◌, ◌++◌, ◌-◌, [], IfOk, OnOk, decimal, replicate};
ghost use Rattle.edition_lists.specs.ListLines as spec;

use crate::numbered::push_numbered;
use crate::rows::EditionRow;
use crate::serving::Serving;
use itoa::Buffer;
use std::alloc::{AllocError, Global};

fn push_spaces(out: &mut Vec<u8>, count: usize) -> Result<(), AllocError>
    ensures { OnOk result (out.new.items ≡ out.old.items ++ replicate count 32) }
{
    'spaces: for _done in 0..count {
        out.push(b' ')?;
    }
    Ok(())
}

fn push_right(out: &mut Vec<u8>, width: usize, text: &[u8]) -> Result<(), AllocError>
    ensures { OnOk result (out.new.items ≡ out.old.items ++ spec.set_right width text.now) }
{
    push_spaces(out, width.saturating_sub(text.len()))?;
    out.extend_from_slice(text)
}

fn push_number_right(out: &mut Vec<u8>, width: usize, number: u32) -> Result<(), AllocError>
    ensures { OnOk result (out.new.items ≡ out.old.items ++ spec.set_right width (decimal number)) }
{
    let mut buffer = Buffer::new();
    let digits = buffer.format(number).as_bytes();
    push_right(out, width, digits)
}

// The width of the longest number.
fn number_width(numbers: &[u32]) -> usize
    ensures { result ≡ spec.number_width numbers.now }
{
    let mut most = 0;
    for number in numbers {
        let mut buffer = Buffer::new();
        most = most.max(buffer.format(*number).len());
    }
    most
}

fn serving_words(serving: Serving) -> &'static [u8]
    ensures { result.now ≡ spec.serving_words serving }
{
    match serving {
        Serving::Earlier => b"         ".as_slice(),
        Serving::Now => b"  served ".as_slice(),
        Serving::NotYet => b"  not yet".as_slice(),
        Serving::Never => b"  never  ".as_slice(),
    }
}

fn push_followed(out: &mut Vec<u8>, width: usize, follows: Option<u32>) -> Result<(), AllocError>
    ensures { OnOk result (out.new.items ≡ out.old.items ++ spec.set_right width (spec.follows_words follows)) }
{
    match follows {
        Some(number) => push_number_right(out, width, number),
        None => push_right(out, width, b"-"),
    }
}

fn push_lack(out: &mut Vec<u8>, lacks: Option<u32>) -> Result<(), AllocError>
    ensures { OnOk result (out.new.items ≡ out.old.items ++ spec.lack_words lacks) }
{
    match lacks {
        Some(number) => push_numbered(out, b", edition ", number, b" isn't there\n"),
        None => out.extend_from_slice(b"\n"),
    }
}

fn push_rest(out: &mut Vec<u8>, width: usize, row: &EditionRow) -> Result<(), AllocError>
    ensures { OnOk result (out.new.items ≡ out.old.items ++ spec.row_rest width row.now) }
{
    out.extend_from_slice(b"  follows ")?;
    push_followed(out, width, row.follows)?;
    out.extend_from_slice(b"  ")?;
    out.extend_from_slice(row.summary.as_slice())?;
    push_lack(out, row.lacks)
}

fn push_line(out: &mut Vec<u8>, width: usize, row: &EditionRow) -> Result<(), AllocError>
    ensures { OnOk result (out.new.items ≡ out.old.items ++ spec.edition_line width row.now) }
{
    out.extend_from_slice(b"edition ")?;
    push_number_right(out, width, row.number)?;
    out.extend_from_slice(serving_words(row.serving))?;
    push_rest(out, width, row)
}

fn rows_lines(alloc: Global, width: usize, rows: &[EditionRow]) -> Result<Vec<u8>, AllocError>
    ensures { IfOk result (λ text. text.items ≡ spec.rows_lines width rows.now) }
{
    let mut out = Vec::new(alloc);
    for row in rows {
        push_line(&mut out, width, row)?;
    }
    Ok(out)
}

fn nothing_text(alloc: Global) -> Result<Vec<u8>, AllocError>
    ensures { IfOk result (λ text. text.items ≡ spec.list_text [] []) }
{
    let mut out = Vec::new(alloc);
    out.extend_from_slice(b"nothing is published\n")?;
    Ok(out)
}

/// A line for each row, in columns that are as wide as the longest of the numbers:
///
/// ```text
/// edition  9           follows -  79 frames
/// edition 10  served   follows 9  81 frames, 2 new (4783a 4783b), 1 changed
/// ```
pub fn list_text(alloc: Global, numbers: &[u32], rows: &[EditionRow]) -> Result<Vec<u8>, AllocError>
    ensures { IfOk result (λ text. text.items ≡ spec.list_text numbers.now rows.now) }
{
    match rows {
        [] => nothing_text(alloc),
        _ => rows_lines(alloc, number_width(numbers), rows),
    }
}
