//! The form `full`.

ghost use Rattle.std.specs.Prelude.{◌≡◌, ◌++◌, ◌≤◌, length, OnOk};
ghost use Rattle.finding_forms.specs.Excerpts.{mark_length};
ghost use Rattle.finding_forms.specs.FullForm as spec;

use crate::drawing::{Drawing, push_drawn, push_times};
use crate::excerpt::{Excerpt, excerpt_of, mark_length};
use crate::paint::Paint;
use itoa::Buffer;
use std::alloc::{AllocError, Global};
use toml_places::Span;

// The least width of the lines' numbers.
const NUMBER_WIDTH: usize = 5;

fn push_number_bar(out: &mut Vec<u8>, paint: Paint, line: usize) -> Result<(), AllocError>
    ensures { OnOk result (out.new.items ≡ out.old.items ++ spec.number_bar paint line) }
{
    let mut buffer = Buffer::new();
    let digits = buffer.format(line).as_bytes();
    paint.push_begin_number(out)?;
    push_times(out, b' ', NUMBER_WIDTH.saturating_sub(digits.len()))?;
    out.extend_from_slice(digits)?;
    out.extend_from_slice(b" | ")?;
    paint.push_end(out)
}

fn push_blank_bar(out: &mut Vec<u8>, paint: Paint, line: usize) -> Result<(), AllocError>
    ensures { OnOk result (out.new.items ≡ out.old.items ++ spec.blank_bar paint line) }
{
    let mut buffer = Buffer::new();
    let width = buffer.format(line).len();
    paint.push_begin_number(out)?;
    push_times(out, b' ', NUMBER_WIDTH.saturating_sub(width))?;
    push_times(out, b' ', width)?;
    out.extend_from_slice(b" | ")?;
    paint.push_end(out)
}

fn push_dots(out: &mut Vec<u8>, cut: bool) -> Result<(), AllocError>
    ensures { OnOk result (out.new.items ≡ out.old.items ++ spec.dots cut) }
{
    if cut {
        out.extend_from_slice(b"...")
    } else {
        Ok(())
    }
}

fn push_blank_dots(out: &mut Vec<u8>, cut: bool) -> Result<(), AllocError>
    ensures { OnOk result (out.new.items ≡ out.old.items ++ spec.blank_dots cut) }
{
    if cut {
        out.extend_from_slice(b"   ")
    } else {
        Ok(())
    }
}

fn push_carets(alloc: Global, out: &mut Vec<u8>, bytes: &[u8]) -> Result<(), AllocError>
    ensures { OnOk result (out.new.items ≡ out.old.items ++ spec.carets bytes.now) }
{
    match bytes {
        [] => out.extend_from_slice(b"^"),
        _ => push_drawn(alloc, out, Drawing::Carets, bytes),
    }
}

// The part of the line that is shown.
fn push_source_line(
    alloc: Global,
    out: &mut Vec<u8>,
    text: &[u8],
    excerpt: Excerpt,
) -> Result<(), AllocError>
    requires { (excerpt.from ≤ excerpt.to) × (excerpt.to ≤ length text.now) }
    ensures { OnOk result (out.new.items ≡ out.old.items ++ spec.source_line text.now excerpt) }
{
    push_dots(out, excerpt.goes_before)?;
    push_drawn(alloc, out, Drawing::Text, &text[excerpt.from..excerpt.to])?;
    push_dots(out, excerpt.goes_on)?;
    out.extend_from_slice(b"\n")
}

// What is below it.
fn push_caret_line(
    alloc: Global,
    out: &mut Vec<u8>,
    paint: Paint,
    text: &[u8],
    excerpt: Excerpt,
) -> Result<(), AllocError>
    requires { (excerpt.from ≤ excerpt.begin) × (excerpt.begin ≤ excerpt.end) × (excerpt.end ≤ length text.now) }
    ensures { OnOk result (out.new.items ≡ out.old.items ++ spec.caret_line paint text.now excerpt) }
{
    push_blank_dots(out, excerpt.goes_before)?;
    push_drawn(
        alloc,
        out,
        Drawing::Blank,
        &text[excerpt.from..excerpt.begin],
    )?;
    paint.push_begin_carets(out)?;
    push_carets(alloc, out, &text[excerpt.begin..excerpt.end])?;
    paint.push_end(out)?;
    out.extend_from_slice(b"\n")
}

// Both lines.
fn push_both_lines(
    alloc: Global,
    out: &mut Vec<u8>,
    paint: Paint,
    text: &[u8],
    line: usize,
    excerpt: Excerpt,
) -> Result<(), AllocError>
    requires { (excerpt.from ≤ excerpt.begin) × (excerpt.begin ≤ excerpt.end) × (excerpt.end ≤ excerpt.to)
        × (excerpt.to ≤ length text.now) }
    ensures { OnOk result (out.new.items ≡ out.old.items ++ spec.both_lines paint text.now line excerpt) }
{
    push_number_bar(out, paint, line)?;
    push_source_line(alloc, out, text, excerpt)?;
    push_blank_bar(out, paint, line)?;
    push_caret_line(alloc, out, paint, text, excerpt)
}

// The line of the text on which a span begins, which has this number, and carets below the span.
pub fn push_lines_below(
    alloc: Global,
    out: &mut Vec<u8>,
    paint: Paint,
    text: &[u8],
    span: Span,
    line: usize,
) -> Result<(), AllocError>
    ensures { OnOk result (out.new.items ≡ out.old.items ++
        spec.lines_below paint text.now (mark_length text.now) span line) }
{
    let mark = mark_length(text);
    let text = &text[mark..];
    let span = Span {
        begin: span.begin.saturating_sub(mark),
        end: span.end.saturating_sub(mark),
    };
    push_both_lines(alloc, out, paint, text, line, excerpt_of(text, span))
}
