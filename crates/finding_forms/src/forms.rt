//! Findings in a form, one after another.

ghost use Rattle.std.specs.Prelude.{◌≡◌, ℕ, List, IfOk, OnOk, length, true};
ghost use Rattle.std.specs.Str.Lossy.{utf8_lossy};
ghost use Rattle.lint_words.specs.Lines.{line_of};
ghost use Rattle.finding_forms.specs.Forms.{ArePrinted, is_one_line};
ghost use Rattle.finding_forms.specs.Loops.{AddsPrinted};
ghost use Rattle.finding_forms.specs.declared.format.Format.TheVariants.{Full, Coloured};
ghost use Rattle.finding_forms.specs.Laws.{AreWholeLines};

use crate::coloured_form::push_coloured_finding;
use crate::format::Format;
use crate::full_form::push_lines_below;
use crate::github_form::push_command;
use crate::json_form::push_object;
use crate::line_form::push_line_finding;
use crate::paint::Paint;
use lint::Finding;
use lint_words::Line;
use std::alloc::{AllocError, Global};
use toml_places::TextLines;

fn push_full_finding(
    alloc: Global,
    out: &mut Vec<u8>,
    path: &Line,
    text: &[u8],
    lines: &TextLines<'_>,
    finding: &Finding,
) -> Result<(), AllocError>
    requires { lines.now ≡ text.now }
    ensures { OnOk result ((bytes : List ℕ) → path.now ≡ line_of bytes
        → AddsPrinted Full bytes text.now finding.now out.old.items out.new.items) }
{
    push_line_finding(out, path, lines, finding)?;
    push_lines_below(
        alloc,
        out,
        Paint::Plain,
        text,
        finding.span,
        lines.extent(finding.span).line,
    )
}

fn push_full_coloured(
    alloc: Global,
    out: &mut Vec<u8>,
    path: &Line,
    text: &[u8],
    lines: &TextLines<'_>,
    finding: &Finding,
) -> Result<(), AllocError>
    requires { lines.now ≡ text.now }
    ensures { OnOk result ((bytes : List ℕ) → path.now ≡ line_of bytes
        → AddsPrinted Coloured bytes text.now finding.now out.old.items out.new.items) }
{
    push_coloured_finding(out, path, lines, finding)?;
    push_lines_below(
        alloc,
        out,
        Paint::Of(finding.level),
        text,
        finding.span,
        lines.extent(finding.span).line,
    )
}

fn push_finding(
    alloc: Global,
    out: &mut Vec<u8>,
    format: Format,
    path: &Line,
    file: &str,
    text: &[u8],
    lines: &TextLines<'_>,
    finding: &Finding,
) -> Result<(), AllocError>
    requires { lines.now ≡ text.now }
    ensures { OnOk result ((bytes : List ℕ) → path.now ≡ line_of bytes → file.now ≡ utf8_lossy bytes
        → AddsPrinted format bytes text.now finding.now out.old.items out.new.items) }
{
    match format {
        Format::Full => push_full_finding(alloc, out, path, text, lines, finding),
        Format::Coloured => push_full_coloured(alloc, out, path, text, lines, finding),
        Format::Line => push_line_finding(out, path, lines, finding),
        Format::Json => push_object(alloc, out, file, text, lines, finding),
        Format::Github => push_command(out, path, lines, finding),
    }
}

// The path is given as a line, and as it is.
fn printed(
    alloc: Global,
    format: Format,
    path: &Line,
    file: &str,
    text: &[u8],
    lines: &TextLines<'_>,
    findings: &[Finding],
) -> Result<Vec<u8>, AllocError>
    requires { lines.now ≡ text.now }
    ensures { IfOk result (λ out. (bytes : List ℕ) → path.now ≡ line_of bytes → file.now ≡ utf8_lossy bytes
        → ArePrinted format bytes text.now findings.now out.items) }
{
    let mut out = Vec::new(alloc);
    for finding in findings {
        push_finding(alloc, &mut out, format, path, file, text, lines, finding)?;
    }
    Ok(out)
}

/// What is printed of findings in a text, in their order.
///
/// But for JSON a control character of the path is written as `\u{1b}`, and one of the text's lines but a tab as TOML takes it,
/// `\u001B`; U+FFFD is in place of what isn't UTF-8. A letter of East Asia has two carets. Lines and columns are from 1; a column
/// counts characters. In [`Format::Full`] a line of more than 120 characters is cut: up to 37 are left before the span and 77 from
/// its first on. The carets end with the span or the line, and there is one at least.
#[tactic(auto, using(crate::proofs::Printed::whole))]
pub fn findings_text(
    alloc: Global,
    format: Format,
    path: &[u8],
    text: &[u8],
    findings: &[Finding],
) -> Result<Vec<u8>, AllocError>
    ensures printed { IfOk result (λ out. ArePrinted format path.now text.now findings.now out.items) }
    ensures whole { IfOk result (λ out. is_one_line format ≡ true
        → AreWholeLines format (length findings.now) out.items) }
{
    if findings.is_empty() {
        return Ok(Vec::new(alloc));
    }
    let file = String::from_utf8_lossy(alloc, path)?;
    let path = Line::of(alloc, path)?;
    let lines = TextLines::of(alloc, text)?;
    printed(alloc, format, &path, &file, text, &lines, findings)
}
