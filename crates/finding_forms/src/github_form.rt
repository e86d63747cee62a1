//! The form `github`.

ghost use Rattle.std.specs.Prelude.{◌≡◌, ◌++◌, ℕ, List, codes, decimal, option_copied, OnOk, IfSome};
ghost use Rattle.lint_words.specs.Lines.{IsLine, line_of};
ghost use Rattle.finding_forms.specs.GithubForm as spec;
ghost use Rattle.finding_forms.specs.Loops as loops;

use crate::line_form::{level_text, push_code};
use lint::{Finding, Level};
use lint_words::{Code, Line, Words};
use page_ids::push_number;
use std::alloc::AllocError;
use toml_places::{Extent, TextLines};

// Where a text is in a command. A line has neither CR nor LF, so they need no escape.
#[derive(Debug, Clone, Copy, PartialEq, Eq)]
pub enum Slot {
    // The value of a property: `%`, `:` and `,` are escaped.
    Property,
    // The message: `%` is escaped.
    Message,
}

fn push_percent_escaped(out: &mut Vec<u8>, byte: u8) -> Result<(), AllocError>
    ensures { OnOk result (out.new.items ≡ out.old.items ++ spec.percent_escaped byte) }
{
    match byte {
        b'%' => out.extend_from_slice(b"%25"),
        _ => out.extend_from_slice(&[byte]),
    }
}

fn push_escaped_byte(out: &mut Vec<u8>, slot: Slot, byte: u8) -> Result<(), AllocError>
    ensures { OnOk result (out.new.items ≡ out.old.items ++ spec.escaped_byte slot byte) }
{
    match slot {
        Slot::Message => push_percent_escaped(out, byte),
        Slot::Property => match byte {
            b':' => out.extend_from_slice(b"%3A"),
            b',' => out.extend_from_slice(b"%2C"),
            _ => push_percent_escaped(out, byte),
        },
    }
}

fn push_escaped(out: &mut Vec<u8>, slot: Slot, line: &Line) -> Result<(), AllocError>
    ensures escaped { OnOk result (out.new.items ≡ out.old.items ++ spec.github_escaped slot line.now) }
    ensures is_line { OnOk result (IsLine line.now) }
{
    for byte in line.as_str().as_bytes() {
        push_escaped_byte(out, slot, *byte)?;
    }
    Ok(())
}

fn push_named(out: &mut Vec<u8>, name: &[u8], number: usize) -> Result<(), AllocError>
    ensures { OnOk result (out.new.items ≡ out.old.items ++ (name.now ++ decimal number)) }
{
    out.extend_from_slice(name)?;
    push_number(out, number as u64)?;
    Ok(())
}

fn push_columns(out: &mut Vec<u8>, extent: Extent) -> Result<(), AllocError>
    ensures { OnOk result (out.new.items ≡ out.old.items ++ spec.columns_text extent) }
{
    if extent.line != extent.end_line {
        return Ok(());
    }
    push_named(out, b",col=", extent.column)?;
    push_named(out, b",endColumn=", extent.end_column)
}

fn push_place(out: &mut Vec<u8>, extent: Extent) -> Result<(), AllocError>
    ensures { OnOk result (out.new.items ≡ out.old.items ++ spec.github_place extent) }
{
    push_named(out, b",line=", extent.line)?;
    push_named(out, b",endLine=", extent.end_line)?;
    push_columns(out, extent)
}

fn push_hint(out: &mut Vec<u8>, hint: Option<&Line>) -> Result<(), AllocError>
    ensures hint { OnOk result (out.new.items ≡ out.old.items ++ spec.github_hint (option_copied hint.entry)) }
    ensures is_line { OnOk result (IfSome (option_copied hint.entry) IsLine) }
{
    match hint {
        None => Ok(()),
        Some(hint) => {
            out.extend_from_slice(b"; ")?;
            push_escaped(out, Slot::Message, hint)
        }
    }
}

fn push_message(out: &mut Vec<u8>, words: &Words, hint: Option<&Line>) -> Result<(), AllocError>
    ensures message { OnOk result (out.new.items ≡ out.old.items ++
        spec.message_text words.now (option_copied hint.entry)) }
    ensures is_line { OnOk result (IsLine words.now.message × IfSome (option_copied hint.entry) IsLine) }
{
    push_escaped(out, Slot::Message, words.message())?;
    push_hint(out, hint)
}

fn push_properties(
    out: &mut Vec<u8>,
    path: &Line,
    extent: Extent,
    code: Code,
) -> Result<(), AllocError>
    ensures properties { OnOk result (out.new.items ≡ out.old.items ++ spec.properties_text path.now extent code) }
    ensures is_line { OnOk result (IsLine path.now) }
{
    out.extend_from_slice(b" file=")?;
    push_escaped(out, Slot::Property, path)?;
    push_place(out, extent)?;
    out.extend_from_slice(b",title=")?;
    push_code(out, code)
}

#[tactic(auto, using(std::proofs::Common::append_assoc))]
fn push_command_line(
    out: &mut Vec<u8>,
    path: &Line,
    extent: Extent,
    level: Level,
    words: &Words,
    hint: Option<&Line>,
) -> Result<(), AllocError>
    ensures line { OnOk result (out.new.items ≡ out.old.items ++
        (spec.command_text path.now extent level words.now (option_copied hint.entry) ++ codes "\n")) }
    ensures is_line { OnOk result (IsLine (spec.command_text path.now extent level words.now
        (option_copied hint.entry))) }
{
    out.extend_from_slice(b"::")?;
    out.extend_from_slice(level_text(level).as_bytes())?;
    push_properties(out, path, extent, words.code())?;
    out.extend_from_slice(b"::")?;
    push_message(out, words, hint)?;
    out.extend_from_slice(b"\n")
}

// The command of a finding.
pub fn push_command(
    out: &mut Vec<u8>,
    path: &Line,
    lines: &TextLines<'_>,
    finding: &Finding,
) -> Result<(), AllocError>
    ensures { OnOk result ((bytes : List ℕ) → path.now ≡ line_of bytes
        → loops.AddsCommand bytes lines.now finding.now out.old.items out.new.items) }
{
    let extent = lines.extent(finding.span);
    let words = &finding.words;
    push_command_line(out, path, extent, finding.level, words, words.hint())
}
