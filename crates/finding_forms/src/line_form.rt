//! The form `line`.

ghost use Rattle.std.specs.Prelude.{◌≡◌, ◌++◌, ◌∷◌, [], ℕ, List, OnOk, IfSome, option_copied, codes, decimal};
ghost use Rattle.lint_words.specs.Lines.{IsLine, line_of};
ghost use Rattle.finding_forms.specs.LineForm.{level_text, begin_of, line_place, code_text, line_hint, words_text, line_text};
ghost use Rattle.finding_forms.specs.Loops.{AddsLine};

use lint::{Finding, Level};
use lint_words::{Code, Line, Words};
use page_ids::push_number;
use std::alloc::AllocError;
use toml_places::{Span, TextLines};

pub fn level_text(level: Level) -> &'static str
    ensures { result.now ≡ level_text level }
{
    match level {
        Level::Error => "error",
        Level::Warning => "warning",
    }
}

fn push_part(out: &mut Vec<u8>, number: usize) -> Result<(), AllocError>
    ensures { OnOk result (out.new.items ≡ out.old.items ++ (decimal number ++ 58 ∷ [])) }
{
    push_number(out, number as u64)?;
    out.push(b':')?;
    Ok(())
}

// The line and the column at which a span begins.
pub fn begin_of(lines: &TextLines<'_>, span: Span) -> (usize, usize)
    ensures { result ≡ begin_of lines.now span }
{
    let extent = lines.extent(span);
    (extent.line, extent.column)
}

// The path, the line and the column, each with a colon.
pub fn push_place(
    out: &mut Vec<u8>,
    path: &Line,
    line: usize,
    column: usize,
) -> Result<(), AllocError>
    ensures place { OnOk result (out.new.items ≡ out.old.items ++ line_place path.now (line, column)) }
    ensures is_line { OnOk result (IsLine (line_place path.now (line, column))) }
{
    out.extend_from_slice(path.as_str().as_bytes())?;
    out.extend_from_slice(b":")?;
    push_part(out, line)?;
    push_part(out, column)
}

// The code, and its name if it has one.
pub fn push_code(out: &mut Vec<u8>, code: Code) -> Result<(), AllocError>
    ensures { OnOk result (out.new.items ≡ out.old.items ++ code_text code) }
{
    out.extend_from_slice(code.word().as_bytes())?;
    if code.name().is_empty() {
        return Ok(());
    }
    out.extend_from_slice(b" ")?;
    out.extend_from_slice(code.name().as_bytes())
}

fn push_hint(out: &mut Vec<u8>, hint: Option<&Line>) -> Result<(), AllocError>
    ensures hint { OnOk result (out.new.items ≡ out.old.items ++ line_hint (option_copied hint.entry)) }
    ensures is_line { OnOk result (IfSome (option_copied hint.entry) IsLine) }
{
    match hint {
        None => Ok(()),
        Some(hint) => {
            let text = hint.as_str();
            out.extend_from_slice(b"; ")?;
            out.extend_from_slice(text.as_bytes())
        }
    }
}

pub fn push_words(out: &mut Vec<u8>, words: &Words, hint: Option<&Line>) -> Result<(), AllocError>
    ensures words { OnOk result (out.new.items ≡ out.old.items ++ words_text words.now (option_copied hint.entry)) }
    ensures is_line { OnOk result (IsLine (words_text words.now (option_copied hint.entry))) }
{
    push_code(out, words.code())?;
    out.extend_from_slice(b": ")?;
    out.extend_from_slice(words.message().as_str().as_bytes())?;
    push_hint(out, hint)
}

#[tactic(auto, using(std::proofs::Common::append_assoc))]
fn push_line(
    out: &mut Vec<u8>,
    path: &Line,
    place: (usize, usize),
    level: Level,
    words: &Words,
    hint: Option<&Line>,
) -> Result<(), AllocError>
    ensures line { OnOk result (out.new.items ≡ out.old.items ++
        (line_text path.now place level words.now (option_copied hint.entry) ++ codes "\n")) }
    ensures is_line { OnOk result (IsLine (line_text path.now place level words.now (option_copied hint.entry))) }
{
    push_place(out, path, place.0, place.1)?;
    out.extend_from_slice(b" ")?;
    out.extend_from_slice(level_text(level).as_bytes())?;
    out.extend_from_slice(b": ")?;
    push_words(out, words, hint)?;
    out.extend_from_slice(b"\n")
}

// The line of a finding.
pub fn push_line_finding(
    out: &mut Vec<u8>,
    path: &Line,
    lines: &TextLines<'_>,
    finding: &Finding,
) -> Result<(), AllocError>
    ensures { OnOk result ((bytes : List ℕ) → path.now ≡ line_of bytes
        → AddsLine bytes lines.now finding.now out.old.items out.new.items) }
{
    let place = begin_of(lines, finding.span);
    let words = &finding.words;
    push_line(out, path, place, finding.level, words, words.hint())
}
