//! The form `full` in colour.

ghost use Rattle.std.specs.Prelude.{◌≡◌, ◌++◌, ℕ, List, OnOk, option_copied, codes};
ghost use Rattle.lint_words.specs.Lines.{IsLine, line_of};
ghost use Rattle.finding_forms.specs.FullForm.{coloured_line};
ghost use Rattle.finding_forms.specs.LineForm.{level_text, line_place, line_text};
ghost use Rattle.finding_forms.specs.Loops.{AddsColouredLine};
ghost use Rattle.finding_forms.specs.Paints.{shaded, level_shade};
ghost use Rattle.finding_forms.specs.declared.paint.Shade.TheVariants.{White};

use crate::line_form::{begin_of, level_text, push_place, push_words};
use crate::paint::{Shade, begin_shade, level_shade, push_end_shade};
use lint::{Finding, Level};
use lint_words::{Line, Words};
use std::alloc::AllocError;
use toml_places::TextLines;

fn push_coloured_place(
    out: &mut Vec<u8>,
    path: &Line,
    place: (usize, usize),
) -> Result<(), AllocError>
    ensures place { OnOk result (out.new.items ≡ out.old.items ++ shaded White (line_place path.now place)) }
    ensures is_line { OnOk result (IsLine (line_place path.now place)) }
{
    out.extend_from_slice(begin_shade(Shade::White))?;
    push_place(out, path, place.0, place.1)?;
    push_end_shade(out)
}

fn push_coloured_level(out: &mut Vec<u8>, level: Level) -> Result<(), AllocError>
    ensures { OnOk result (out.new.items ≡ out.old.items ++
        shaded (level_shade level) (level_text level ++ codes ":")) }
{
    out.extend_from_slice(begin_shade(level_shade(level)))?;
    out.extend_from_slice(level_text(level).as_bytes())?;
    out.extend_from_slice(b":")?;
    push_end_shade(out)
}

#[tactic(auto, using(std::proofs::Common::append_assoc))]
fn push_coloured_line(
    out: &mut Vec<u8>,
    path: &Line,
    place: (usize, usize),
    level: Level,
    words: &Words,
    hint: Option<&Line>,
) -> Result<(), AllocError>
    ensures line { OnOk result (out.new.items ≡ out.old.items ++
        (coloured_line path.now place level words.now (option_copied hint.entry) ++ codes "\n")) }
    ensures is_line { OnOk result (IsLine (line_text path.now place level words.now (option_copied hint.entry))) }
{
    push_coloured_place(out, path, place)?;
    out.extend_from_slice(b" ")?;
    push_coloured_level(out, level)?;
    out.extend_from_slice(b" ")?;
    push_words(out, words, hint)?;
    out.extend_from_slice(b"\n")
}

/// The line of a finding in colour.
pub fn push_coloured_finding(
    out: &mut Vec<u8>,
    path: &Line,
    lines: &TextLines<'_>,
    finding: &Finding,
) -> Result<(), AllocError>
    ensures { OnOk result ((bytes : List ℕ) → path.now ≡ line_of bytes
        → AddsColouredLine bytes lines.now finding.now out.old.items out.new.items) }
{
    let place = begin_of(lines, finding.span);
    let words = &finding.words;
    push_coloured_line(out, path, place, finding.level, words, words.hint())
}
