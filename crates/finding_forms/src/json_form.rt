//! The form `json`.

ghost use Rattle.std.specs.Prelude.{◌≡◌, ◌++◌, ℕ, List, codes, option_copied, IfOk, OnOk, count_by, false, ◌==◌, string_bytes};
ghost use Rattle.std.specs.Str.Lossy.{utf8_lossy};
ghost use Rattle.serde_json.specs.View.{view};
ghost use Rattle.serde_json.specs.Written.{compact_text, has_float};
ghost use Rattle.slip_fixes.specs.Certain.{certain_fix};
ghost use Rattle.finding_forms.specs.JsonForm as spec;
ghost use Rattle.finding_forms.specs.Loops as loops;

use crate::line_form::level_text;
use lint::{Finding, Level};
use lint_words::{Line, Words};
use page_ids::{FrameId, push_id};
use serde_json::{Value, json};
use slip_fixes::certain_fix;
use std::alloc::{AllocError, Global};
use text_edits::Replacement;
use toml_places::{Extent, Span, TextLines};

// A text, or null.
fn text_value(alloc: Global, text: Option<&Line>) -> Result<Value, AllocError>
    ensures { IfOk result (λ value. view value ≡ spec.text_data (option_copied text.entry)) }
{
    match text {
        None => Ok(Value::Null),
        Some(line) => Value::try_from_str(alloc, line.as_str()),
    }
}

// A frame's id, or null.
fn frame_value(alloc: Global, frame: Option<FrameId>) -> Result<Value, AllocError>
    ensures { IfOk result (λ value. view value ≡ spec.frame_data frame) }
{
    match frame {
        None => Ok(Value::Null),
        Some(id) => {
            let mut text = Vec::new(alloc);
            push_id(&mut text, id)?;
            Value::try_from_str(alloc, Line::of(alloc, &text)?.as_str())
        }
    }
}

fn replacing(alloc: Global, at: Extent, text: &str) -> Result<Value, AllocError>
    ensures { IfOk result (λ value. view value ≡ spec.replacing_data at text.now) }
{
    json!(in alloc; {
        "column": at.column,
        "end_column": at.end_column,
        "end_line": at.end_line,
        "line": at.line,
        "text": text
    })
}

fn replacement_value(alloc: Global, extent: Extent, text: &[u8]) -> Result<Value, AllocError>
    ensures value { IfOk result (λ value. view value ≡ spec.replacing_data extent (utf8_lossy text.now)) }
    ensures no_feed { IfOk result (λ value. count_by (λ byte. byte == 10) (compact_text (view value)) ≡ 0) }
    ensures no_float { IfOk result (λ value. has_float (view value) ≡ false) }
{
    let text = String::from_utf8_lossy(alloc, text)?;
    let value = replacing(alloc, extent, &text)?;
    Ok(value)
}

// A fix, or null.
fn fix_value(
    alloc: Global,
    lines: &TextLines<'_>,
    fix: Option<Replacement>,
) -> Result<Value, AllocError>
    ensures value { IfOk result (λ value. view value ≡ spec.fix_data lines.now fix) }
    ensures no_feed { IfOk result (λ value. count_by (λ byte. byte == 10) (compact_text (view value)) ≡ 0) }
    ensures no_float { IfOk result (λ value. has_float (view value) ≡ false) }
{
    match fix {
        None => Ok(Value::Null),
        Some(fix) => {
            let extent = lines.extent(Span {
                begin: fix.begin,
                end: fix.end,
            });
            replacement_value(alloc, extent, fix.text.as_slice())
        }
    }
}

// The fix of a finding that is certain, or null.
fn finding_fix(
    alloc: Global,
    text: &[u8],
    lines: &TextLines<'_>,
    finding: &Finding,
) -> Result<Value, AllocError>
    requires { lines.now ≡ text.now }
    ensures value { IfOk result (λ value. view value ≡ spec.fix_data lines.now (certain_fix lines.now finding.now)) }
    ensures no_feed { IfOk result (λ value. count_by (λ byte. byte == 10) (compact_text (view value)) ≡ 0) }
    ensures no_float { IfOk result (λ value. has_float (view value) ≡ false) }
{
    fix_value(alloc, lines, certain_fix(alloc, text, finding)?)
}

// The members that may be null.
#[derive(Drop)]
struct Nullable {
    fix: Value,
    frame: Value,
    hint: Value,
    key: Value,
    keys: Value,
}

// The members are put in from the last key on: each comes first then.
fn object_with(
    alloc: Global,
    file: &str,
    extent: Extent,
    level: Level,
    words: &Words,
    parts: Nullable,
) -> Result<Value, AllocError>
    ensures { IfOk result (λ value. view value ≡ spec.object_with file.now extent level words.now
        (view parts.fix) (view parts.frame) (view parts.hint) (view parts.key) (view parts.keys)) }
{
    let Nullable {
        fix,
        frame,
        hint,
        key,
        keys,
    } = parts;
    json!(in alloc; {
        "message": words.message().as_str(),
        "line": extent.line,
        "level": level_text(level),
        "keys": keys,
        "key": key,
        "hint": hint,
        "frame": frame,
        "fix": fix,
        "file": file,
        "end_line": extent.end_line,
        "end_column": extent.end_column,
        "column": extent.column,
        "code": words.code().word()
    })
}

fn object(
    alloc: Global,
    file: &str,
    extent: Extent,
    level: Level,
    words: &Words,
    hint: Option<&Line>,
    fix: Value,
) -> Result<Value, AllocError>
    ensures { IfOk result (λ value. view value
        ≡ spec.object_data file.now extent level words.now (option_copied hint.entry) (view fix)) }
{
    let about = words.about();
    let parts = Nullable {
        fix,
        frame: frame_value(alloc, about.frame)?,
        hint: text_value(alloc, hint)?,
        key: text_value(alloc, about.key.as_ref())?,
        keys: text_value(alloc, about.keys.as_ref())?,
    };
    object_with(alloc, file, extent, level, words, parts)
}

fn object_text(
    alloc: Global,
    file: &str,
    extent: Extent,
    level: Level,
    words: &Words,
    hint: Option<&Line>,
    fix: Value,
) -> Result<String, AllocError>
    requires { has_float (view fix) ≡ false }
    ensures { IfOk result (λ text. string_bytes text ≡ compact_text (spec.object_data file.now extent level words.now
        (option_copied hint.entry) (view fix))) }
{
    object(alloc, file, extent, level, words, hint, fix)?.to_string(alloc)
}

fn push_line(out: &mut Vec<u8>, text: &str) -> Result<(), AllocError>
    ensures { OnOk result (out.new.items ≡ out.old.items ++ (text.now ++ codes "\n")) }
{
    out.extend_from_slice(text.as_bytes())?;
    out.extend_from_slice(b"\n")
}

fn push_object_line(
    alloc: Global,
    out: &mut Vec<u8>,
    file: &str,
    extent: Extent,
    level: Level,
    words: &Words,
    hint: Option<&Line>,
    fix: Value,
) -> Result<(), AllocError>
    requires no_feed { count_by (λ byte. byte == 10) (compact_text (view fix)) ≡ 0 }
    requires no_float { has_float (view fix) ≡ false }
    ensures line { OnOk result (out.new.items ≡ out.old.items ++
        (compact_text (spec.object_data file.now extent level words.now
        (option_copied hint.entry) (view fix)) ++ codes "\n")) }
    ensures no_feed { OnOk result (count_by (λ byte.
        byte == 10) (compact_text (spec.object_data file.now extent level words.now
        (option_copied hint.entry) (view fix))) ≡ 0) }
{
    let text = object_text(alloc, file, extent, level, words, hint, fix)?;
    push_line(out, text.as_str())
}

// The object of a finding.
pub fn push_object(
    alloc: Global,
    out: &mut Vec<u8>,
    file: &str,
    text: &[u8],
    lines: &TextLines<'_>,
    finding: &Finding,
) -> Result<(), AllocError>
    requires { lines.now ≡ text.now }
    ensures { OnOk result ((bytes : List ℕ) → file.now ≡ utf8_lossy bytes
        → loops.AddsObject bytes lines.now finding.now out.old.items out.new.items) }
{
    let extent = lines.extent(finding.span);
    let fix = finding_fix(alloc, text, lines, finding)?;
    let words = &finding.words;
    push_object_line(
        alloc,
        out,
        file,
        extent,
        finding.level,
        words,
        words.hint(),
        fix,
    )
}
