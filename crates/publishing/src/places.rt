//! What is printed of a fault in the folder's policy.

use policy_text::{PolicyFault, PolicyField, fault_span};
use std::alloc::{AllocError, Global};
use toml_places::{Extent, TextLines};

// What a key has to be.
fn rule(field: PolicyField) -> &'static str {
    match field {
        PolicyField::Ceiling => "ceiling is a whole number of pence, 0 to 9999",
        PolicyField::Keyings => "keyings is a whole number, 0 to 65535",
        PolicyField::Groups => {
            "groups is a list of at most 16 whole numbers, ascending, 1 to 65535"
        }
    }
}

// What helps with a fault.
fn fix(fault: PolicyFault) -> &'static str {
    match fault {
        PolicyFault::TooLong => "a policy has at most 65536 bytes",
        PolicyFault::UnknownKey => "a policy has ceiling, keyings and groups",
        PolicyFault::Absent(field) | PolicyFault::WrongKind(field) | PolicyFault::Range(field) => {
            rule(field)
        }
        PolicyFault::NotToml | PolicyFault::Memory => "a policy is a TOML file",
        _ => rule(PolicyField::Groups),
    }
}

// A character of a line: a control character as a space, unless it is a tab.
fn shown(c: char) -> char {
    if c.is_control() && c != '\t' { ' ' } else { c }
}

// The line of a number, from 1.
fn push_line(out: &mut String, text: &str, number: usize) -> Result<(), AllocError> {
    let text = text.strip_prefix('\u{FEFF}').unwrap_or(text);
    if let Some(line) = text.split('\n').nth(number.saturating_sub(1)) {
        for c in line.trim_end_matches('\r').chars() {
            out.push(shown(c))?;
        }
    }
    out.push('\n')
}

// A caret below the column of a number, from 1. Tabs are kept, so that it is below it.
fn push_caret(
    out: &mut String,
    text: &str,
    number: usize,
    column: usize,
) -> Result<(), AllocError> {
    let text = text.strip_prefix('\u{FEFF}').unwrap_or(text);
    if let Some(line) = text.split('\n').nth(number.saturating_sub(1)) {
        for c in line.chars().take(column.saturating_sub(1)) {
            out.push(if c == '\t' { c } else { ' ' })?;
        }
    }
    out.push_str("^\n")
}

fn fault_lines(
    alloc: Global,
    path: &str,
    text: &str,
    place: Extent,
    fault: PolicyFault,
) -> Result<String, AllocError> {
    let Extent { line, column, .. } = place;
    let fix = fix(fault);
    let mut out = format!(in alloc; "{path}:{line}:{column}: error: {fault}; {fix}\n")?;
    push_line(&mut out, text, line)?;
    push_caret(&mut out, text, line, column)?;
    Ok(out)
}

/// The lines of a fault of a policy's text: its place, what is wrong, what helps, the line of the text and a caret below it.
pub(crate) fn push_policy_fault(
    alloc: Global,
    out: &mut Vec<u8>,
    path: &str,
    text: &[u8],
    fault: PolicyFault,
) -> Result<(), AllocError> {
    let span = fault_span(alloc, text, fault)?;
    let place = TextLines::of(alloc, text)?.extent(span);
    let shown = String::from_utf8_lossy(alloc, text)?;
    let lines = fault_lines(alloc, path, &shown, place, fault)?;
    out.extend_from_slice(lines.as_bytes())
}
