//! A few words by which a frame can be recognised.

ghost use Rattle.std.specs.Prelude.{◌≡◌, ◌++◌, IfOk, OnOk};
ghost use Rattle.std.specs.List.{list_any};
ghost use Rattle.std.specs.Char.{is_ascii_alphabetic};
ghost use Rattle.base_map.specs.Nodes as spec;

use screens::{Writing, character, push_char};
use std::alloc::{AllocError, Global};

// The code that begins an escape, with one more byte.
const ESCAPE: u8 = 0x1B;

// The most characters of a title.
const MOST_TITLE: usize = 24;

fn ends_run(code: u8) -> bool
    ensures { result ≡ spec.ends_run code }
{
    code < 0x20 || code > 0x7E
}

fn has_letter(run: &[u8]) -> bool
    ensures { result ≡ list_any is_ascii_alphabetic run.now }
{
    run.iter().any(|code| code.is_ascii_alphabetic())
}

// Whether a run of codes can be a title.
fn is_title(run: &[u8]) -> bool
    ensures { result ≡ spec.is_title run.now }
{
    run.len() >= 3 && has_letter(run)
}

// The first run of codes of a body, escapes left out, that can be a title; empty if there is none.
fn title_run(alloc: Global, body: &[u8]) -> Result<Vec<u8>, AllocError>
    ensures { IfOk result (λ run. run.items ≡ spec.title_run body.now) }
{
    let mut run = Vec::new(alloc);
    let mut is_escaped = false;
    for byte in body {
        if is_escaped {
            is_escaped = false;
        } else if *byte == ESCAPE {
            is_escaped = true;
        } else if !ends_run(*byte) {
            run.push(*byte)?;
        } else if is_title(run.as_slice()) {
            return Ok(run);
        } else {
            run.clear();
        }
    }
    if !is_title(run.as_slice()) {
        run.clear();
    }
    Ok(run)
}

// A run's title.
fn shortened(run: &[u8]) -> &[u8]
    ensures { result.now ≡ spec.shortened run.now }
{
    let trimmed = run.trim_ascii();
    &trimmed[..MOST_TITLE.min(trimmed.len())]
}

// What a caller sees of a code, as a label of DOT has it: a bare `&` may begin a reference there.
fn push_code(out: &mut Vec<u8>, code: u8) -> Result<(), AllocError>
    ensures { OnOk result (out.new.items ≡ out.old.items ++ spec.escaped_code code) }
{
    match code {
        b'"' => out.extend_from_slice(b"\\\""),
        b'&' => out.extend_from_slice(b"&amp;"),
        _ => push_char(out, Writing::Plain, character(code)),
    }
}

fn push_escaped(out: &mut Vec<u8>, text: &[u8]) -> Result<(), AllocError>
    ensures { OnOk result (out.new.items ≡ out.old.items ++ spec.dot_escaped text.now) }
{
    for code in text {
        push_code(out, *code)?;
    }
    Ok(())
}

// Writes a body's title after a text, as a line of a label; nothing if it has none.
pub fn push_title(alloc: Global, out: &mut Vec<u8>, body: &[u8]) -> Result<(), AllocError>
    ensures { OnOk result (out.new.items ≡ out.old.items ++ spec.title_line (spec.node_title body.now)) }
{
    let run = title_run(alloc, body)?;
    let title = shortened(run.as_slice());
    if !title.is_empty() {
        out.extend_from_slice(b"\\n")?;
        push_escaped(out, title)?;
    }
    Ok(())
}
