//! The frames that are added at the end.

ghost use Rattle.std.specs.Prelude.{◌≡◌, ◌++◌, IfOk, IfErr, OnOk};
ghost use Rattle.screen_files.specs.Album.{IsNoText};
ghost use Rattle.frame_edits.specs.Merging as spec;

use screen_files::{BaseTextFault, Filed, Known, push_frames};
use std::alloc::{AllocError, Global};

// Whether a text ends where a line does.
fn is_line_ended(text: &[u8]) -> bool
    ensures { result ≡ spec.is_line_ended text.now }
{
    match text.split_last() {
        Some((last, _)) => *last == b'\n',
        None => true,
    }
}

// The end of the last line, if it has none.
fn push_line_end(out: &mut Vec<u8>, text: &[u8]) -> Result<(), AllocError>
    ensures { OnOk result (out.new.items ≡ out.old.items ++ spec.missing_line_end text.now) }
{
    if !is_line_ended(text) {
        out.push(b'\n')?;
    }
    Ok(())
}

/// What comes after the text: the frames that are added, with routes to known frames.
pub fn additions(
    alloc: Global,
    text: &[u8],
    known: &Known,
    added: &[Filed],
) -> Result<Vec<u8>, BaseTextFault>
    ensures text { IfOk result (λ new. new.items ≡ spec.additions text.now known.now added.now) }
    ensures fault { IfErr result (IsNoText (spec.addition_over text.now known.now added.now)) }
{
    let mut out = Vec::new(alloc);
    if added.is_empty() {
        return Ok(out);
    }
    push_line_end(&mut out, text).map_err(|_| BaseTextFault::Memory)?;
    push_frames(&mut out, known, added)?;
    Ok(out)
}
