ghost use Rattle.std.specs.Prelude.{◌≡◌, ◌++◌, ◌≤◌, IfOk, length, option_map};
ghost use Rattle.text_edits.specs.Edits as spec;

use std::alloc::{AllocError, Global};
use std::marker::Model;

/// A span of a text, in bytes, and what takes its place. An empty span is a place, where the text is inserted.
#[derive(Debug, Drop)]
pub struct Replacement {
    pub begin: usize,
    pub end: usize,
    pub text: Vec<u8>,
}

impl Model for Replacement {
    ghost use Rattle.text_edits.specs.Edits.{ReplacementView};

    ghost Value = { ReplacementView };

    ghost view = { λ r. record { begin = r.begin; end = r.end; text = r.text.items } };
}

// Whether a replacement's span begins at a place or after it, and ends in a text of this length.
fn is_after(replacement: &Replacement, at: usize, len: usize) -> bool
    ensures { result ≡ spec.is_after at len replacement.now }
{
    at <= replacement.begin && replacement.begin <= replacement.end && replacement.end <= len
}

/// The text with each replacement made; `None` if a span begins before the one in front of it ends, or doesn't lie in the text.
///
/// Spans are of the text as it was. Linear in both texts.
pub fn edited(
    alloc: Global,
    text: &[u8],
    replacements: &[Replacement],
) -> Result<Option<Vec<u8>>, AllocError>
    ensures { IfOk result (λ new. option_map (λ bytes. bytes.items) new ≡ spec.edited text.now replacements.now) }
{
    let mut new = Vec::new(alloc);
    let mut at = 0;
    for replacement in replacements {
        if !is_after(replacement, at, text.len()) {
            return Ok(None);
        }
        new.extend_from_slice(&text[at..replacement.begin])?;
        new.extend_from_slice(replacement.text.as_slice())?;
        at = replacement.end;
    }
    new.extend_from_slice(&text[at..])?;
    Ok(Some(new))
}
