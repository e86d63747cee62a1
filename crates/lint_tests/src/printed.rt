//! Words as they are printed: the code, its name, the message and the hint.

use lint_words::Words;
use std::alloc::{AllocError, Global};

pub fn printed(alloc: Global, words: &Words) -> Result<String, AllocError> {
    let mut out = String::from_str(alloc, words.code().word())?;
    if !words.code().name().is_empty() {
        out.push_str(" ")?;
        out.push_str(words.code().name())?;
    }
    out.push_str(": ")?;
    out.push_str(words.message().as_str())?;
    out.push_str(hint(alloc, words)?.as_str())?;
    Ok(out)
}

// The hint after `; `, or nothing.
pub fn hint(alloc: Global, words: &Words) -> Result<String, AllocError> {
    let mut out = String::new(alloc);
    if let Some(hint) = words.hint() {
        out.push_str("; ")?;
        out.push_str(hint.as_str())?;
    }
    Ok(out)
}
