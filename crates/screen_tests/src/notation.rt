//! The looks of a row in few characters.

use screens::{Glyph, Height, Look};
use std::alloc::{AllocError, Global};
use std::fmt::Write;

// Foreground and background, then f flash, c concealed, s separated, U upper, L lower.
fn push_marks(out: &mut String, look: &Look) -> Result<(), AllocError> {
    out.push('/')?;
    out.push(char::from(b'0' + look.foreground.number() % 8))?;
    out.push(char::from(b'0' + look.background.number() % 8))?;
    if look.flash {
        out.push('f')?;
    }
    if look.concealed {
        out.push('c')?;
    }
    if is_separated(look) {
        out.push('s')?;
    }
    match look.height {
        Height::Single => Ok(()),
        Height::Upper => out.push('U'),
        Height::Lower => out.push('L'),
    }
}

fn is_separated(look: &Look) -> bool {
    match &look.glyph {
        Glyph::Char(_) => false,
        Glyph::Block(mosaic) => mosaic.separated,
    }
}

fn is_alike(a: &Look, b: &Look) -> bool {
    a.foreground == b.foreground
        && a.background == b.background
        && a.flash == b.flash
        && a.concealed == b.concealed
        && is_separated(a) == is_separated(b)
        && a.height == b.height
}

/// Runs of alike cells, each with its marks: a space is `_`, a mosaic its number in brackets.
pub fn notation(alloc: Global, row: &[Look]) -> Result<String, AllocError> {
    let mut out = String::new(alloc);
    let mut before: Option<&Look> = None;
    for look in row {
        if let Some(before) = before {
            if !is_alike(look, before) {
                push_marks(&mut out, before)?;
                out.push(' ')?;
            }
        }
        match &look.glyph {
            Glyph::Char(' ') => out.push('_')?,
            Glyph::Char(c) => out.push(*c)?,
            Glyph::Block(mosaic) => {
                let number = mosaic.sextants.get();
                out.push_str(format!(in alloc; "[{number}]")?.as_str())?;
            }
        }
        before = Some(look);
    }
    if let Some(last) = before {
        push_marks(&mut out, last)?;
    }
    Ok(out)
}
