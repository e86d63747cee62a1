//! The texts of cursors: `any`, `c39`, `s80`, each with nothing, `+` or `?` after it.

ghost use Rattle.std.specs.Prelude.{◌≡◌, IfErr};
ghost use Rattle.cert_text.specs.Lines.{place_in, pend_in, without_pend, cursor_in};
ghost use Rattle.cert_text.specs.Loops.{Lasts};

use crate::fault::LineCause;
use abstract_paint::{AbsCursor, Pend, Place};
use page_ids::number_read;

// A place on the screen.
fn place_in(text: &[u8]) -> Result<Place, LineCause>
    ensures value { result ≡ place_in text.now }
    ensures lasts { IfErr result Lasts }
{
    if text == b"any".as_slice() {
        return Ok(Place::Any);
    }
    match text {
        [b'c', digits @ ..] => match number_read(digits, 39) {
            Ok(column) => Ok(Place::Col(column as u16)),
            Err(_) => Err(LineCause::Cursor),
        },
        [b's', digits @ ..] => match number_read(digits, 959) {
            Ok(spot) => Ok(Place::Spot(spot as u16)),
            Err(_) => Err(LineCause::Cursor),
        },
        _ => Err(LineCause::Cursor),
    }
}

// What a cursor's text says of a pending escape, and the text before that.
fn split_pend(text: &[u8]) -> (Pend, &[u8])
    ensures pend { result.0 ≡ pend_in text.now }
    ensures rest { result.1.now ≡ without_pend text.now (pend_in text.now) }
{
    match text {
        [rest @ .., b'+'] => (Pend::Yes, rest),
        [rest @ .., b'?'] => (Pend::Maybe, rest),
        _ => (Pend::No, text),
    }
}

// The cursor of a text.
pub fn cursor_in(text: &[u8]) -> Result<AbsCursor, LineCause>
    ensures value { result ≡ cursor_in text.now }
    ensures lasts { IfErr result Lasts }
{
    let (pend, rest) = split_pend(text);
    let place = place_in(rest)?;
    Ok(AbsCursor { place, pend })
}
