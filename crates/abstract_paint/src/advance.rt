//! How far painting gets at once: over a run of plain bytes from a spot, or over one byte.

ghost use Rattle.std.specs.Prelude.{◌≡◌, ◌<◌, ◌≤◌, length, IfSome};
ghost use Rattle.abstract_paint.specs.declared.cursor.Place.TheVariants.{Spot};
ghost use Rattle.abstract_paint.specs.Paint.{OnScreen, calm};
ghost use Rattle.abstract_paint.specs.Plain.{room, plain_len};
ghost use Rattle.abstract_paint.specs.Loops.{IsAdvance};

use crate::cursor::{AbsCursor, Pend, Place};
use crate::plain::{front_run, is_plain};
use crate::step::{after_byte, calm};

// What painting the front of some bytes gives.
pub enum Advance {
    // The byte after this many touches.
    Touches(usize),
    // After this many bytes, none of which touch, the cursor is this one.
    Goes(AbsCursor, usize),
}

// How many plain bytes can be written from the position on, up to the end of row 22.
fn room(at: u16) -> u16
    ensures room { result ≡ room at }
    ensures within { result ≤ 880 }
{
    if at < 40 {
        0
    } else {
        920u16.saturating_sub(at)
    }
}

// A run of plain bytes from a spot, which ends before row 23 or reaches it.
fn over_run(at: u16, rest: &[u8]) -> Advance
    requires on_screen { at < 960 }
    requires plain { 0 < plain_len rest.now }
    ensures { IsAdvance (calm (Spot at)) rest.now result }
{
    let room = room(at);
    let most = rest.len().min(room as usize + 1);
    let run = front_run(&rest[..most]);
    if run > room as usize {
        return Advance::Touches(room as usize);
    }
    Advance::Goes(calm(Place::Spot(at + run as u16)), run)
}

// The first byte.
fn over_byte(cursor: AbsCursor, rest: &[u8]) -> Advance
    requires on_screen { OnScreen cursor.place }
    requires more { 0 < length rest.now }
    ensures { IsAdvance cursor rest.now result }
{
    match after_byte(cursor, rest[0]) {
        None => Advance::Touches(0),
        Some(next) => Advance::Goes(next, 1),
    }
}

// The position, where it is the only one and no escape is pending.
fn known_spot(cursor: AbsCursor) -> Option<u16>
    ensures { IfSome result (λ at. cursor ≡ calm (Spot at)) }
{
    match cursor {
        AbsCursor {
            place: Place::Spot(at),
            pend: Pend::No,
        } => Some(at),
        _ => None,
    }
}

// How far the bytes lead at once.
pub fn advance_over(cursor: AbsCursor, rest: &[u8]) -> Advance
    requires on_screen { OnScreen cursor.place }
    requires more { 0 < length rest.now }
    ensures { IsAdvance cursor rest.now result }
{
    if is_plain(rest[0])
        && let Some(at) = known_spot(cursor)
    {
        return over_run(at, rest);
    }
    over_byte(cursor, rest)
}
