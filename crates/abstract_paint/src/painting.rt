//! Painting a frame by one cursor, without cells.

ghost use Rattle.std.specs.Prelude.{◌≡◌, ◌<◌, length};
ghost use Rattle.abstract_paint.specs.Paint.{OnScreen, paint_of, IsPainted, IfClean, IfTouches};

use crate::advance::{Advance, advance_over};
use crate::cursor::AbsCursor;
use crate::step::after_lead;
use frame_records::Lead;

/// The result of painting a frame.
#[derive(Debug, Clone, Copy, PartialEq, Eq)]
pub enum Painted {
    /// From no start a write counts as one in a service row. The cursor stands for exactly the ends that occur.
    Clean(AbsCursor),
    /// The offset of the first body byte whose write counts, from some start, as one in a service row.
    Touches(usize),
}

/// Whether the frame is clean, with where it may end, or the first byte that touches.
///
/// Runs of plain bytes are taken 32 at a time, other bytes one by one.
pub fn paint(lead: Lead, body: &[u8]) -> Painted
    ensures computed { result ≡ paint_of lead body.now }
    // Exactly: clean with just the ends, or the least offset.
    ensures meaning { IsPainted lead body.now result }

    ensures on_screen { IfClean result (λ cursor. OnScreen cursor.place) }
    ensures inside { IfTouches result (λ offset. offset < length body.now) }
{
    let mut cursor = after_lead(lead);
    let mut done = 0;
    while done < body.len() {
        match advance_over(cursor, &body[done..]) {
            Advance::Touches(more) => return Painted::Touches(done + more),
            Advance::Goes(next, more) => {
                cursor = next;
                done += more;
            }
        }
    }
    Painted::Clean(cursor)
}
