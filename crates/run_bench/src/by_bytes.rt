//! The plain form of painting: one step of the cursor for each byte.

ghost use Rattle.std.specs.Prelude.{◌<◌, IfSome};
ghost use Rattle.abstract_paint.specs.Paint.{OnScreen};

use abstract_paint::{AbsCursor, Painted, Pend, Place};
use frame_records::Lead;
use terminal_codes::{Caret, code_written, is_service_position};

fn calm(place: Place) -> AbsCursor
    requires { OnScreen place }
    ensures { OnScreen result.place }
{
    AbsCursor {
        place,
        pend: Pend::No,
    }
}

fn column_moved(column: u16, byte: u8) -> Place
    requires { column < 40 }
    ensures { OnScreen result }
{
    match byte {
        0x08 => Place::Col((column + 39) % 40),
        0x09 => Place::Col((column + 1) % 40),
        0x0d => Place::Col(0),
        0x1e => Place::Spot(0),
        _ => Place::Col(column),
    }
}

fn any_place_moved(byte: u8) -> Place
    ensures { OnScreen result }
{
    match byte {
        0x0d => Place::Col(0),
        0x1e => Place::Spot(0),
        _ => Place::Any,
    }
}

fn place_after(place: Place, byte: u8) -> Place
    requires { OnScreen place }
    ensures { OnScreen result }
{
    match place {
        Place::Any => any_place_moved(byte),
        Place::Col(column) => column_moved(column, byte),
        Place::Spot(at) => {
            let caret = Caret { at, pending: false };
            Place::Spot(caret.moved_by(byte))
        }
    }
}

fn code(pend: Pend, byte: u8) -> Option<u8> {
    match pend {
        Pend::Yes => code_written(true, byte),
        Pend::No | Pend::Maybe => code_written(false, byte),
    }
}

fn after_code(place: Place, code: u8) -> Option<AbsCursor>
    requires { OnScreen place }
    ensures { IfSome result (λ next. OnScreen next.place) }
{
    match place {
        Place::Spot(at) => {
            if is_service_position(at, code) {
                return None;
            }
            Some(calm(Place::Spot(at + 1)))
        }
        Place::Any | Place::Col(_) => None,
    }
}

fn after_control(cursor: AbsCursor, byte: u8) -> Option<AbsCursor>
    requires { OnScreen cursor.place }
    ensures { IfSome result (λ next. OnScreen next.place) }
{
    match byte {
        0x1b => Some(AbsCursor {
            place: cursor.place,
            pend: Pend::Yes,
        }),
        0x0c => None,
        _ => Some(calm(place_after(cursor.place, byte))),
    }
}

fn after_byte(cursor: AbsCursor, byte: u8) -> Option<AbsCursor>
    requires { OnScreen cursor.place }
    ensures { IfSome result (λ next. OnScreen next.place) }
{
    if byte < 0x20 {
        return after_control(cursor, byte);
    }
    match code(cursor.pend, byte) {
        None => Some(calm(cursor.place)),
        Some(code) => after_code(cursor.place, code),
    }
}

fn after_lead(lead: Lead) -> AbsCursor
    ensures { OnScreen result.place }
{
    match lead {
        Lead::Clear => calm(Place::Spot(40)),
        Lead::Keep => AbsCursor {
            place: Place::Any,
            pend: Pend::Maybe,
        },
    }
}

// What `paint` answers, byte by byte.
pub fn paint_by_bytes(lead: Lead, body: &[u8]) -> Painted {
    let mut cursor = after_lead(lead);
    for (i, byte) in body.iter().enumerate() {
        match after_byte(cursor, *byte) {
            None => return Painted::Touches(i),
            Some(next) => cursor = next,
        }
    }
    Painted::Clean(cursor)
}
