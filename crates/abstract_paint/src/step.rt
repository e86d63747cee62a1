//! One byte's step of the abstract cursor.

ghost use Rattle.std.specs.Prelude.{◌≡◌, ◌<◌, IfSome};
ghost use Rattle.abstract_paint.specs.Paint.{OnScreen, calm, any_moved, col_moved, place_moved, code_by, written_at, control_cursor, cursor_step, lead_end};

use crate::cursor::{AbsCursor, Pend, Place};
use frame_records::Lead;
use terminal_codes::{Caret, code_written, is_service_position};

// The place, no escape pending.
pub fn calm(place: Place) -> AbsCursor
    ensures { result ≡ calm place }
{
    AbsCursor {
        place,
        pend: Pend::No,
    }
}

// A column after a code that moves.
fn column_moved(column: u16, byte: u8) -> Place
    requires { column < 40 }
    ensures moved { result ≡ col_moved column byte }
    ensures on_screen { OnScreen result }
{
    match byte {
        0x08 => Place::Col((column + 39) % 40),
        0x09 => Place::Col((column + 1) % 40),
        0x0d => Place::Col(0),
        0x1e => Place::Spot(0),
        _ => Place::Col(column),
    }
}

// Any position after a code that moves.
fn any_place_moved(byte: u8) -> Place
    ensures moved { result ≡ any_moved byte }
    ensures on_screen { OnScreen result }
{
    match byte {
        0x0d => Place::Col(0),
        0x1e => Place::Spot(0),
        _ => Place::Any,
    }
}

// A place after a code that moves.
fn place_after(place: Place, byte: u8) -> Place
    requires { OnScreen place }
    ensures moved { result ≡ place_moved place byte }
    ensures on_screen { OnScreen result }
{
    match place {
        Place::Any => any_place_moved(byte),
        Place::Col(column) => column_moved(column, byte),
        Place::Spot(at) => {
            let caret = Caret { at, pending: false };
            Place::Spot(caret.moved_by(byte))
        }
    }
}

// The code written. If both flags can be, that of no pending escape: the other one writes less.
fn code(pend: Pend, byte: u8) -> Option<u8>
    ensures { result ≡ code_by pend byte }
{
    match pend {
        Pend::Yes => code_written(true, byte),
        Pend::No | Pend::Maybe => code_written(false, byte),
    }
}

// The cursor after a code is written, or none if the code counts as written in a service row at some position of the
// place. Of a column's positions, and of all positions, some are in a service row.
fn after_code(place: Place, code: u8) -> Option<AbsCursor>
    requires { OnScreen place }
    ensures computed { result ≡ written_at place code }
    ensures on_screen { IfSome result (λ next. OnScreen next.place) }
{
    match place {
        Place::Spot(at) => {
            if is_service_position(at, code) {
                return None;
            }
            Some(calm(Place::Spot(at + 1)))
        }
        Place::Any | Place::Col(_) => None,
    }
}

// The cursor after a byte from 00 to 1F, or none for 0C, which writes all positions.
fn after_control(cursor: AbsCursor, byte: u8) -> Option<AbsCursor>
    requires { OnScreen cursor.place }
    ensures computed { result ≡ control_cursor cursor byte }
    ensures on_screen { IfSome result (λ next. OnScreen next.place) }
{
    match byte {
        0x1b => Some(AbsCursor {
            place: cursor.place,
            pend: Pend::Yes,
        }),
        0x0c => None,
        _ => Some(calm(place_after(cursor.place, byte))),
    }
}

// The cursor after a byte, or none if the byte writes a service position from some place of it.
pub fn after_byte(cursor: AbsCursor, byte: u8) -> Option<AbsCursor>
    requires { OnScreen cursor.place }
    ensures computed { result ≡ cursor_step cursor byte }
    ensures on_screen { IfSome result (λ next. OnScreen next.place) }
{
    if byte < 0x20 {
        return after_control(cursor, byte);
    }
    match code(cursor.pend, byte) {
        None => Some(calm(cursor.place)),
        Some(code) => after_code(cursor.place, code),
    }
}

// Where a body begins: below the first row of a cleared screen, or anywhere, an escape pending or not.
pub fn after_lead(lead: Lead) -> AbsCursor
    ensures computed { result ≡ lead_end lead }
    ensures on_screen { OnScreen result.place }
{
    match lead {
        Lead::Clear => calm(Place::Spot(40)),
        Lead::Keep => AbsCursor {
            place: Place::Any,
            pend: Pend::Maybe,
        },
    }
}
