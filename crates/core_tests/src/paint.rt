use abstract_paint::{
    AbsCursor, Painted, Pend, Place, Start, paint, plain_mask, plain_run, start_at, start_for,
};
use frame_records::Lead;
use std::test::Fail;
use test_support::{same, same_in};

fn clean(place: Place, pend: Pend) -> Painted {
    Painted::Clean(AbsCursor { place, pend })
}

fn spot(at: u16) -> Painted {
    clean(Place::Spot(at), Pend::No)
}

// More of them are in `tests/cases`.
#[test]
fn paints_short_bodies() -> Result<(), Fail> {
    let rows: [(Lead, &[u8], Painted); 5] = [
        (Lead::Keep, &[], clean(Place::Any, Pend::Maybe)),
        (Lead::Keep, &[0x41], Painted::Touches(0)),
        (Lead::Keep, &[0x0d, 0x0a, 0x41], Painted::Touches(2)),
        (Lead::Clear, &[0x1e, 0x0b, 0x41], Painted::Touches(2)),
        (Lead::Keep, &[0x1b, 0x40], Painted::Touches(1)),
    ];
    for (lead, body, painted) in rows {
        same_in((lead, body), paint(lead, body), painted)?;
    }
    Ok(())
}

// Home, one row down, and letters to the end of row 22 and one further.
#[test]
fn paints_full_pages() -> Result<(), Fail> {
    let mut body = [0x41; 883];
    body[0] = 0x1e;
    body[1] = 0x0a;
    for lead in [Lead::Clear, Lead::Keep] {
        same(paint(lead, &body[..881]), spot(919))?;
        same(paint(lead, &body[..882]), spot(920))?;
        same(paint(lead, &body), Painted::Touches(882))?;
    }
    Ok(())
}

// An attribute at the front of a row, this many rows down. 4D is double height, which shows in the row beneath too.
#[test]
fn paints_an_attribute_in_each_row() -> Result<(), Fail> {
    for (letter, last) in [(0x4c, 22), (0x4d, 21), (0x4e, 22)] {
        let mut body = [0x0a; 30];
        body[0] = 0x1e;
        for rows in 1..24 {
            body[rows + 1] = 0x1b;
            body[rows + 2] = letter;
            let painted = if rows > last {
                Painted::Touches(rows + 2)
            } else {
                spot(rows as u16 * 40 + 1)
            };
            same_in(
                (rows, letter),
                paint(Lead::Clear, &body[..rows + 3]),
                painted,
            )?;
            body[rows + 1] = 0x0a;
            body[rows + 2] = 0x0a;
        }
    }
    Ok(())
}

// Codes in each column of rows 21 and 22 and below them, after letters from the start of row 21 on.
#[test]
fn paints_double_height_up_to_row_21() -> Result<(), Fail> {
    let mut body = [0x41; 85];
    body[0] = 0x1e;
    body[1] = 0x0b;
    body[2] = 0x0b;
    body[3] = 0x0b;
    for letters in 0..81 {
        for code in [0x41, 0x4d, 0x8c, 0x8d, 0x8e, 0xcd] {
            body[letters + 4] = code;
            let painted = if letters == 80 || letters >= 40 && code == 0x8d {
                Painted::Touches(letters + 4)
            } else {
                spot(letters as u16 + 841)
            };
            same_in(
                (letters, code),
                paint(Lead::Keep, &body[..letters + 5]),
                painted,
            )?;
        }
        body[letters + 4] = 0x41;
    }
    Ok(())
}

// The start, where there is one, isn't pending; more of them are in `tests/cases`.
fn start(at: u16, offset: usize) -> Option<Start> {
    Some(Start {
        at,
        pending: false,
        offset,
    })
}

#[test]
fn finds_the_least_start() -> Result<(), Fail> {
    // double height goes one row down to row 22, and an escape may be pending before the body
    let rows: [(Lead, &[u8], Option<Start>); 7] = [
        (Lead::Keep, &[0x41], start(0, 0)),
        (Lead::Keep, &[0x0d, 0x0a, 0x41], start(880, 2)),
        (Lead::Clear, &[0x1e, 0x0b, 0x41], start(0, 2)),
        (Lead::Keep, &[0x0d, 0x0a, 0x1b, 0x4d], start(840, 3)),
        (Lead::Keep, &[0x4d], start(0, 0)),
        (Lead::Keep, &[0x0d], None),
        (Lead::Clear, &[], None),
    ];
    for (lead, body, least) in rows {
        same_in((lead, body), start_for(lead, body), least)?;
    }
    Ok(())
}

// A byte that touches after the first one, one that never does, and one past the body's end.
#[test]
fn finds_the_least_start_at_a_byte() -> Result<(), Fail> {
    let rows: [(Lead, &[u8], usize, Option<Start>); 6] = [
        (Lead::Keep, &[0x41, 0x42], 0, start(0, 0)),
        (Lead::Keep, &[0x41, 0x42], 1, start(0, 1)),
        (Lead::Keep, &[0x09, 0x0a, 0x41], 2, start(879, 2)),
        (Lead::Clear, &[0x41, 0x0c, 0x41], 0, None),
        (Lead::Clear, &[0x41, 0x0c, 0x41], 2, start(0, 2)),
        (Lead::Keep, &[0x41], 1, None),
    ];
    for (lead, body, offset, least) in rows {
        same_in((lead, body, offset), start_at(lead, body, offset), least)?;
    }
    Ok(())
}

// A body as long as may be. Its 4,095 moves down are 15 rows modulo 24, so the starts that touch are in row 8, which
// ends in row 23, and in row 9, which ends in row 0.
#[test]
fn finds_a_late_start() -> Result<(), Fail> {
    let mut body = [0x0a; 4096];
    body[4095] = 0x41;
    let late = Start {
        at: 320,
        pending: false,
        offset: 4095,
    };
    same(start_for(Lead::Keep, &body), Some(late))?;
    Ok(())
}

#[test]
fn stands_for_positions_of_the_screen() -> Result<(), Fail> {
    let rows: [(Place, u16, bool); 14] = [
        (Place::Any, 0, true),
        (Place::Any, 959, true),
        (Place::Any, 960, false),
        (Place::Col(39), 39, true),
        (Place::Col(39), 959, true),
        (Place::Col(39), 958, false),
        (Place::Col(39), 999, false),
        (Place::Col(0), 920, true),
        (Place::Col(40), 40, false),
        (Place::Col(40), 0, false),
        (Place::Spot(959), 959, true),
        (Place::Spot(959), 919, false),
        (Place::Spot(960), 960, false),
        (Place::Spot(960), 0, false),
    ];
    for (place, at, is_stood_for) in rows {
        let pends = [
            (Pend::No, true, false),
            (Pend::Yes, false, true),
            (Pend::Maybe, true, true),
        ];
        for (pend, not_pending, pending) in pends {
            let cursor = AbsCursor { place, pend };
            let got = (cursor.stands(at, false), cursor.stands(at, true));
            let wanted = (is_stood_for && not_pending, is_stood_for && pending);
            same_in((cursor, at), got, wanted)?;
        }
    }
    Ok(())
}

#[test]
fn counts_plain_bytes() -> Result<(), Fail> {
    same(plain_run(&[]), 0)?;
    same(plain_run(&[0x7f, 0x1f]), 1)?;
    let mut bytes = [0x41; 34];
    bytes[33] = 0x0d;
    same(plain_run(&bytes), 33)?;
    bytes[31] = 0x80;
    same(plain_run(&bytes[..32]), 31)?;
    Ok(())
}

// Each length, with a byte below the plain ones, one above them, or the last of them at each place.
#[test]
fn counts_plain_bytes_of_each_length() -> Result<(), Fail> {
    let mut bytes = [0x20; 100];
    for length in 0..101 {
        same(plain_run(&bytes[..length]), length)?;
        for place in 0..length {
            for (byte, run) in [(0x1f, place), (0x80, place), (0x7f, length)] {
                bytes[place] = byte;
                same_in((byte, place), plain_run(&bytes[..length]), run)?;
            }
            bytes[place] = 0x20;
        }
    }
    Ok(())
}

#[test]
fn masks_plain_bytes() -> Result<(), Fail> {
    let mut bytes = [0x41; 32];
    same(plain_mask(&bytes), 4_294_967_295)?;
    bytes[0] = 0x80;
    same(plain_mask(&bytes), 4_294_967_294)?;
    bytes[0] = 0x41;
    bytes[31] = 0x1f;
    same(plain_mask(&bytes), 2_147_483_647)?;
    bytes[31] = 0x7f;
    bytes[4] = 0xff;
    bytes[17] = 0x00;
    same(plain_mask(&bytes), 4_294_967_295 - 16 - 131_072)?;
    Ok(())
}
