//! The answers of a plain program that runs each of the 1,920 starts on a terminal.

use abstract_paint::{AbsCursor, Painted, Start, paint, start_for};
use frame_records::Lead;
use std::alloc::{AllocError, Global};
use std::test::Fail;
use terminal_codes::{Terminal, lead_bytes};
use test_support::same_in;

// A terminal at a position, an escape pending or not.
fn terminal_at(at: u16, pending: bool) -> Terminal {
    let mut terminal = Terminal::new();
    for _ in 0..at / 40 {
        terminal.step(0x0a);
    }
    for _ in 0..at % 40 {
        terminal.step(0x09);
    }
    if pending {
        terminal.step(0x1b);
    }
    terminal
}

// Whether the byte writes a service position of the terminal, or double height in row 22. A code that is written moves
// the position on.
fn writes_service(terminal: &mut Terminal, byte: u8) -> bool {
    let at = terminal.at();
    terminal.step(byte);
    let is_written = byte >= 0x20 && terminal.at() != at;
    let code = terminal.cells()[at as usize];
    byte == 0x0c || is_written && (at < 40 || at >= 920 || at >= 880 && code == 0x8d)
}

// Runs each start: the least that touches first, and where those that don't touch end.
fn run_starts(lead: Lead, body: &[u8], ends: &mut [bool; 1920]) -> Option<Start> {
    let mut least: Option<Start> = None;
    for n in 0..1920u16 {
        let (at, pending) = (n / 2, n % 2 == 1);
        let mut terminal = terminal_at(at, pending);
        terminal.run(lead_bytes(lead));
        match body
            .iter()
            .position(|byte| writes_service(&mut terminal, *byte))
        {
            Some(offset) => {
                if least.is_none_or(|start| offset < start.offset) {
                    least = Some(Start {
                        at,
                        pending,
                        offset,
                    });
                }
            }
            None => ends[terminal.at() as usize * 2 + terminal.is_pending() as usize] = true,
        }
    }
    least
}

// Whether the cursor stands for just these ends.
fn stands_for(cursor: AbsCursor, ends: &[bool; 1920]) -> bool {
    (0..1920u16).all(|n| cursor.stands(n / 2, n % 2 == 1) == ends[n as usize])
}

// Whether `paint` and `start_for` answer as the plain program does.
fn agrees(lead: Lead, body: &[u8]) -> bool {
    let mut ends = [false; 1920];
    let least = run_starts(lead, body, &mut ends);
    let painted = match (paint(lead, body), least) {
        (Painted::Touches(offset), Some(start)) => offset == start.offset,
        (Painted::Clean(cursor), None) => stands_for(cursor, &ends),
        _ => false,
    };
    painted && start_for(lead, body) == least
}

// The same of both leads.
fn both_agree(body: &[u8]) -> bool {
    agrees(Lead::Clear, body) && agrees(Lead::Keep, body)
}

// Each control byte, first and between moves, letters, escapes and their leads.
#[test]
fn agrees_on_each_control_byte() -> Result<(), Fail> {
    for byte in 0..0x20u8 {
        let bodies: [&[u8]; 9] = [
            &[byte],
            &[byte, 0x41],
            &[0x1b, byte, 0x41],
            &[0x0d, byte],
            &[0x0d, byte, 0x0a, 0x1b],
            &[0x0d, 0x08, byte],
            &[0x1e, byte, 0x41],
            &[0x1e, 0x0a, 0x41, byte, 0x42],
            &[0x1e, 0x0b, 0x08, byte, 0x43],
        ];
        for body in bodies {
            same_in(body, both_agree(body), true)?;
        }
    }
    Ok(())
}

// Each two control bytes and a letter.
#[test]
fn agrees_on_each_two_control_bytes() -> Result<(), Fail> {
    for first in 0..0x20u8 {
        for second in 0..0x20u8 {
            let bodies: [&[u8]; 3] = [
                &[first, second, 0x41],
                &[0x0d, first, second, 0x1b, 0x41],
                &[0x1e, 0x0a, first, second, 0x41],
            ];
            for body in bodies {
                same_in(body, both_agree(body), true)?;
            }
        }
    }
    Ok(())
}

// Each byte alone, and after an escape, from any position, a column and a spot.
#[test]
fn agrees_on_each_byte_after_an_escape() -> Result<(), Fail> {
    for byte in 0..=255u8 {
        let bodies: [&[u8]; 4] = [
            &[byte],
            &[0x1b, byte],
            &[0x0d, 0x1b, byte],
            &[0x1e, 0x0b, 0x08, 0x1b, byte],
        ];
        for body in bodies {
            same_in(body, both_agree(body), true)?;
        }
    }
    Ok(())
}

// The head, this many letters, the middle, and this many letters more.
fn body_of(
    alloc: Global,
    head: &[u8],
    letters: usize,
    middle: &[u8],
    more: usize,
) -> Result<Vec<u8>, AllocError> {
    let mut body = Vec::new(alloc);
    body.extend_from_slice(head)?;
    for _ in 0..letters {
        body.push(0x41)?;
    }
    body.extend_from_slice(middle)?;
    for _ in 0..more {
        body.push(0x7f)?;
    }
    Ok(body)
}

// Runs that end before, at and after position 919, from the start and from the end of row 22, from row 0, and from row
// 23, after whose last cell comes position 0.
#[test]
fn agrees_on_runs_near_the_service_rows(rt: HostRuntime) -> Result<(), Fail> {
    let heads: [&[u8]; 6] = [
        &[0x1e, 0x0b, 0x0b],
        &[0x1e, 0x0a, 0x08, 0x0b, 0x0b],
        &[0x1e],
        &[0x1e, 0x0a, 0x08],
        &[0x1e, 0x0b],
        &[0x1e, 0x08],
    ];
    for head in heads {
        for letters in 0..48 {
            let body = body_of(rt.alloc(), head, letters, &[], 0)?;
            same_in((head, letters), both_agree(&body), true)?;
        }
    }
    Ok(())
}

// Double height, other attributes, and letters, in rows 21 and 22 and after them.
#[test]
fn agrees_on_double_height_near_the_last_row(rt: HostRuntime) -> Result<(), Fail> {
    let codes: [&[u8]; 6] = [
        &[0x8d],
        &[0x1b, 0x4d],
        &[0x4d],
        &[0xcd],
        &[0x8c],
        &[0x1b, 0x4e],
    ];
    for code in codes {
        for letters in [0, 1, 38, 39, 40, 41, 78, 79, 80] {
            let body = body_of(rt.alloc(), &[0x1e, 0x0b, 0x0b, 0x0b], letters, code, 1)?;
            same_in((letters, code), both_agree(&body), true)?;
        }
    }
    Ok(())
}

// The letters of all rows from 1 to 22, and one less and one more.
#[test]
fn agrees_on_full_pages(rt: HostRuntime) -> Result<(), Fail> {
    for letters in 878..883 {
        let body = body_of(rt.alloc(), &[0x1e, 0x0a], letters, &[], 0)?;
        same_in(letters, both_agree(&body), true)?;
        let body = body_of(rt.alloc(), &[], letters, &[], 0)?;
        same_in(letters, agrees(Lead::Clear, &body), true)?;
    }
    Ok(())
}

// Runs cut by each control byte and by codes that aren't plain.
#[test]
fn agrees_on_runs_that_are_cut(rt: HostRuntime) -> Result<(), Fail> {
    for letters in [1, 7, 8, 9, 31, 32, 33, 40] {
        for byte in 0..0x20u8 {
            let body = body_of(rt.alloc(), &[0x1e, 0x0a], letters, &[byte], 34)?;
            same_in((letters, byte), both_agree(&body), true)?;
        }
        for byte in [0x80, 0x9f, 0xa0, 0xff] {
            let body = body_of(rt.alloc(), &[0x1e, 0x0a], letters, &[byte], 34)?;
            same_in((letters, byte), agrees(Lead::Keep, &body), true)?;
        }
    }
    Ok(())
}
