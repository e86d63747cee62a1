use frame_records::Lead;
use std::test::Fail;
use terminal_codes::{
    Caret, DOUBLE_HEIGHT, Terminal, code_written, is_service_position, lead_bytes,
};
use test_support::{same, same_in};

fn after(bytes: &[u8]) -> Terminal {
    let mut terminal = Terminal::new();
    terminal.run(bytes);
    terminal
}

// Bytes, then cells 0, 1 and 959, the position, the pending escape and the visible cursor after them.
const RUNS: [(&[u8], [u8; 3], u16, bool, bool); 24] = [
    (&[], [0x20, 0x20, 0x20], 0, false, true),
    // attributes and letters
    (&[0x1b, 0x41, 0x48], [0x81, 0x48, 0x20], 2, false, true),
    (
        &[0x1b, 0x1b, 0x30, 0x41],
        [0x41, 0x20, 0x20],
        1,
        false,
        true,
    ),
    (&[0x1b, 0x0d, 0x41], [0x41, 0x20, 0x20], 1, false, true),
    (&[0x1b, 0xc1], [0x41, 0x20, 0x20], 1, false, true),
    (&[0x1b, 0x5f, 0x40], [0x9f, 0x40, 0x20], 2, false, true),
    (&[0x1b, 0x60, 0x3f], [0x3f, 0x20, 0x20], 1, false, true),
    (&[0x1b, 0x7f, 0x7f], [0x7f, 0x20, 0x20], 1, false, true),
    (&[0x80, 0x9f], [0x80, 0x9f, 0x20], 2, false, true),
    (&[0xa0, 0xff], [0x20, 0x7f, 0x20], 2, false, true),
    (&[0x1b], [0x20, 0x20, 0x20], 0, true, true),
    (&[0x1b, 0x18], [0x20, 0x20, 0x20], 0, false, true),
    (&[0x1b, 0x0f, 0x41], [0x41, 0x20, 0x20], 1, false, true),
    // moves, round the screen's ends
    (&[0x1e, 0x08, 0x41], [0x20, 0x20, 0x41], 0, false, true),
    (&[0x08, 0x09], [0x20, 0x20, 0x20], 0, false, true),
    (&[0x0b], [0x20, 0x20, 0x20], 920, false, true),
    (&[0x0b, 0x0a], [0x20, 0x20, 0x20], 0, false, true),
    (&[0x0b, 0x09, 0x0d], [0x20, 0x20, 0x20], 920, false, true),
    (&[0x08, 0x0d], [0x20, 0x20, 0x20], 920, false, true),
    (&[0x0a, 0x09, 0x1e], [0x20, 0x20, 0x20], 0, false, true),
    // clear, and the cursor's visibility, which 0C keeps
    (&[0x41, 0x42, 0x0c], [0x20, 0x20, 0x20], 0, false, true),
    (&[0x14], [0x20, 0x20, 0x20], 0, false, false),
    (&[0x14, 0x0c], [0x20, 0x20, 0x20], 0, false, false),
    (&[0x14, 0x1b, 0x11], [0x20, 0x20, 0x20], 0, false, true),
];

#[test]
fn writes_moves_and_shows_by_the_byte_table() -> Result<(), Fail> {
    for (bytes, cells, at, pending, visible) in RUNS {
        let terminal = after(bytes).copy();
        let seen = terminal.cells();
        let seen = [seen[0], seen[1], seen[959]];
        let state = (terminal.at(), terminal.is_pending(), terminal.is_visible());
        same_in(bytes, (seen, state), (cells, (at, pending, visible)))?;
    }
    Ok(())
}

#[test]
fn a_caret_goes_where_the_terminal_goes() -> Result<(), Fail> {
    for (bytes, _, at, pending, _) in RUNS {
        let home = Caret {
            at: 0,
            pending: false,
        };
        same_in(bytes, home.run(bytes), Caret { at, pending })?;
    }
    let last = Caret {
        at: 959,
        pending: true,
    };
    let row_1 = Caret {
        at: 40,
        pending: false,
    };
    let leads = [
        last.run(lead_bytes(Lead::Clear)),
        last.run(lead_bytes(Lead::Keep)),
    ];
    same((last.step(0x41).at, leads), (0, [row_1, last]))
}

#[test]
fn the_service_rows_are_the_first_and_the_last() -> Result<(), Fail> {
    for (at, service) in [
        (0, true),
        (39, true),
        (40, false),
        (919, false),
        (920, true),
        (959, true),
    ] {
        let caret = Caret { at, pending: false };
        let touches = [0x41, 0x1b, 0x0c].map(|byte| caret.touches(byte));
        let seen = (is_service_position(at, 0x41), touches);
        same_in(at, seen, (service, [service, false, true]))?;
    }
    Ok(())
}

// Positions, and of each whether double height, and whether another code, counts as written in a service row there.
const PLACES: [(u16, bool, bool); 6] = [
    (39, true, true),
    (40, false, false),
    (879, false, false),
    (880, true, false),
    (919, true, false),
    (920, true, true),
];

#[test]
fn double_height_in_row_22_shows_in_a_service_row() -> Result<(), Fail> {
    for (at, double, other) in PLACES {
        same_in(at, is_service_position(at, DOUBLE_HEIGHT), double)?;
        for code in [0x41, 0x4d, 0x8c, 0x8e] {
            same_in((at, code), is_service_position(at, code), other)?;
        }
    }
    Ok(())
}

// 8D stands for itself, 4D is the letter M where no escape is pending, CD is 4D.
#[test]
fn the_letter_m_is_no_double_height() -> Result<(), Fail> {
    for (at, double, other) in PLACES {
        let caret = Caret { at, pending: false };
        let touches = [0x8d, 0x4d, 0xcd].map(|byte| caret.touches(byte));
        same_in(at, touches, [double, other, other])?;
    }
    Ok(())
}

// After an escape 4D is 8D, 4C is another attribute, and 2D is dropped.
#[test]
fn an_escape_makes_double_height() -> Result<(), Fail> {
    for (at, double, other) in PLACES {
        let caret = Caret { at, pending: true };
        let touches = [0x8d, 0x4d, 0x4c, 0x2d].map(|byte| caret.touches(byte));
        same_in(at, touches, [double, double, other, false])?;
    }
    Ok(())
}

#[test]
fn one_byte_has_one_code_and_one_move() -> Result<(), Fail> {
    same(
        [
            code_written(false, 0x41),
            code_written(true, 0x41),
            code_written(true, 0x30),
            code_written(false, 0x0c),
            code_written(true, 0xc1),
        ],
        [Some(0x41), Some(0x81), None, None, Some(0x41)],
    )?;
    let moves = [
        (41, 0x0b, 1),
        (0, 0x08, 959),
        (79, 0x0d, 40),
        (79, 0x18, 79),
    ];
    for (at, byte, to) in moves {
        let caret = Caret { at, pending: true };
        same_in((at, byte), caret.moved_by(byte), to)?;
    }
    Ok(())
}
