use crate::notation::notation;
use screens::{hides_text, screen_looks};
use std::test::Fail;
use test_support::same_in;

// Rows of codes from row 1 on, and how they look. Those under single height alone are followed by what is covered.
const WORKED: [(&[&[u8]], &[&str]); 20] = [
    (&[&[0x81, 0x41]], &["_/70 A/10"]),
    (&[&[0x88, 0x41, 0x89, 0x42]], &["_/70 A/70f _B/70"]),
    (
        &[&[0x84, 0x41, 0x9d, 0x42, 0x9c, 0x43]],
        &["_/70 A/40 _B/44 _C/40"],
    ),
    (&[&[0x98, 0x41, 0x83, 0x42]], &["_A_/70c B/30"]),
    (
        &[&[0x91, 0x35, 0x7f, 0x6a, 0x20, 0x41]],
        &["_/70 [21][63][42]_A/10"],
    ),
    (
        &[&[0x91, 0x9a, 0x7f, 0x20, 0x99, 0x7f]],
        &["_/70 _/10 [63]/10s __[63]/10"],
    ),
    (
        &[&[0x91, 0x7f, 0x9e, 0x92, 0x9f, 0x93, 0x7f]],
        &["_/70 [63][63][63]/10 [63]_/20 [63]/30"],
    ),
    (
        &[&[0x91, 0x9a, 0x2e, 0x9e, 0x99, 0x98]],
        &["_/70 _/10 [14][14][14]/10s [14]/10cs"],
    ),
    (
        &[&[0x91, 0x20, 0x9e, 0x7f, 0x41, 0x92]],
        &["_/70 __[63]A[63]/10"],
    ),
    (
        &[&[0x91, 0x7f, 0x9e, 0x81, 0x92, 0x91, 0x93]],
        &["_/70 [63][63][63]_/10 _/20 _/10"],
    ),
    (
        &[&[0x91, 0x7f, 0x9e, 0x8d, 0x92, 0x8c, 0x92, 0x91]],
        &["_/70 [63][63][63]/10 _/10U ___/20"],
    ),
    (
        &[&[0x91, 0x7f, 0x9e, 0x8c, 0x94, 0x9e, 0x94]],
        &["_/70 [63][63][63][63]/10 [63][63]/40"],
    ),
    (
        &[&[0x81, 0x80, 0x41, 0x8a, 0x8b, 0x8e, 0x8f, 0x90, 0x9b, 0x42]],
        &["_/70 _A______B/10"],
    ),
    (
        &[&[0x91, 0x7f, 0x9e, 0x80, 0x90]],
        &["_/70 [63][63][63][63]/10"],
    ),
    (
        &[&[
            0x23, 0x5b, 0x5c, 0x5d, 0x5e, 0x5f, 0x60, 0x7b, 0x7c, 0x7d, 0x7e, 0x7f,
        ]],
        &["£←½→↑#—¼‖¾÷■/70"],
    ),
    (
        &[&[0x8d, 0x41], &[0x42, 0x43, 0x44]],
        &["_/70 A_/70U", "_/70 A_/70L"],
    ),
    (
        &[&[0x84, 0x9d, 0x83, 0x8d, 0x41, 0x8c, 0x42], &[0x43]],
        &["_/70 __/44 _/34 A/34U _B/34", "_/70 __/44 _/34 A/34L __/34"],
    ),
    (&[&[0x8d, 0x8c, 0x41], &[0x42]], &["__A/70", "___/70"]),
    (
        &[&[0x8d, 0x41], &[0x8d, 0x42], &[0x8d, 0x43], &[0x44]],
        &["_/70 A/70U", "_/70 A/70L", "_/70 C/70U", "_/70 C/70L"],
    ),
    (
        &[&[0x91, 0x8d, 0x9a, 0x7f, 0x98], &[0x31, 0x21]],
        &[
            "_/70 _/10 _/10U [63]/10sU _/10cU",
            "_/70 _/10 _/10L [63]/10sL _/10cL",
        ],
    ),
];

// A screen with these rows from row 1 on, and the length of the longest.
fn screen_of(rows: &[&[u8]]) -> ([u8; 960], usize) {
    let mut cells = [0x20; 960];
    let mut longest = 0;
    for (row, codes) in rows.iter().enumerate() {
        longest = longest.max(codes.len()).min(40);
        for (column, code) in codes.iter().enumerate() {
            if row < 23 && column < 40 {
                cells[40 * (row + 1) + column] = *code;
            }
        }
    }
    (cells, longest)
}

fn looks_so(rt: &HostRuntime, rows: &[&[u8]], wanted: &[&str]) -> Result<(), Fail> {
    let (cells, longest) = screen_of(rows);
    let looks = screen_looks(&cells);
    for (row, wanted) in wanted.iter().enumerate() {
        if let Some(looks) = looks.rows().get(row + 1) {
            let got = notation(rt.alloc(), &looks[..longest.min(40)])?;
            same_in(rows, got.as_str(), *wanted)?;
        }
    }
    Ok(())
}

#[test]
fn attributes_count_at_or_after_their_cell(rt: HostRuntime) -> Result<(), Fail> {
    for (rows, wanted) in WORKED {
        looks_so(&rt, rows, wanted)?;
    }
    Ok(())
}

// Double height in row 22 shows its lower halves in row 23; in rows 0 and 23 it does nothing.
#[test]
fn double_height_counts_in_rows_1_to_22(rt: HostRuntime) -> Result<(), Fail> {
    let wanted = ["A/70", "_/70", "A/70U", "A/70L"];
    let mut cells = [0x20; 960];
    for row in [0, 22, 23] {
        cells[40 * row] = 0x8d;
        cells[40 * row + 1] = 0x41;
    }
    let looks = screen_looks(&cells);
    for (row, wanted) in [0, 1, 22, 23].iter().zip(wanted) {
        if let Some(looks) = looks.rows().get(*row) {
            same_in(*row, notation(rt.alloc(), &looks[1..2])?.as_str(), wanted)?;
        }
    }
    Ok(())
}

// Rows from row 1 on, and which rows of the screen have text that the row above hides.
const COVERED: [(&[&[u8]], &[usize]); 5] = [
    (&[&[0x8d, 0x41], &[0x42]], &[2]),
    (&[&[0x8d, 0x41], &[0x81, 0x20]], &[]),
    (&[&[0x41], &[0x42]], &[]),
    (&[&[0x8d], &[0x8d, 0x42], &[0x43]], &[2]),
    (&[&[0x8d], &[0x91, 0x7f], &[0x8d], &[0x21]], &[2, 4]),
];

#[test]
fn double_height_hides_the_text_beneath() -> Result<(), Fail> {
    for (rows, hidden) in COVERED {
        let (cells, _) = screen_of(rows);
        for row in 0..25 {
            same_in((rows, row), hides_text(&cells, row), hidden.contains(&row))?;
        }
    }
    Ok(())
}
