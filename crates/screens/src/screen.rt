//! A screen of 24 rows.

ghost use Rattle.std.specs.Prelude.{◌≡◌, ◌<◌, ◌+◌, ◌==◌, length, map};
ghost use Rattle.std.specs.List.{list_all};
ghost use Rattle.screens.specs.Looks as spec;

use crate::look::Look;
use crate::row::put_row;
use std::marker::Model;

/// The looks of a screen. Contracts see its rows.
#[derive(Drop)]
pub struct Looks {
    rows: [[Look; 40]; 24],
}

impl Model for Looks {
    ghost use Rattle.std.specs.Prelude.{◌≡◌, List, length};
    ghost use Rattle.screens.specs.declared.look.Look.{Look};

    ghost Value = { List (List Look) };

    ghost view = { λ l. l.rows };

    ghost invariant = { λ l. length l.rows ≡ 24 };
}

impl Looks {
    /// The 24 rows from the top, each of 40 cells from the left.
    pub fn rows(&self) -> &[[Look; 40]; 24]
        ensures value { result.now ≡ self.now }
        ensures size { length result.now ≡ 24 }
    {
        &self.rows
    }
}

// A row of a blank screen.
const BLANK_ROW: [Look; 40] = [Look::BLANK; 40];

// Whether double height counts in the row.
fn can_stretch(row: usize) -> bool
    ensures { result ≡ spec.can_stretch row }
{
    row >= 1 && row <= 22
}

/// The codes of a row, from 0.
pub fn row_codes(cells: &[u8; 960], row: usize) -> &[u8]
    requires { row < 24 }
    ensures value { result.now ≡ spec.codes_of_row cells.now row }
    ensures size { length result.now ≡ 40 }
{
    &cells[40 * row..40 * row + 40]
}

// Whether the row has a double height that counts.
fn has_double(cells: &[u8; 960], row: usize) -> bool
    requires { row < 24 }
    ensures { result ≡ spec.has_double cells.now row }
{
    let codes = row_codes(cells, row);
    can_stretch(row) && codes.contains(&0x8d)
}

// Whether codes are spaces.
fn are_spaces(codes: &[u8]) -> bool
    ensures { result ≡ list_all (λ c. c == 0x20) codes.now }
{
    codes.iter().all(|code| *code == b' ')
}

// Writes the looks of a row by its own codes. Most rows are blank.
#[tactic(auto, using(crate::proofs::Rows::blank_row))]
fn put_own(cells: &[u8; 960], row: usize, looks: &mut [Look; 40])
    requires { row < 24 }
    ensures { looks.new ≡ spec.own_looks cells.now row }
{
    let codes = row_codes(cells, row);
    if are_spaces(codes) {
        *looks = BLANK_ROW;
    } else {
        put_row(can_stretch(row), codes, looks);
    }
}

// Makes looks those below them.
fn put_below(looks: &mut [Look; 40])
    ensures { looks.new ≡ map spec.below looks.old }
{
    for look in looks.iter_mut() {
        look.go_below();
    }
}

// Writes the looks of a row, of which it is known whether it is covered.
#[tactic(auto, using(crate::proofs::Rows::covered_row))]
fn put_looks(cells: &[u8; 960], row: usize, covered: bool, looks: &mut [Look; 40])
    requires row { row < 24 }
    requires covered { covered ≡ spec.is_covered cells.now row }
    ensures { looks.new ≡ spec.looks_at cells.now row }
{
    if covered {
        put_own(cells, row - 1, looks);
        put_below(looks);
    } else {
        put_own(cells, row, looks);
    }
}

// Whether the row beneath is covered.
#[tactic(auto, using(crate::proofs::Rows::covered_next))]
fn covers(cells: &[u8; 960], row: usize, covered: bool) -> bool
    requires row { row < 24 }
    requires covered { covered ≡ spec.is_covered cells.now row }
    ensures { result ≡ spec.is_covered cells.now (row + 1) }
{
    has_double(cells, row) && !covered
}

fn is_text(code: u8) -> bool
    ensures { result ≡ spec.is_text code }
{
    matches!(code, 0x21..=0x7f)
}

fn has_text(cells: &[u8; 960], row: usize) -> bool
    requires { row < 24 }
    ensures { result ≡ spec.has_text cells.now row }
{
    row_codes(cells, row).iter().any(|code| is_text(*code))
}

// Whether the row above covers the row.
#[tactic(auto, using(crate::proofs::Rows::covered_next))]
fn is_covered(cells: &[u8; 960], row: usize) -> bool
    requires { row < 24 }
    ensures { result ≡ spec.is_covered cells.now row }
{
    row > 0 && covers(cells, row - 1, is_covered(cells, row - 1))
}

/// Whether the double height of the row above hides text of a row: a character or mosaic that is no space. Rows are numbered from
/// 0; a row after 23 has no text.
pub fn hides_text(cells: &[u8; 960], row: usize) -> bool
    ensures { result ≡ spec.hides_text cells.now row }
{
    row < 24 && is_covered(cells, row) && has_text(cells, row)
}

/// How each cell of a screen looks, by its codes from position 0 to 959.
///
/// A code above 9F, which no terminal holds, looks like an attribute without effect.
pub fn screen_looks(cells: &[u8; 960]) -> Looks
    ensures { result ≡ spec.looks cells.now }
{
    let mut rows = [BLANK_ROW; 24];
    let mut covered = false;
    for row in 0..24 {
        put_looks(cells, row, covered, &mut rows[row]);
        covered = covers(cells, row, covered);
    }
    Looks { rows }
}
