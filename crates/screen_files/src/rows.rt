//! The rows of a screen without the spaces at their ends.

ghost use Rattle.std.specs.Prelude.{◌≡◌, ◌<◌, ◌≤◌, ◌*◌, take, drop};
ghost use Rattle.screens.specs.Text.{trimmed};
ghost use Rattle.screen_files.specs.Rows as spec;

use screens::row_codes;

// A copy of the codes of a row.
pub fn row_copy(codes: &[u8; 960], row: usize) -> [u8; 40]
    requires { row < 24 }
    ensures { result ≡ take 40 (drop (40 * row) codes.now) }
{
    let mut cells = [b' '; 40];
    cells.copy_from_slice(row_codes(codes, row));
    cells
}

// Without the spaces at the end.
pub fn trimmed(row: &[u8]) -> &[u8]
    ensures { result.now ≡ trimmed row.now }
{
    match row.iter().rposition(|code| *code != b' ') {
        Some(last) => &row[..last + 1],
        None => &[],
    }
}

// A row of a screen.
pub fn row_of(codes: &[u8; 960], row: usize) -> &[u8]
    requires { row < 24 }
    ensures { result.now ≡ spec.screen_row codes.now row }
{
    trimmed(row_codes(codes, row))
}

// The last of rows 1 to 22 that isn't blank, or 0.
pub fn last_row(codes: &[u8; 960]) -> usize
    ensures value { result ≡ spec.last_row codes.now 22 }
    ensures within { result ≤ 22 }
{
    let mut row = 22;
    while row > 0 && row_of(codes, row).is_empty() {
        row -= 1;
    }
    row
}
