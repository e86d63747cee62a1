//! The codes of a file.

ghost use Rattle.std.specs.Prelude.{◌≡◌, ◌≤◌, IfSome, length, take, true};
ghost use Rattle.std.specs.List.{list_any};
ghost use Rattle.std.specs.Option.{option_copied};
ghost use Rattle.screen_files.specs.Codes as spec;
ghost use Rattle.screen_files.specs.Loops as loops;

use screen_forms::stored_code;

// Whether a file of this size has all rows.
fn has_all_rows(size: usize) -> bool
    ensures value { result ≡ spec.has_all_rows size }
    ensures long { result ≡ true → 960 ≤ size }
{
    size == 960 || size == 1000 || size == 1024
}

// Whether a file begins as one of the form EP1 does.
pub fn begins_ep1(bytes: &[u8]) -> bool
    ensures { result ≡ spec.begins_ep1 bytes.now }
{
    bytes.starts_with(&[0xFE, 0x01])
}

// Whether a file is of the form EP1.
fn is_ep1(bytes: &[u8]) -> bool
    ensures value { result ≡ spec.is_ep1 bytes.now }
    ensures long { result ≡ true → 968 ≤ length bytes.now }
{
    (bytes.len() == 968 || bytes.len() == 1008) && begins_ep1(bytes)
}

// The first 24 rows.
fn first_rows(bytes: &[u8]) -> &[u8]
    requires { 960 ≤ length bytes.now }
    ensures value { result.now ≡ take 960 bytes.now }
    ensures sized { length result.now ≡ 960 }
{
    &bytes[..960]
}

// The bytes of the rows, by the size and the first bytes of the file.
fn rows_in(bytes: &[u8]) -> Option<&[u8]>
    ensures value { option_copied result ≡ spec.rows_in bytes.now }
    ensures sized { IfSome result (λ rows. loops.has_row_size rows.now ≡ true) }
{
    if has_all_rows(bytes.len()) {
        Some(first_rows(bytes))
    } else if bytes.len() == 880 {
        Some(bytes)
    } else if is_ep1(bytes) {
        Some(&bytes[6..966])
    } else {
        None
    }
}

// All 24 rows.
fn placed(rows: &[u8]) -> [u8; 960]
    requires { loops.has_row_size rows.now ≡ true }
    ensures { result ≡ spec.placed rows.now }
{
    let mut cells = [0x20; 960];
    if rows.len() == 880 {
        cells[40..920].copy_from_slice(rows);
    } else {
        cells.copy_from_slice(rows);
    }
    cells
}

fn is_space_byte(byte: u8) -> bool
    ensures { result ≡ spec.is_space_byte byte }
{
    byte == 0x20 || byte == 0xA0
}

fn has_space(rows: &[u8]) -> bool
    ensures { result ≡ list_any spec.is_space_byte rows.now }
{
    rows.iter().any(|byte| is_space_byte(*byte))
}

// The code of a byte among rows that have spaces or none: if none, 00 is a space.
fn row_code(has_space: bool, byte: u8) -> u8
    ensures { result ≡ spec.row_code has_space byte }
{
    if !has_space && byte == 0 {
        b' '
    } else {
        stored_code(byte)
    }
}

// The codes of the bytes of rows.
fn codes_of_rows(rows: &[u8]) -> [u8; 960]
    requires { loops.has_row_size rows.now ≡ true }
    ensures { result ≡ spec.codes_of_rows rows.now }
{
    let mut cells = placed(rows);
    let spaces = has_space(rows);
    for cell in cells.iter_mut() {
        *cell = row_code(spaces, *cell);
    }
    cells
}

/// The codes of a saved screen, by its size and its first bytes: 960 bytes are 24 rows; 1,000 bytes have a row 24, and 1,024 bytes 24
/// bytes more, which are dropped; 880 bytes are rows 1 to 22 alone, between blank ones. 968 or 1,008 bytes that begin FE 01 are of
/// the form EP1: 24 or 25 rows between 6 bytes and 2. Nothing else is a screen.
///
/// The bytes 00 to 1F are attributes as teletext stores them, 80 to 9F, and A0 to FF are 20 to 7F. If none of the rows' bytes is 20 or
/// A0, 00 is a space.
pub fn saved_codes(bytes: &[u8]) -> Option<[u8; 960]>
    ensures { result ≡ spec.saved_codes bytes.now }
{
    let rows = rows_in(bytes)?;
    Some(codes_of_rows(rows))
}
