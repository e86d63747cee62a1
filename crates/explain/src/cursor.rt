//! The form of a cursor.

ghost use Rattle.std.specs.Prelude.{◌≡◌, ◌&&◌, ◌||◌};
ghost use Rattle.explain.specs.Words.{is_mark, is_numbered_end, is_kind, spells_any, is_numbered, is_any, is_cursor};

// The mark of an escape that is pending, or may be.
fn is_mark(byte: u8) -> bool
    ensures { result ≡ is_mark byte }
{
    byte == b'+' || byte == b'?'
}

// Digits, and perhaps a mark after them.
fn is_end(bytes: &[u8]) -> bool
    ensures { result ≡ is_numbered_end bytes.now }
{
    match bytes {
        [] => true,
        [last] => is_mark(*last) || last.is_ascii_digit(),
        [first, rest @ ..] => first.is_ascii_digit() && is_end(rest),
    }
}

// `c` or `s`.
fn is_kind(byte: u8) -> bool
    ensures { result ≡ is_kind byte }
{
    let kind = byte.to_ascii_lowercase();
    kind == b'c' || kind == b's'
}

// `c` or `s` and a number, and perhaps a mark.
fn is_numbered(bytes: &[u8]) -> bool
    ensures { result ≡ is_numbered bytes.now }
{
    match bytes {
        [kind, digit, rest @ ..] => is_kind(*kind) && digit.is_ascii_digit() && is_end(rest),
        _ => false,
    }
}

// The three bytes of `any`.
fn spells_any(a: u8, n: u8, y: u8) -> bool
    ensures { result ≡ spells_any a n y }
{
    a.to_ascii_lowercase() == b'a'
        && n.to_ascii_lowercase() == b'n'
        && y.to_ascii_lowercase() == b'y'
}

// `any`, and perhaps a mark.
fn is_any(bytes: &[u8]) -> bool
    ensures { result ≡ is_any bytes.now }
{
    match bytes {
        [a, n, y] => spells_any(*a, *n, *y),
        [a, n, y, mark] => spells_any(*a, *n, *y) && is_mark(*mark),
        _ => false,
    }
}

/// Whether the bytes are a cursor: `any`, or `c` or `s` and a number, and perhaps a mark of an escape.
pub fn is_cursor(bytes: &[u8]) -> bool
    ensures { result ≡ is_cursor bytes.now }
{
    is_numbered(bytes) || is_any(bytes)
}
