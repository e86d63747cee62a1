//! The byte table, without a terminal: what a byte writes and where it moves.

ghost use Rattle.std.specs.Prelude.{◌≡◌, ◌<◌};
ghost use Rattle.terminal_codes.specs.Screen.{moved, attribute_of, code_of};
ghost use Rattle.terminal_codes.specs.Writes.{is_service};

// Where a byte from 00 to 1F leaves the position, 0C aside.
pub fn moved_by(at: u16, byte: u8) -> u16
    requires { at < 960 }
    ensures moved { result ≡ moved at byte }
    ensures on_screen { result < 960 }
{
    match byte {
        0x08 => (at + 959) % 960,
        0x09 => (at + 1) % 960,
        0x0a => (at + 40) % 960,
        0x0b => (at + 920) % 960,
        0x0d => at - at % 40,
        0x1e => 0,
        _ => at,
    }
}

// The serial attribute that a byte from 20 to 7F means after an escape.
fn attribute(byte: u8) -> Option<u8>
    ensures { result ≡ attribute_of byte }
{
    match byte {
        0x40..=0x5f => Some(byte + 0x40),
        _ => None,
    }
}

/// The one code that a byte writes at the position, if it writes one: the byte itself, a serial attribute (80 to 9F)
/// after an escape, or a byte from A0 on less its top bit.
///
/// 0C writes all cells and has no code here.
pub fn code_written(pending: bool, byte: u8) -> Option<u8>
    ensures { result ≡ code_of pending byte }
{
    match byte {
        0x00..=0x1f => None,
        0x20..=0x7f => { if pending { attribute(byte) } else { Some(byte) } }
        0x80..=0x9f => Some(byte),
        _ => Some(byte - 0x80),
    }
}

/// The serial attribute double height: the lower half of what follows it shows in the row beneath.
pub const DOUBLE_HEIGHT: u8 = 0x8d;

/// Whether a code at a position counts as written in a service row: any code in row 0 or row 23, and double height in
/// row 22, since its lower half shows in row 23.
pub fn is_service_position(position: u16, code: u8) -> bool
    ensures { result ≡ is_service position code }
{
    let is_above_one = position >= 880 && position < 920;
    position < 40 || position >= 920 || code == DOUBLE_HEIGHT && is_above_one
}
