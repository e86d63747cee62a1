//! The characters.

ghost use Rattle.std.specs.Prelude.{◌≡◌};
ghost use Rattle.screens.specs.Table as spec;

/// The character of a code from 20 to 7F: ASCII, with twelve others in their places. Any other code has a space.
pub fn character(code: u8) -> char
    ensures { result ≡ spec.character code }
{
    match code {
        0x23 => '£',
        0x5b => '←',
        0x5c => '½',
        0x5d => '→',
        0x5e => '↑',
        0x5f => '#',
        0x60 => '—',
        0x7b => '¼',
        0x7c => '‖',
        0x7d => '¾',
        0x7e => '÷',
        0x7f => '■',
        0x20..=0x7a => code as char,
        _ => ' ',
    }
}
