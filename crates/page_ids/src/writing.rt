//! Single characters and digits, for writers of texts.

ghost use Rattle.std.specs.Prelude.{◌≡◌, ◌<◌, ◌++◌, MatchResult};
ghost use Rattle.std.specs.Char.{encode_utf8};
ghost use Rattle.page_ids.specs.Texts.{hex_digit};

use std::alloc::AllocError;

/// Writes a character after a text, in UTF-8. If a growth is refused, nothing was written.
pub fn push_utf8(text: &mut Vec<u8>, c: char) -> Result<(), AllocError>
    ensures { MatchResult result (λ _. text.new.items ≡ text.old.items ++ encode_utf8 c) (λ _. text.new.items ≡
        text.old.items) }
{
    let mut bytes = [0; 4];
    text.extend_from_slice(c.encode_utf8(&mut bytes).as_bytes())
}

/// The byte of a digit in base 16, `0` to `9` and `A` to `F`.
pub fn hex_digit(digit: u8) -> u8
    requires { digit < 16 }
    ensures { result ≡ hex_digit digit }
{
    if digit < 10 {
        b'0' + digit
    } else {
        b'A' - 10 + digit
    }
}
