//! Characters that no eye sees, or that look like others.

use crate::hint::Hint;
use crate::values::as_text;

// Whether a character has no width.
fn is_unseen(c: char) -> bool {
    matches!(
        c,
        '\u{AD}'
            | '\u{180E}'
            | '\u{200B}'..='\u{200F}'
            | '\u{202A}'..='\u{202E}'
            | '\u{2060}'..='\u{2064}'
            | '\u{FEFF}'
    )
}

// Whether a character looks like a space.
fn is_space(c: char) -> bool {
    matches!(
        c,
        '\u{2000}'..='\u{200A}' | '\u{202F}' | '\u{205F}' | '\u{3000}'
    )
}

// The ASCII letter that a letter of another alphabet looks like.
fn letter_like(c: char) -> Option<char> {
    let letter = match c {
        '\u{410}' | '\u{391}' => 'A',
        '\u{412}' | '\u{392}' => 'B',
        '\u{421}' => 'C',
        '\u{415}' | '\u{395}' => 'E',
        '\u{41D}' | '\u{397}' => 'H',
        '\u{399}' => 'I',
        '\u{41A}' | '\u{39A}' => 'K',
        '\u{41C}' | '\u{39C}' => 'M',
        '\u{39D}' => 'N',
        '\u{41E}' | '\u{39F}' => 'O',
        '\u{420}' | '\u{3A1}' => 'P',
        '\u{422}' | '\u{3A4}' => 'T',
        '\u{425}' | '\u{3A7}' => 'X',
        '\u{3A5}' => 'Y',
        '\u{396}' => 'Z',
        '\u{430}' => 'a',
        '\u{441}' => 'c',
        '\u{435}' => 'e',
        '\u{456}' => 'i',
        '\u{458}' => 'j',
        '\u{43E}' | '\u{3BF}' => 'o',
        '\u{440}' => 'p',
        '\u{455}' => 's',
        '\u{3BD}' => 'v',
        '\u{445}' => 'x',
        '\u{443}' => 'y',
        _ => return None,
    };
    Some(letter)
}

// How to write a character that isn't what it seems to be.
pub(crate) fn odd_hint(c: char) -> Option<Hint<'static>> {
    if c.is_ascii() {
        None
    } else if c == '\u{A0}' {
        Some(Hint::Words("this is a no-break space (U+00A0), write a space"))
    } else if is_unseen(c) {
        Some(Hint::Unseen(c))
    } else if is_space(c) {
        Some(Hint::Space(c))
    } else {
        Some(Hint::Alike(c, letter_like(c)?))
    }
}

// The first character of bytes, if they are UTF-8 there.
pub(crate) fn first_char(bytes: &[u8]) -> Option<char> {
    let length = match bytes.first()? {
        0xC2..=0xDF => 2,
        0xE0..=0xEF => 3,
        0xF0..=0xF4 => 4,
        _ => 1,
    };
    as_text(bytes.get(..length)?).chars().next()
}

// The first of a text's characters that isn't what it seems to be.
pub(crate) fn odd_in(text: &str) -> Option<Hint<'static>> {
    for c in text.chars() {
        let hint = odd_hint(c);
        if hint.is_some() {
            return hint;
        }
    }
    None
}

// The pattern of a mosaic's six cells: a bit for each, from the top left one on.
fn cells_of(c: char) -> Option<u32> {
    let code = c as u32;
    match code {
        0x1_FB00..=0x1_FB13 => Some(code - 0x1_FAFF),
        0x1_FB14..=0x1_FB27 => Some(code - 0x1_FAFE),
        0x1_FB28..=0x1_FB3B => Some(code - 0x1_FAFD),
        0x258C => Some(21),
        0x2590 => Some(42),
        0x2588 => Some(63),
        _ => None,
    }
}

// The code of a mosaic, from 20 to 3F or from 60 to 7F.
fn mosaic_code(cells: u32) -> u8 {
    let low = 0x20 + (cells % 32) as u8;
    if cells % 64 < 32 { low } else { low + 0x40 }
}

// The code of a mosaic that was typed as the character that looks like it.
pub(crate) fn mosaic_hint(c: char) -> Option<Hint<'static>> {
    Some(Hint::Mosaic(mosaic_code(cells_of(c)?)))
}
