//! The digits that a screen offers as keys.

ghost use Rattle.std.specs.Prelude.{◌≡◌, ◌<◌, false};
ghost use Rattle.screen_files.specs.Keys as spec;

use screens::{Glyph, Look, Looks, Shown};

// The character of a cell of a word.
fn letter(look: &Look) -> Option<char>
    ensures { result ≡ spec.letter look.now }
{
    match look.shown() {
        Shown::Ground(_) => None,
        Shown::All(look) => match look.glyph {
            Glyph::Char(c) => Some(c),
            Glyph::Block(_) => None,
        },
    }
}

fn is_char(c: char, letter: Option<char>) -> bool
    ensures { result ≡ spec.is_this_char c letter }
{
    match letter {
        Some(letter) => letter == c,
        None => false,
    }
}

// Whether a word of a row begins with a character.
fn begins(row: &[Look; 40], first: char) -> bool
    ensures { result ≡ spec.word_begins first false row.now }
{
    let mut in_word = false;
    for look in row {
        let letter = letter(look);
        if !in_word && is_char(first, letter) {
            return true;
        }
        in_word = letter.is_some();
    }
    false
}

// Whether a digit begins a word in rows 1 to 22 of a screen: a run of characters that show, and no mosaics.
pub fn shows_key(looks: &Looks, digit: u8) -> bool
    requires { digit < 10 }
    ensures { result ≡ spec.shows_key looks.now digit }
{
    let first = (b'0' + digit) as char;
    for row in &looks.rows()[1..23] {
        if begins(row, first) {
            return true;
        }
    }
    false
}
