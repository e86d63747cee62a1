//! The text of a word.

ghost use Rattle.std.specs.Prelude.{◌≡◌, ◌↔◌, ◌⊎◌, true, IsSome};
ghost use Rattle.explain.specs.declared.line.WordKind.TheVariants.{Any};
ghost use Rattle.explain.specs.Lines.{HasWord};
ghost use Rattle.explain.specs.Listed.{listed_words};
ghost use Rattle.explain.specs.Words.{is_cursor, names_in_lines, IsAmong, IsListed};
ghost use Rattle.explain.specs.Loops.{texts_of};

use crate::cursor::is_cursor;
use crate::line::{WordKind, first_word};
use crate::pages::{CURSOR, OVERVIEW, WORDS, paragraphs_at};

/// The words of the list.
pub fn words() -> &'static [&'static str]
    ensures { texts_of result.now ≡ listed_words }
{
    &WORDS
}

// The first place at which the word is one of some.
fn place_among(words: &[&'static str], word: &str) -> Option<usize>
    ensures { IsSome result ↔ IsAmong (texts_of words.now) word.now }
{
    for place in 0..words.len() {
        if words[place].eq_ignore_ascii_case(word) {
            return Some(place);
        }
    }
    None
}

// The place of a word of the list in a line: a code, else a word with a capital letter, else any.
fn place_in_line(line: &str) -> Option<usize>
    ensures { IsSome result ↔ HasWord Any listed_words line.now }
{
    let bytes = line.as_bytes();
    if let Some(place) = first_word(WordKind::Code, words(), bytes) {
        return Some(place);
    }
    if let Some(place) = first_word(WordKind::Capital, words(), bytes) {
        return Some(place);
    }
    first_word(WordKind::Any, words(), bytes)
}

/// What is printed for a word, in paragraphs that a blank line parts: the text of its section, or of both that it is in, each
/// with its title first. `None` if no section has it.
///
/// The words are those of the list, in any case of letters, and the cursors, by their form. For a line with words of the list,
/// in their own case, it is the text of one word: the first code, as K7, else the first word with a capital letter, else
/// the first word.
pub fn explanation(word: &str) -> Option<&'static [&'static str]>
    ensures { IsSome result ↔ (IsListed word.now ⊎ ((is_cursor word.now ≡ true) ⊎ HasWord Any listed_words word.now)) }
{
    match place_among(words(), word) {
        Some(place) => Some(paragraphs_at(place)),
        None if is_cursor(word.as_bytes()) => Some(paragraphs_at(CURSOR)),
        None => Some(paragraphs_at(place_in_line(word)?)),
    }
}

/// All words, and a line for each text: its words and what they mean.
pub fn overview() -> &'static str
    ensures { names_in_lines result.now ≡ listed_words }
{
    OVERVIEW
}
