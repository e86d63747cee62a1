//! Ids among the words of a text.

ghost use Rattle.std.specs.Prelude.{◌≡◌, ◌≤◌, ◌<◌, get_or, length};
ghost use Rattle.page_ids.specs.Texts.{id_with, page_in};
ghost use Rattle.screen_forms.specs.Words as spec;

use page_ids::{FrameId, Letter, PageNo};

/// The id that a text spells, if its letter may be a capital.
pub fn any_case_id(text: &[u8]) -> Option<FrameId>
    ensures { result ≡ spec.any_case_id text.now }
{
    let (last, digits) = text.split_last()?;
    let page = PageNo::read_bytes(digits)?;
    let letter = Letter::new(last.to_ascii_lowercase())?;
    Some(FrameId { page, letter })
}

// The byte at a place; 0 past the end.
fn byte_at(text: &[u8], at: usize) -> u8
    ensures { result ≡ get_or text.now at 0 }
{
    match text.get(at) {
        Some(byte) => *byte,
        None => 0,
    }
}

// Whether a byte is between words: `:` isn't if `/` follows.
fn is_between_words(text: &[u8], at: usize) -> bool
    requires { at < length text.now }
    ensures { result ≡ spec.is_between_words text.now at }
{
    match text[at] {
        b' ' | b'\t' | b',' | b';' | b'=' => true,
        b':' => byte_at(text, at + 1) != b'/',
        _ => false,
    }
}

// Whether a byte belongs to a gap between words, or else to a word.
fn belongs(text: &[u8], at: usize, gap: bool) -> bool
    requires { at < length text.now }
    ensures { result ≡ spec.belongs gap text.now at }
{
    if gap {
        is_between_words(text, at)
    } else {
        !is_between_words(text, at)
    }
}

// Where the gap begins that goes to this end, or else the word.
#[tactic(auto, using(crate::proofs::Walks::start_none, crate::proofs::Walks::start_step, crate::proofs::Walks::start_stop))]
fn run_start(text: &[u8], end: usize, gap: bool) -> usize
    requires { end ≤ length text.now }
    ensures value { result ≡ spec.run_start gap text.now end }
    ensures within { result ≤ end }
{
    let mut start = end;
    while start > 0 && belongs(text, start - 1, gap) {
        start -= 1;
    }
    start
}

// The word that goes to this end.
fn last_word_to(text: &[u8], end: usize) -> &[u8]
    requires { end ≤ length text.now }
    ensures { result.now ≡ spec.last_word_to text.now end }
{
    &text[run_start(text, end, false)..end]
}

// The word before the one that goes to the end of a text, which begins the address.
pub fn word_before(text: &[u8]) -> &[u8]
    ensures { result.now ≡ spec.word_before text.now }
{
    let word = run_start(text, text.len(), false);
    last_word_to(text, run_start(text, word, true))
}

// The letter of a subpage.
fn subpage_letter(number: u8) -> Option<Letter>
    requires { number < 100 }
    ensures { result ≡ spec.subpage_letter number }
{
    if number == 0 {
        return Letter::new(b'a');
    }
    Letter::new(b'`' + number)
}

// The letter of the subpage that two digits spell.
fn two_digits(a: u8, b: u8) -> Option<Letter>
    ensures { result ≡ spec.two_digits a b }
{
    if !a.is_ascii_digit() || !b.is_ascii_digit() {
        return None;
    }
    subpage_letter((a - b'0') * 10 + (b - b'0'))
}

// The id of a page and a letter.
fn id_with(page: &[u8], letter: Option<Letter>) -> Option<FrameId>
    ensures { result ≡ id_with (page_in page.now) letter }
{
    let page = PageNo::read_bytes(page)?;
    let letter = letter?;
    Some(FrameId { page, letter })
}

// The id of a teletext page: three digits, and two of the subpage or none.
pub fn number_id(text: &[u8]) -> Option<FrameId>
    ensures { result ≡ spec.number_id text.now }
{
    match text.len() {
        3 => id_with(text, Letter::new(b'a')),
        5 => id_with(&text[..3], two_digits(text[3], text[4])),
        _ => None,
    }
}
