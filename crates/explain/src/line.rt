//! The words in a line.

ghost use Rattle.std.specs.Prelude.{◌≡◌, ◌↔◌, ◌≤◌, length, IsSome};
ghost use Rattle.explain.specs.Loops.{texts_of};
ghost use Rattle.explain.specs.Lines.{is_word_byte, is_edge, is_start, is_word_at, is_code, is_capital, is_long, is_sought, is_word, HasWordAt, HasWord};

// Which words are sought, of two bytes at least.
#[derive(Debug, Clone, Copy)]
pub enum WordKind {
    // Those of a capital letter and a digit, as K7.
    Code,
    // Those with a capital letter first.
    Capital,
    Any,
}

fn is_word_byte(byte: u8) -> bool
    ensures { result ≡ is_word_byte byte }
{
    byte.is_ascii_digit() || byte.is_ascii_alphabetic()
}

// Whether no word has a byte of the line at this place.
fn is_edge(line: &[u8], at: usize) -> bool
    ensures { result ≡ is_edge line.now at }
{
    match line.get(at) {
        Some(byte) => !is_word_byte(*byte),
        None => true,
    }
}

// Whether no word goes on before this place.
fn is_start(line: &[u8], at: usize) -> bool
    ensures { result ≡ is_start line.now at }
{
    at == 0 || is_edge(line, at - 1)
}

// Whether the line has the name at this place, as a whole word.
fn is_word_at(line: &[u8], at: usize, name: &[u8]) -> bool
    requires { at ≤ length line.now }
    ensures { result ≡ is_word_at line.now at name.now }
{
    let (_, rest) = line.split_at(at);
    is_start(line, at) && rest.starts_with(name) && is_edge(rest, name.len())
}

fn is_code(name: &[u8]) -> bool
    ensures { result ≡ is_code name.now }
{
    match name {
        [first, second, ..] => first.is_ascii_uppercase() && second.is_ascii_digit(),
        _ => false,
    }
}

fn is_capital(name: &[u8]) -> bool
    ensures { result ≡ is_capital name.now }
{
    match name {
        [first, _, ..] => first.is_ascii_uppercase(),
        _ => false,
    }
}

fn is_long(name: &[u8]) -> bool
    ensures { result ≡ is_long name.now }
{
    match name {
        [_, _, ..] => true,
        _ => false,
    }
}

fn is_sought(sought: WordKind, name: &[u8]) -> bool
    ensures { result ≡ is_sought sought name.now }
{
    match sought {
        WordKind::Code => is_code(name),
        WordKind::Capital => is_capital(name),
        WordKind::Any => is_long(name),
    }
}

// Whether a name is sought and the line has it at this place.
fn is_word(sought: WordKind, line: &[u8], at: usize, name: &[u8]) -> bool
    requires { at ≤ length line.now }
    ensures { result ≡ is_word sought line.now at name.now }
{
    is_sought(sought, name) && is_word_at(line, at, name)
}

// The first of some names that the line has at a place.
fn word_at(sought: WordKind, names: &[&'static str], line: &[u8], at: usize) -> Option<usize>
    requires { at ≤ length line.now }
    ensures { IsSome result ↔ HasWordAt sought (texts_of names.now) line.now at }
{
    for place in 0..names.len() {
        if is_word(sought, line, at, names[place].as_bytes()) {
            return Some(place);
        }
    }
    None
}

/// The place of the first name that a line has as a whole word, in its own case of letters.
pub fn first_word(sought: WordKind, names: &[&'static str], line: &[u8]) -> Option<usize>
    ensures { IsSome result ↔ HasWord sought (texts_of names.now) line.now }
{
    for at in 0..line.len() {
        let place = word_at(sought, names, line, at);
        if place.is_some() {
            return place;
        }
    }
    None
}
