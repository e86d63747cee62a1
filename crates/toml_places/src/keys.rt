//! Keys, of which only the ends of the parts are wanted.

ghost use Rattle.std.specs.Prelude.{◌≡◌, ◌+◌, ◌<◌, ◌≤◌, length, drop, IfSome};
ghost use Rattle.std.specs.List.{prefix_len};
ghost use Rattle.std.specs.Option.{option_copied};
ghost use Rattle.toml_parser.specs.Lexical as toml;
ghost use Rattle.toml_places.specs.Strings as spec;

use crate::strings::after_line_string;
use toml_parser::bytes::is_bare;
use toml_parser::text::{first, skip, skip_ws};
use toml_parser::{RECURSION_LIMIT, starts_string};

fn bare_len(bytes: &[u8]) -> usize
    ensures len { result ≡ prefix_len toml.is_bare bytes.now }
    ensures within { result ≤ length bytes.now }
{
    bytes.iter().take_while(|byte| is_bare(**byte)).count()
}

// The text after the longest front of bytes of a bare key.
fn after_bare(text: &str) -> &str
    ensures rest { result.now ≡ drop (prefix_len toml.is_bare text.now) text.now }
    ensures len { length result.now + prefix_len toml.is_bare text.now ≡ length text.now }
{
    text.split_at(bare_len(text.as_bytes())).1
}

// The text after a part of a key.
#[tactic(auto, unfolding(crate::specs::Strings::after_part))]
pub fn after_part(text: &str) -> Option<&str>
    ensures value { option_copied result ≡ spec.after_part text.now }
    ensures shorter { IfSome result (λ rest. length rest.now < length text.now) }
{
    if starts_string(text) {
        after_line_string(text)
    } else if is_bare(first(text)) {
        Some(after_bare(text))
    } else {
        None
    }
}

// The text from the next part of a key on, after a part.
#[tactic(auto, unfolding(crate::specs::Strings::next_part))]
fn next_part(text: &str) -> Option<&str>
    ensures value { option_copied result ≡ spec.next_part text.now }
    ensures shorter { IfSome result (λ rest. length rest.now < length text.now) }
{
    let rest = skip_ws(text);
    if first(rest) == b'.' {
        Some(skip_ws(skip(rest, 1)))
    } else {
        None
    }
}

// The text from a part of a key on.
pub fn part_from(text: &str, part: usize) -> Option<&str>
    ensures value { option_copied result ≡ spec.part_from part text.now }
    ensures within { IfSome result (λ rest. length rest.now ≤ length text.now) }
{
    let mut rest = text;
    'parts: for _part in 0..part {
        rest = next_part(after_part(rest)?)?;
    }
    Some(rest)
}

// The text after a key.
pub fn after_key(text: &str) -> Option<&str>
    ensures value { option_copied result ≡ spec.after_key 80 text.now }
    ensures shorter { IfSome result (λ rest. length rest.now < length text.now) }
{
    let mut rest = text;
    'parts: for _part in 0..RECURSION_LIMIT {
        let after = after_part(rest)?;
        let end = skip_ws(after);
        if first(end) != b'.' {
            return Some(after);
        }
        rest = skip_ws(skip(end, 1));
    }
    None
}

// The text from a value on, after its key and `=`.
#[tactic(auto, unfolding(crate::specs::Strings::value_from))]
pub fn value_from(text: &str) -> Option<&str>
    ensures value { option_copied result ≡ spec.value_from 80 text.now }
    ensures shorter { IfSome result (λ rest. length rest.now < length text.now) }
{
    let end = skip_ws(after_key(text)?);
    if first(end) == b'=' {
        Some(skip_ws(skip(end, 1)))
    } else {
        None
    }
}
