//! Elements of arrays.

ghost use Rattle.std.specs.Prelude.{◌≡◌, ◌<◌, ◌≤◌, length, option_map, IfSome};
ghost use Rattle.toml_places.specs.Values as spec;

use crate::values::{after_element, after_value};
use toml_parser::RECURSION_LIMIT;
use toml_parser::text::{first, skip_blank};

// An element as it is written, from its first byte on and after its last, and the text from the next one on.
#[tactic(auto, unfolding(crate::specs::Values::next_element))]
pub fn next_element(text: &str) -> Option<(&str, &str, &str)>
    ensures value { option_map (λ e. ((e.0.now, e.1.now), e.2.now)) result ≡ spec.next_element text.now }
    ensures within { IfSome result (λ e. (length e.0.now ≤ length text.now) × (length e.1.now ≤ length e.0.now) ×
        (length e.2.now < length text.now)) }
{
    let start = skip_blank(text, true);
    if first(start) == b']' {
        return None;
    }
    let rest = after_value(start, RECURSION_LIMIT)?;
    let next = after_element(rest, b']')?;
    Some((start, rest, next))
}
