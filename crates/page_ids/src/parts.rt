//! The parts of a text between separators.

ghost use Rattle.std.specs.Prelude.{◌≡◌, ◌<◌, [], ◌∷◌, length, MatchOption, IfSome};
ghost use Rattle.page_ids.specs.Parts.{parts_of};

/// The text before its first separator, and the text after it; `None` if it has none.
pub fn cut(text: &[u8], separator: u8) -> Option<(&[u8], &[u8])>
    ensures parts { MatchOption result (parts_of separator text.now ≡ text.now ∷ [])
        (λ p. parts_of separator text.now ≡ p.0.now ∷ parts_of separator p.1.now) }
    ensures shorter { IfSome result (λ p. length p.1.now < length text.now) }
{
    for i in 0..text.len() {
        if text[i] == separator {
            return Some((&text[..i], &text[i + 1..]));
        }
    }
    None
}
