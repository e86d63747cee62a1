//! What an edition is beside the one that is served.

ghost use Rattle.std.specs.Prelude.{◌≡◌};
ghost use Rattle.edition_lists.specs.Servings as spec;

/// What an edition is beside the one that is served.
#[derive(Debug, Clone, Copy, PartialEq, Eq)]
pub enum Serving {
    /// It was served before that one.
    Earlier,
    Now,
    /// A stop left it, and the next publish makes it current.
    NotYet,
    /// A stop left it, and it is a new beginning.
    Never,
}

/// What an edition is, by the number of the one that is served.
pub fn serving_of(served: Option<u32>, number: u32, follows: Option<u32>) -> Serving
    ensures { result ≡ spec.serving_of served number follows }
{
    match served {
        None => Serving::Never,
        Some(served) if number == served => Serving::Now,
        Some(served) if number < served => Serving::Earlier,
        Some(served) => match follows {
            Some(number) if number == served => Serving::NotYet,
            _ => Serving::Never,
        },
    }
}
