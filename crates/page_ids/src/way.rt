ghost use Rattle.std.specs.Prelude.{◌≡◌};
ghost use Rattle.page_ids.specs.Ways.{way_at, way_key};

use crate::key::{Digit, Key};

/// A way on from a frame. Ways are tried in one order: the routes `0` to `9`, then `#`.
#[derive(Debug, Clone, Copy, PartialEq, Eq)]
pub enum Way {
    /// The page to which the digit's route leads.
    Route(Digit),
    /// The frame of the following letter.
    Next,
}

impl Way {
    /// How many ways there are.
    pub const COUNT: u8 = 11;

    /// The way at a place in their order, from 0: a digit's route is at the digit, and `#` at 10 and at each greater
    /// place.
    pub fn at(place: u8) -> Way
        ensures { result ≡ way_at place }
    {
        match Digit::new(place) {
            Some(digit) => Way::Route(digit),
            None => Way::Next,
        }
    }

    /// The key that goes that way.
    pub fn key(self) -> Key
        ensures { result ≡ way_key self }
    {
        match self {
            Way::Route(digit) => Key::Route(digit),
            Way::Next => Key::Next,
        }
    }
}
