ghost use Rattle.std.specs.Prelude.{◌≡◌, ◌≤◌};
ghost use Rattle.std.specs.Option.{SomeIff};
ghost use Rattle.page_ids.specs.Ids.{IsLetter};

use std::marker::Model;

/// The letter of a frame, `a` to `z`. Contracts see its byte, 97 to 122.
#[derive(Debug, Clone, Copy, PartialEq, Eq, PartialOrd, Ord, Hash)]
pub struct Letter {
    byte: u8,
}

impl Model for Letter {
    ghost use Rattle.std.specs.Prelude.{ℕ, ◌≤◌};

    ghost Value = { ℕ };

    ghost view = { λ l. l.byte };

    ghost invariant = { λ l. (97 ≤ l.byte) × (l.byte ≤ 122) };

    ghost inverse = { λ n. record { byte = n } };
}

impl Letter {
    /// `a`, the letter of a page's first frame.
    pub const FIRST: Letter = Letter { byte: b'a' };

    /// The letter of a byte; `None` for every byte but `a` to `z`.
    pub fn new(byte: u8) -> Option<Letter>
        ensures { SomeIff result (IsLetter byte) byte }
    {
        if byte.is_ascii_lowercase() {
            Some(Letter { byte })
        } else {
            None
        }
    }

    /// The letter's byte.
    pub fn get(self) -> u8
        ensures value { result ≡ self }
        ensures in_range { IsLetter self }
    {
        self.byte
    }
}
