//! Where a terminal is.

ghost use Rattle.std.specs.Prelude.{◌≡◌, ◌<◌};
ghost use Rattle.terminal_codes.specs.Screen.{moved};
ghost use Rattle.terminal_codes.specs.Writes.{caret_step, caret_run, touches};

use crate::table::{code_written, is_service_position, moved_by};
use std::marker::Model;

/// Where a terminal is, without its cells. Whoever writes one shows that its position is on the screen.
#[derive(Debug, Clone, Copy, PartialEq, Eq)]
pub struct Caret {
    /// The position, 0 to 959.
    pub at: u16,
    /// Whether an escape is pending.
    pub pending: bool,
}

impl Model for Caret {
    ghost use Rattle.std.specs.Prelude.{◌<◌};
    ghost use Rattle.terminal_codes.specs.Screen.{CaretView};

    ghost Value = { CaretView };

    ghost view = { λ c. record { at = c.at; pending = c.pending } };

    ghost invariant = { λ c. c.at < 960 };

    ghost inverse = { λ c. record { at = c.at; pending = c.pending } };
}

impl Caret {
    /// The position to which a byte from 00 to 1F, 0C aside, goes from here: back (08), on (09), down (0A), up (0B), to
    /// the start of its row (0D), home (1E), or nowhere else.
    ///
    /// Nothing scrolls: a move past an end of the screen comes in at the other.
    pub fn moved_by(self, byte: u8) -> u16
        ensures moved { result ≡ moved self.at byte }
        ensures on_screen { result < 960 }
    {
        moved_by(self.at, byte)
    }

    /// Where the byte leaves it.
    pub fn step(self, byte: u8) -> Caret
        ensures caret { result ≡ caret_step self byte }
        ensures on_screen { result.at < 960 }
    {
        let at = if byte == 0x0c {
            0
        } else if byte < 0x20 {
            moved_by(self.at, byte)
        } else if code_written(self.pending, byte).is_some() {
            (self.at + 1) % 960
        } else {
            self.at
        };
        Caret {
            at,
            pending: byte == 0x1b,
        }
    }

    /// Where the bytes leave it.
    pub fn run(self, bytes: &[u8]) -> Caret
        ensures caret { result ≡ caret_run self bytes.now }
        ensures on_screen { result.at < 960 }
    {
        let mut caret = self;
        for byte in bytes {
            caret = caret.step(*byte);
        }
        caret
    }

    /// Whether the byte, received here, writes a service position, or double height in row 22. 0C writes all cells.
    #[tactic(auto, using(crate::proofs::Runs::touches_12))]
    pub fn touches(self, byte: u8) -> bool
        ensures { result ≡ touches self byte }
    {
        if byte == 0x0c {
            return true;
        }
        match code_written(self.pending, byte) {
            None => false,
            Some(code) => is_service_position(self.at, code),
        }
    }
}
