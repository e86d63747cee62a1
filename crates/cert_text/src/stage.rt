ghost use Rattle.std.specs.Prelude.{◌≡◌};
ghost use Rattle.cert_text.specs.Reading.{word_of, most_number, stage_after};

use cert_table::{MOST_RANK, MOST_ROWS};
use frame_records::MOST_PENCE;
use page_ids::MOST_PAGE;

/// The line that is due.
#[derive(Clone, Copy)]
pub enum Stage {
    /// `PBC1`, or `PBC2` if a line of groups comes.
    Magic,
    /// A word and a number.
    Head(NumberLine),
    /// The groups, after the keyings.
    Groups,
    /// A row, or `end` after the last.
    Rows,
    /// None: `end` has come.
    After,
}

/// What a line of a word and a number says.
#[derive(Clone, Copy)]
pub enum NumberLine {
    /// The entry page.
    Entry,
    /// The ceiling.
    Ceiling,
    /// The keyings.
    Keyings,
    /// How many rows there are.
    Count,
}

impl NumberLine {
    // Its word, with a space.
    pub fn word(self) -> &'static [u8]
        ensures { result.now ≡ word_of self }
    {
        match self {
            NumberLine::Entry => b"entry ",
            NumberLine::Ceiling => b"ceiling ",
            NumberLine::Keyings => b"keyings ",
            NumberLine::Count => b"rows ",
        }
    }

    // The greatest number.
    pub fn most(self) -> u32
        ensures { result ≡ most_number self }
    {
        match self {
            NumberLine::Entry => MOST_PAGE,
            NumberLine::Ceiling => MOST_PENCE as u32,
            NumberLine::Keyings => MOST_RANK as u32,
            NumberLine::Count => MOST_ROWS as u32,
        }
    }

    // The stage after its line, in a text with a line of groups or without.
    pub fn stage_after(self, grouped: bool) -> Stage
        ensures { result ≡ stage_after self grouped }
    {
        match self {
            NumberLine::Entry => Stage::Head(NumberLine::Ceiling),
            NumberLine::Ceiling => Stage::Head(NumberLine::Keyings),
            NumberLine::Keyings if grouped => Stage::Groups,
            NumberLine::Keyings => Stage::Head(NumberLine::Count),
            NumberLine::Count => Stage::Rows,
        }
    }
}
