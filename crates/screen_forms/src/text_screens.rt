//! The screens of a text.

ghost use Rattle.std.specs.Prelude.{◌≡◌};
ghost use Rattle.screen_forms.specs.TextScreens as spec;
ghost use Rattle.screen_forms.specs.declared.text_screens.TextScreensFault.TheVariants.{Memory};

use page_ids::FrameId;
use std::alloc::AllocError;

/// A screen in a text: that of an address of edit.tf or of a page of TTI.
#[derive(Debug, Clone, Copy, PartialEq, Eq)]
pub struct TextScreen {
    /// The line that the address is in, or in which the page begins, from 1.
    pub line: usize,
    /// The id that is the word before an address.
    pub beside: Option<FrameId>,
    /// The id by the number of a teletext page: `:PN=mppss` after the letters, or `PN,mppss`.
    pub number: Option<FrameId>,
    /// The 960 codes of the screen.
    pub codes: [u8; 960],
}

/// What is wrong with a line of a text.
#[derive(Debug, Clone, Copy, PartialEq, Eq)]
pub enum TextLineFault {
    /// There is another address after one.
    Two,
    /// No screen has this number of letters.
    Letters(usize),
    /// What follows `OL,` is no number of one or two digits.
    Row,
    /// It begins a page after 65,535 others.
    Pages,
}

/// The first line at fault.
#[derive(Debug, Clone, Copy, PartialEq, Eq)]
pub struct FaultyLine {
    /// Its number, from 1.
    pub line: usize,
    pub fault: TextLineFault,
}

/// Why there are no screens of a text.
#[derive(Debug, Clone, Copy, PartialEq, Eq)]
pub enum TextScreensFault {
    Line(FaultyLine),
    /// A growth was refused.
    Memory,
}

impl From<AllocError> for TextScreensFault {
    ghost from_gives = { λ _ e. e ≡ Memory };

    fn from(_e: AllocError) -> TextScreensFault {
        TextScreensFault::Memory
    }
}

// The text without a byte order mark.
pub fn after_byte_mark(text: &[u8]) -> &[u8]
    ensures { result.now ≡ spec.after_byte_mark text.now }
{
    match text.strip_prefix(b"\xEF\xBB\xBF") {
        Some(rest) => rest,
        None => text,
    }
}
