ghost use Rattle.std.specs.Prelude.{◌≡◌};

use crate::numbers::{GroupNo, Pence};
use page_ids::{FrameId, PageNo};
use std::marker::Model;

/// What the centre sends before a frame's body.
#[derive(Debug, Clone, Copy, PartialEq, Eq)]
pub enum Lead {
    /// The screen is cleared, and the position is the start of row 1.
    Clear,
    /// Nothing: the frame is painted over what is there.
    Keep,
}

/// The bytes of a frame's body, as they are sent. Contracts see the list.
#[derive(Debug, Drop)]
pub struct Body {
    bytes: Vec<u8>,
}

impl Model for Body {
    ghost use Rattle.std.specs.Prelude.{List, ℕ};

    ghost Value = { List ℕ };

    ghost view = { λ b. b.bytes.items };
}

impl Body {
    /// A body of these bytes. Its length is judged where a base is built.
    pub fn of(bytes: Vec<u8>) -> Body
        ensures { result ≡ bytes.items }
    {
        Body { bytes }
    }

    /// The bytes.
    pub fn as_slice(&self) -> &[u8]
        ensures { result.now ≡ self.now }
    {
        self.bytes.as_slice()
    }
}

/// A frame as a base holds it.
#[derive(Debug, Drop)]
pub struct Frame {
    pub id: FrameId,
    /// What each showing costs.
    pub price: Pence,
    /// The closed user group to which it belongs; without one the frame is open.
    pub group: Option<GroupNo>,
    /// Whether `#` leads on to the following letter.
    pub next: bool,
    /// The pages to which the digits 0 to 9 lead.
    pub routes: [Option<PageNo>; 10],
    pub lead: Lead,
    pub body: Body,
}
