use crate::frame::ScreenFrame;
use page_ids::FrameId;

/// Where in a file a screen is.
#[derive(Debug, Clone, Copy, PartialEq, Eq)]
pub enum ScreenPlace {
    /// The file is the screen.
    Whole,
    /// The offset at which a screen of a capture begins.
    Byte(usize),
    /// The line of an address, or in which a page begins, from 1.
    Line(usize),
}

/// Where a frame is from.
#[derive(Debug, Clone, Copy, PartialEq, Eq)]
pub struct Origin {
    /// The number of the file.
    pub file: usize,
    pub place: ScreenPlace,
}

/// A frame, and where it is from.
#[derive(Debug, Clone, Copy, PartialEq, Eq)]
pub struct Filed {
    pub origin: Origin,
    pub frame: ScreenFrame,
}

/// A frame that isn't kept, since another has its id.
#[derive(Debug, Clone, Copy, PartialEq, Eq)]
pub struct Twin {
    pub id: FrameId,
    /// Where the one that is kept is from.
    pub kept: Origin,
    /// Where the one that isn't is from.
    pub other: Origin,
}
