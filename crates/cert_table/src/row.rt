use abstract_paint::AbsCursor;
use page_ids::FrameId;

/// A covered frame.
#[derive(Debug, Clone, Copy, PartialEq, Eq)]
pub struct Row {
    pub id: FrameId,
    /// How many route and next keys lead from the frame back to the entry frame, at most.
    pub rank: u16,
    /// Where the terminal can be after the frame's painting.
    pub cursor: AbsCursor,
}
