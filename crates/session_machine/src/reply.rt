use frame_records::Pence;
use page_ids::{FrameId, PageNo};

/// What the centre answers to a key.
#[derive(Debug, Clone, Copy, PartialEq, Eq)]
pub enum Reply {
    /// The frame is shown and its price is charged.
    Shown(FrameId, Pence),
    /// The present frame is shown again, without a charge.
    Again(FrameId),
    /// The present frame doesn't offer the key; nothing changes.
    NotOffered,
    /// The base lacks the frame that was sought; nothing changes.
    Missing(FrameId),
    /// The frame that was sought isn't open to the caller; nothing changes.
    Closed(FrameId),
    /// The caller left the base for a page that is listed as outside.
    Gone(PageNo),
}
