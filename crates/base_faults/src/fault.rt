use abstract_paint::Start;
use frame_records::Pence;
use page_ids::{FrameId, Key, KeyList};

/// What kind of fault it is.
#[derive(Debug, Clone, Copy, PartialEq, Eq)]
pub enum FaultKind {
    /// The base lacks the entry frame; no other fault is reported.
    EntryMissing,
    /// The entry frame isn't open to the caller; no other fault is reported.
    EntryClosed,
    /// The frame is shown for more than the policy's ceiling.
    Price,
    /// From some state of the terminal a write of the frame counts as one in a service row.
    Touches,
    /// A key of the frame seeks a frame that the base lacks, on a page that isn't listed as outside.
    Missing,
    /// A key of the frame seeks a frame that isn't open to the caller.
    Closed,
    /// No walk of at most the policy's keyings leads from the frame to the entry frame.
    NoReturn,
}

/// A fault of a base, with the keys that show it.
#[derive(Debug, Drop)]
pub struct Fault {
    pub kind: FaultKind,
    /// The frame at fault; for `Missing` and `Closed` the frame at which the key is pressed.
    pub frame: FrameId,
    /// The key that seeks, for `Missing` and `Closed` alone.
    pub key: Option<Key>,
    /// The frame sought, for `Missing` and `Closed` alone.
    pub sought: Option<FrameId>,
    /// The keys that lead from the entry frame to the frame; for `Missing` and `Closed` the key comes last.
    pub script: KeyList,
    /// For `Touches` alone: the least start from which a write counts as one in a service row, and the body byte that writes.
    pub start: Option<Start>,
    /// For `Price` alone the frame's price; else 0.
    pub price: Pence,
}
