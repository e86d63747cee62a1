use page_ids::{Digit, FrameId};

/// Why a certificate is refused: the first condition that fails, in this order; from K5 on the row's id.
#[derive(Debug, Clone, Copy, PartialEq, Eq)]
pub enum Cause {
    /// K1: the certificate's entry isn't the base's.
    EntryDiffers,
    /// K2: its ceiling is above the policy's.
    CeilingAbove,
    /// K3: its keyings are above the policy's.
    KeyingsAbove,
    /// K15: its groups aren't the policy's; it is judged before K4.
    GroupsDiffer,
    /// K4: the entry page's frame `a` has no row.
    EntryNotCovered,
    /// K5: the base lacks the frame.
    NoFrame(FrameId),
    /// K6: the frame isn't open to the caller.
    ClosedFrame(FrameId),
    /// K7: the frame costs more than the certificate's ceiling.
    Price(FrameId),
    /// K8: the row's rank is above the certificate's keyings.
    RankAbove(FrameId),
    /// K9: some terminal is painted in a service row; the offset of the first body byte that does so.
    Touches(FrameId, usize),
    /// K10: the row's cursor isn't the one after the frame's painting.
    CursorDiffers(FrameId),
    /// K11: a route leads to a page that isn't outside and whose frame `a` has no row; the smallest such digit.
    RouteNotCovered(FrameId, Digit),
    /// K12: the following frame, which `next` offers, has no row.
    NextNotCovered(FrameId),
    /// K13: rank 0 at another frame than the entry frame.
    RankZero(FrameId),
    /// K14: neither a route nor `next` leads to a row of lower rank.
    NoWayDown(FrameId),
}

/// What the check answers.
#[derive(Debug, Clone, Copy, PartialEq, Eq)]
pub enum Verdict {
    /// Each condition holds.
    Cleared,
    /// The first condition that fails.
    Refused(Cause),
}
