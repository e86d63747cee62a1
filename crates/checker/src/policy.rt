use frame_records::{Groups, Pence};

/// What a centre asks of its bases.
#[derive(Debug, Drop)]
pub struct Policy {
    /// The most that a frame may cost.
    pub ceiling: Pence,
    /// The most route and next keys that may be needed to regain the entry page.
    pub keyings: u16,
    /// The closed user groups of the callers for whom it asks.
    pub groups: Groups,
}
