//! The limits of a folder of editions.

/// The greatest number of an edition.
pub const MOST_EDITION: u32 = 999_999_999;
