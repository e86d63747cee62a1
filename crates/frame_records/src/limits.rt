//! The limits of a base.

/// The most pence that a frame may cost.
pub const MOST_PENCE: u16 = 9_999;

/// The greatest number of a closed user group.
pub const MOST_GROUP: u16 = 65_535;

/// The most closed user groups that a caller may have.
pub const MOST_GROUPS: usize = 16;

/// The most frames that a base may have, and the most outside pages as listed.
pub const MOST_LISTED: usize = 65_535;

/// The most bytes of a frame's body.
pub const MOST_BODY: usize = 4_096;
