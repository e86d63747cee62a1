//! The limits of a policy's text.

/// The most bytes of a policy's text.
pub const MOST_POLICY_TEXT: usize = 65_536;
