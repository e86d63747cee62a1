//! How much is measured.

/// The size of what is measured.
#[derive(Debug, Clone, Copy, PartialEq, Eq)]
pub enum Size {
    /// A sixteenth: whether all comes out as it must is seen in seconds.
    Part,
    /// All of it: what the ratios are of.
    Full,
}

impl Size {
    /// This fraction of a number.
    pub fn of(self, number: u32) -> u32 {
        match self {
            Size::Part => number / 16,
            Size::Full => number,
        }
    }
}
