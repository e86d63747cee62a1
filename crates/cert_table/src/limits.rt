/// The most rows that a certificate may have.
pub const MOST_ROWS: usize = 65_535;

/// The greatest rank of a row, and the most keyings.
pub const MOST_RANK: u16 = 65_535;
