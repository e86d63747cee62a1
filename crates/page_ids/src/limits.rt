/// The greatest page number.
pub const MOST_PAGE: u32 = 999_999_999;
