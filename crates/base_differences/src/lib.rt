//! How a base differs from the one before it, in a line that a person reads.
//!
//! ```
//! base_summary(alloc, Some(&old), &new)? // b"79 frames, 2 new (4783a 4783b), 1 gone (489a), prices 4785a 10p -> 15p"
//! ```
//!
//! - [`base_summary`]: the number of frames, and what differs.
//! - Definitions: what differs (`Differences`), and what is printed of it (`Summaries`).
#![tactic(auto)]

mod differences;
mod summary;

pub use summary::base_summary;
