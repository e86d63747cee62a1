//! A text in which some spans are replaced, and nothing else.
//!
//! - [`edited`]: the text with [`Replacement`]s made, if they are in order and don't overlap.
//! - [`rest_is_kept`]: the law that what is outside of the spans stays, in order.
#![tactic(auto)]

mod laws;
mod replacing;

pub use laws::rest_is_kept;
pub use replacing::{Replacement, edited};
