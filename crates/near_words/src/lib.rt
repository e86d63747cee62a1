//! Which of some names was probably meant by a word.
//!
//! ```
//! let mut search = Search::of("outsides");
//! search.offer(alloc, "outside")? // true: one step away
//! search.offer(alloc, "outer")? // false: further away
//! ```
//!
//! - [`Search`]: takes names one by one, and says of each whether it is near and nearer than all before.
//!
//! A name is near if it is at most two steps away, and fewer than it has bytes. A step puts in, takes out or changes a
//! character, or swaps two that are side by side. The name that was taken last is the nearest, and of several the first
//! (`IsNearest`, proved in `Nearest`).
#![tactic(auto)]

mod search;

pub use search::Search;
