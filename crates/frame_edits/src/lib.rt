//! Frames that go into a base's text, which stays as it is but for what they show.
//!
//! ```
//! merge_frames(alloc, text, false, &settled)? // the rows of 4001a are new, 4003a is at the end; nothing else of the text is changed
//! ```
//!
//! - A frame that the base has gets the rows of the screen: they take the place of its `rows` or its `body`. Its routes, its price and
//!   all else stay. A frame with `lead = "keep"` stays as it is: its rows aren't all that a caller sees. So does one that shows the
//!   screen already.
//! - A frame that the base doesn't have is added at the end of the text, as `screen_files` writes it.
//! - The text has to be a base, and what comes of it too.
//! - [`merge_frames`], [`Merged`], [`MergeFault`]. [`same_frames_show`]: the law that a frame which stays since it shows the screen does.
#![tactic(auto)]

mod additions;
mod intake;
mod laws;
mod merging;
mod shown;

pub use laws::same_frames_show;
pub use merging::{MergeFault, Merged, merge_frames};
