//! What is read of the text of a base that is made of screens, and what the base shows.
//!
//! `import` prints such a text for screens that were drawn elsewhere. TOML reads just the members of its frames there, the text means
//! just the base of these frames, and each frame shows its screen.
//!
//! - [`imports_are_read`], [`imports_are_bases`], [`imports_show_screens`]: laws of the text.
//! - [`files_are_filed`]: what they ask of a frame holds of each that a file gives.
#![tactic(auto)]

mod laws;

pub use laws::{files_are_filed, imports_are_bases, imports_are_read, imports_show_screens};
