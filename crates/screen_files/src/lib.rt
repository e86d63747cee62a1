//! A saved screen as a frame of a base.
//!
//! ```
//! let codes = saved_codes(bytes)?; // 24 rows of 40 codes, from a file of 960, 1,000, 1,024 or 880 bytes
//! screen_head(&codes) // what row 0 shows: the id 478a, and 0p
//! push_frame(&mut out, &Known::of(alloc, false, &[])?, &frame, false)?; // [[frame]] .. rows = [ .. ], one row a line
//! ```
//!
//! - [`saved_codes`]: the 960 codes of a saved screen, by its size and first bytes. [`capture_screens`], [`Shot`], [`MOST_SHOTS`],
//!   [`CaptureFault`]: the screens of a capture, which is what a centre sent.
//! - [`screen_head`], [`Head`]: the id and the price that row 0 shows. [`name_id`]: the id in the name of a file.
//! - [`ScreenFrame`], [`push_frame`], [`push_frames`], [`push_rows`], [`push_entry`]: the text of a base, frame by frame.
//! - [`Known`]: the frames to which routes may lead that are guessed from the numbers of pages.
//! - [`file_frames`], [`FileFrames`], [`FileKind`], [`ScreenFault`], [`FramesFault`], [`MOST_SCREEN`]: the frames of a file, or why it
//!   gives none.
//! - [`settle`], [`Settled`], [`Filed`], [`Origin`], [`ScreenPlace`], [`Twin`]: one frame of each id.
//! - [`Album`], [`AddFault`], [`base_text`], [`BaseTextFault`]: the frames of several files, and the text of the base that is made of
//!   them.
//! - [`frames_show_screens`], [`files_are_screens`], [`ep1_keeps_screens`]: laws.
#![tactic(auto)]

mod album;
mod capture;
mod codes;
mod file;
mod filed;
mod frame;
mod head;
mod keys;
mod laws;
mod routes;
mod rows;
mod settling;
mod text_screens;
mod texts;

pub use album::{AddFault, Album, BaseTextFault, base_text, push_frames};
pub use capture::{CaptureFault, MOST_SHOTS, Shot, capture_screens};
pub use codes::saved_codes;
pub use file::{FileFrames, FileKind, FramesFault, MOST_SCREEN, ScreenFault, file_frames};
pub use filed::{Filed, Origin, ScreenPlace, Twin};
pub use frame::ScreenFrame;
pub use head::{Head, name_id, screen_head};
pub use laws::{ep1_keeps_screens, files_are_screens, frames_show_screens};
pub use routes::Known;
pub use settling::{Settled, settle};
pub use texts::{push_entry, push_frame, push_rows};
