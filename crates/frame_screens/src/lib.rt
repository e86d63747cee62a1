//! Which screen a caller sees: at a frame, and after a list of keys.
//!
//! ```
//! let way = way_to(alloc, &base, &Groups::none(), id)?; // the frames on the way to a frame, itself the last
//! screen(&base, &way) // the 960 codes: the frames sent to a new terminal, and the centre's rows 0 and 23
//! frames_after(alloc, &base, &Groups::none(), keys.as_slice())? // the frames of a session, or NoScreen::Gone(7)
//! ```
//!
//! - [`way_to`]: the frames that are sent on the keys that lead to a frame, as `list` prints them. [`way_at`]: the same, if the
//!   ways were looked up before.
//! - [`frames_after`], [`NoScreen`]: the frames that a session's keys show, or why there is no screen at its end.
//! - [`FrameList`]: frames in the order in which they are sent, at least one.
//! - [`screen`]: what they leave on a new terminal, with the centre's rows. [`send`]: one frame sent to a terminal.
//! - [`Painter`]: the screens of all frames that are reached, one after another, each from its parent's terminal.
//! - [`Gallery`]: the screens of all frames, also of those that no key reaches.
//! - [`nearest`]: the frame that was probably meant by an id that the base lacks.
//! - [`headline_is_seen`]: rows 0 and 23 of a cleared base's screens; [`frames_decide`], [`ways_lead_there`]: laws.
#![tactic(auto)]

mod gallery;
mod header;
mod keyed;
mod laws;
mod list;
mod near;
mod painter;
mod places;
mod sending;
mod way;

pub use gallery::Gallery;
pub use header::screen;
pub use keyed::{NoScreen, frames_after};
pub use laws::{frames_decide, headline_is_seen, ways_lead_there};
pub use list::FrameList;
pub use near::nearest;
pub use painter::Painter;
pub use sending::send;
pub use way::{way_at, way_to};
