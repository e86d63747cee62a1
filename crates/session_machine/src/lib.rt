//! A caller's session: what each key answers, and where it leads.
//!
//! A [`Session`] is at a frame, with at most three remembered ones, or has left for an outside page. Each key looks into
//! the base that is handed in with it. `Session::key` is the table of keys in `specs/Sessions.antt`.
//!
//! ```
//! let (mut session, opening) = Session::open(alloc, &base, &Groups::none())?;
//! session.key(&base, Key::Next) // the reply for the frame that follows, or NotOffered
//! session.key(&next_edition, Key::Prev) // the frame before, sought in another base
//! ```
//!
//! - [`Session`], [`OpenFault`]: the session, and why none is opened.
//! - [`Reply`]: what the centre answers to a key.
//! - [`runs_in_turn`], [`remembers_few`], [`left_stays`], [`shows_what_is_found`]: laws over whole lists of keys.
//! - [`parts_in_turn`]: the same of sessions during which the edition changes (`specs/Runs.antt`).
#![tactic(auto)]

mod laws;
mod reply;
mod session;

pub use laws::{left_stays, parts_in_turn, remembers_few, runs_in_turn, shows_what_is_found};
pub use reply::Reply;
pub use session::{OpenFault, Session};
