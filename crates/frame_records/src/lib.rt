//! Frames and the page base that holds them.
//!
//! A [`Base`] is built from lists in any order, or refused by name. Contracts see it as its entry page, its outside pages
//! and its frames, both ascending; `find` and `seek` answer by that list of frames as by a map from ids.
//!
//! ```
//! let base = Base::build(entry, outside, frames)?; // two lists, each in any order
//! base.find(id) // the frame, or None
//! base.seek(id, &Groups::read("7,9")?) // Found with its price, Closed or Missing
//! ```
//!
//! - [`Pence`], [`GroupNo`]: numbers within their limits.
//! - [`Groups`], [`GroupsFault`], [`GroupFault`]: the closed user groups of a caller, and why a text lists none.
//! - [`Frame`], [`Lead`], [`Body`]: a frame's record.
//! - [`Base`], [`BuildFault`], [`Sought`]: the base, why two lists make none, and the result of seeking an id.
//! - [`Frame::sought`], [`Base::follow`], [`Destination`]: what the ways of a frame seek, and where they lead.
//! - [`binary_search`], [`Entry`]: the binary search of a list in order, with the number of its entries that were compared;
//!   [`search`], [`Probe`]: the same of whatever can be asked how it compares.
#![tactic(auto)]

mod base;
mod build;
mod frame;
mod groups;
mod limits;
mod numbers;
mod probe;
mod sorted;
mod ways;

pub use base::{Base, Sought, bases_are_one};
pub use build::{BuildFault, is_body_long, is_next_after_z};
pub use frame::{Body, Frame, Lead};
pub use groups::{GroupFault, Groups, GroupsFault, groups_are_texts};
pub use limits::{MOST_BODY, MOST_GROUP, MOST_GROUPS, MOST_LISTED, MOST_PENCE};
pub use numbers::{GroupNo, Pence};
pub use probe::{Probe, search};
pub use sorted::{Entry, binary_search};
pub use ways::Destination;
