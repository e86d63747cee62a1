//! The frames that a caller of stated groups can reach, in the order of their discovery, each with its distance to the
//! entry frame.
//!
//! The entry frame is first. Then for each listed frame in turn the keys `0` to `9` and `#` are tried, and each open frame
//! found that isn't yet listed goes last. So each has a parent, and the keys along the parents lead to it.
//!
//! ```
//! let found = find(alloc, &base, &Groups::none())?;
//! found.as_slice() // the frames, each with its rank, its parent's index and the key pressed there
//! script_to(alloc, &found, 2)? // the keys from the entry frame to the third of them, as 1#
//! ```
//!
//! - [`Survey`]: the list of a base, with the record of each listed frame and the destination of each of its ways. Each way is
//!   looked up once, and nothing is sought again.
//! - [`find`], [`Found`], [`Discovered`]: the list alone.
//! - [`within`], [`Direction`]: the frames within a number of keys of a frame, whether or not a caller reaches it.
//! - [`Part`]: some frames of a base, or all. [`View`]: a part that is named by a page and a number of keys; [`part_of`]: its frames.
//! - [`script_to`]: the keys that lead to a listed frame.
//! - [`found_is_one`]: the list's clauses hold of one list alone; [`scripts_lead`]: its scripts lead.
//!
//! The list is stated by what it means, and no definition computes it: its frames are those that walks reach from the entry
//! frame, each parent and key the first that lead to its frame, each rank the length of the shortest walk back.
#![tactic(auto)]

mod aim;
mod direction;
mod discover;
mod found;
mod graph;
mod laws;
mod neighbours;
mod notes;
mod part;
mod ranks;
mod script;
mod survey;
mod table;
mod target;
mod view;
mod window;

pub use direction::Direction;
pub use found::{Discovered, Found};
pub use laws::{found_is_one, scripts_lead};
pub use part::Part;
pub use script::script_to;
pub use survey::{Survey, find};
pub use view::{View, part_of};
pub use window::within;
