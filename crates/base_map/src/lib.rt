//! The map of a base: its graph as a DOT file for Graphviz, for a caller of stated groups.
//!
//! Each frame is a node, and pages are clusters. Each pair of a frame and what its ways seek is an edge, with the keys that
//! seek it. What the base lacks is a node too, the entry frame as well.
//!
//! ```
//! let text = map_text(alloc, &base, &Groups::none(), &Part::whole())?; // digraph { .. "123a" -> "1231a" [label="1"] .. }
//! ```
//!
//! - [`map_text`]: the text. [`map_view`]: the text for a part that is named by a page and a number of keys.
//! - [`edges_are_ways`]: what its edges are.
//! - Definitions: the text (`Map`, `Nodes`, `Edges`).
#![tactic(auto)]

mod drawing;
mod edges;
mod laws;
mod lost;
mod map;
mod nodes;
mod targets;
mod title;

pub use laws::edges_are_ways;
pub use map::{map_text, map_view};
