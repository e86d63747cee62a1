//! The text of a policy: what a centre asks of its bases, and of which callers.
//!
//! ```toml
//! ceiling = 50     # the most pence that a frame may cost, 0 to 9999
//! keyings = 3      # the most keys that lead back to the entry page, 0 to 65535
//! groups = [7]     # the closed user groups of the callers, ascending, at most 16; left out: callers in no group
//! ```
//!
//! - [`policy_read`]: the policy that a text means, or its first fault.
//! - [`PolicyFault`], [`PolicyField`]: why a text is no policy.
//! - [`fault_span`]: the piece of the text that is at fault.
//! - [`widest_text`]: the text of the widest policy ([`widest_is_read`]).
#![tactic(auto)]

mod fault;
mod keys;
mod limits;
mod places;
mod reading;
mod values;

pub use fault::{PolicyFault, PolicyField};
pub use limits::MOST_POLICY_TEXT;
pub use places::fault_span;
pub use reading::{policy_read, widest_is_read, widest_text};
