//! What is checked before an edition is published: the edition by itself, and against the one that is served.
//!
//! - [`make_candidate`], [`Candidate`], [`CandidateFault`]: a base with a certificate that the check clears.
//! - [`read_edition`], [`read_served`], [`Served`], [`ServedFault`]: an edition of a folder, without its lock and with it.
//! - [`read_text`], [`read_follows`]: a file of an edition, and what the edition follows.
//! - [`reach_edition`], [`ReachFault`]: a later edition, along those on the way to it, each cleared against the one before it.
//! - [`may_follow`], [`Following`], [`wider_of`]: whether the one may follow the other.
//! - [`put_candidate`], [`PutFault`]: writes the edition of a candidate and makes it current.
//!   A sound folder stays sound; [`served_may_be_followed`].
#![tactic(auto)]

mod candidate;
mod following;
mod putting;
mod reaching;
mod served;

pub use candidate::{Candidate, CandidateFault, make_candidate};
pub use following::{Following, may_follow, wider_of};
pub use putting::{PutFault, put_candidate, served_may_be_followed};
pub use reaching::{ReachFault, reach_edition};
pub use served::{Served, ServedFault, read_edition, read_follows, read_served, read_text};
