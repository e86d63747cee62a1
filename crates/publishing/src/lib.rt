//! From a base's text to the edition that a folder serves.
//!
//! ```
//! // under the lock of the folder
//! let run = run_publish(alloc, &mut store, &mut base, &mut out, &asked);
//! status_of_publish(&run) // 0: the edition is current, or these texts were served already
//! ```
//!
//! - [`run_publish`], [`Publish`]: lints the base of a text by the folder's policy, certifies and checks it, checks the change
//!   from the edition that is served, and only then writes the edition.
//! - [`PublishStatus`], [`PublishFault`], [`status_of_publish`]: what it did, why it ended early, and the exit status for it.
//! - Definitions: the edition that is served (`Serving`), what a publish leaves (`Publishing`), the exit status (`ExitStatus`).
#![tactic(auto)]

mod asked;
mod fault;
mod following;
mod judging;
mod places;
mod publish_run;
mod putting;
mod serving;
mod status;
mod summary;

pub use asked::Publish;
pub use fault::PublishFault;
pub use publish_run::run_publish;
pub use status::{PublishStatus, status_of_publish};
