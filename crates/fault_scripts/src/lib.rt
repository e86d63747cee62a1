//! The audit of a base: a certificate if and only if every session is safe within a policy, else every fault with the keys that
//! show it.
//!
//! ```
//! match audit(alloc, &base, &policy)? {
//!     Outcome::Certified(cert) => {} // the check clears it
//!     Outcome::Faulty(faults) => {} // every fault, with the keys that lead to it
//! }
//! ```
//!
//! - [`audit`], [`Outcome`]: the certificate of the frames that can be reached, or the faults.
//! - [`faults`], [`FaultList`], [`Fault`], [`FaultKind`]: what is wrong with a base, frame by frame in the order of discovery.
//! - [`audit_surveyed`], [`faults_surveyed`]: the same of a survey that the caller has made.
//! - [`replay`], [`Replayed`]: the result of a session of a fault's keys.
//! - [`faults_are_due`], [`faults_are_one`], [`faults_are_shown`], [`none_is_safe`]: the list is complete, it is the only such
//!   list, each fault is borne out by its script, and there is none if and only if the base is safe.
#![tactic(auto)]

mod auditing;
mod fault;
mod frame_fault;
mod frames;
mod laws;
mod outcome;
mod replaying;
mod reporter;
mod table;

pub use auditing::{audit, audit_surveyed, faults, faults_surveyed};
pub use base_faults::{Fault, FaultKind};
pub use fault::FaultList;
pub use laws::{faults_are_due, faults_are_one, faults_are_shown, none_is_safe};
pub use outcome::Outcome;
pub use replaying::{Replayed, replay};
