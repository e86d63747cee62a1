//! What is wrong with a base: its kinds of faults, and the keys that show them.
//!
//! The audit finds them (`fault_scripts`); they are here so that the words for them don't wait for its proofs.
//!
//! - [`Fault`], [`FaultKind`]: a fault of a base, and what kind it is.
#![tactic(auto)]

mod fault;

pub use fault::{Fault, FaultKind};
