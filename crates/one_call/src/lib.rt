//! A caller's call: the editions of a folder, served on a line until the caller or the line ends it.
//!
//! ```
//! serve(alloc, &mut folder, &mut source, &mut sink, &mut log) // checks the edition; then the entry frame, and an answer a key
//! ```
//!
//! - [`serve`], [`CallFault`], [`ServeFault`]: the whole call. What the check doesn't clear is never served.
//! - [`CallLog`]: what is noted of it.
//! - [`parts_are_seen`], [`parts_are_safe`]: the laws of what the caller's terminal shows, and of what callers are promised.
//!
//! The call begins in the edition that is current. Before each byte is heard, another one that is current then takes its place, if it
//! was cleared against it, perhaps along others. Each answer is written and flushed before the next byte is read. No memory is kept
//! from key to key.
#![tactic(auto)]

mod caller;
mod fault;
mod laws;
mod line;
mod log;
mod opened;
mod renewing;
mod serving;

pub use fault::{CallFault, ServeFault};
pub use laws::{parts_are_safe, parts_are_seen};
pub use log::CallLog;
pub use serving::serve;
