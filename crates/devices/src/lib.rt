//! Where bytes come from and go to: devices that may fail, and whole texts read from them and written to them.
//!
//! - [`Source`], [`Sink`]: contracts see the bytes that are left or written, if the device shows them, and whether a call has
//!   returned an error. [`FromRead`] and [`IntoWrite`] make them from std's readers and writers.
//! - [`read_whole`], [`write_whole`]: a source up to a limit, and a whole text into a sink with the number of bytes taken.
//! - [`write_piece`], [`write_last`]: the same of a text that is made piece by piece.
//!
//! None of them repeats a call that returned an error.
//!
//! ```
//! let text = read_whole(alloc, &mut FromRead::new(file), 4_096)?;
//! match write_whole(&mut IntoWrite::new(stdout), text.as_slice()) {
//!     Ok(()) => {} // all bytes were taken, then flushed
//!     Err(fault) => {} // the first `fault.wrote` bytes were taken
//! }
//! ```
#![tactic(auto)]

mod device;
mod from_read;
mod into_write;
mod pieces;
mod reading;
mod writing;

pub use device::{Broken, Sink, Source};
pub use from_read::FromRead;
pub use into_write::IntoWrite;
pub use pieces::{write_last, write_piece};
pub use reading::{SourceFault, read_whole};
pub use writing::{WriteFault, write_whole};
