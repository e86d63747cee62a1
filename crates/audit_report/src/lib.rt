//! Every printed line.
//!
//! ```
//! verdict_text(alloc, &Verdict::Refused(Cause::CeilingAbove))? // b"REFUSED K2 CeilingAbove\n"
//! fault_text(alloc, &RunFault::ReadBase)? // b"base: read failed\n"
//! ```
//!
//! - [`report`], [`verdict_text`], [`change_text`], [`walk_text`], [`entry_text`], [`fault_text`]: each printed text, byte for byte as it is
//!   defined. [`push_fault`]: the line of one fault.
//! - [`Status`]: whether what was judged is clear. [`RunFault`]: why a run ends without its work done.
//!
//! - [`list`], [`Listing`]: the text of `list`, a line for each frame: the frames that a caller can reach, in the order of their
//!   discovery, and then the others, in the order of their ids. Its memory is taken before its first line is written.
//! - [`lists_every_frame`]: each frame of the base has one line: FRAME if a walk reaches it, and otherwise UNREACHED.
//! - [`frames_are_lines`]: it is one line in each [`ListForm`], as words and as an object of JSON.
//!
//! What texts are read from and written to is the crate [`devices`]; its names are re-exported here.
#![tactic(auto)]

mod fault_line;
mod laws;
mod list_entry;
mod list_form;
mod list_lines;
mod listing;
mod push;
mod reached;
mod report_lines;
mod run_fault;
mod script;
mod status;
mod verdict_line;
mod walk_lines;

pub use devices::{
    Broken, FromRead, IntoWrite, Sink, Source, SourceFault, WriteFault, read_whole, write_whole,
};
pub use fault_line::fault_text;
pub use laws::{frames_are_lines, lists_every_frame};
pub use list_form::ListForm;
pub use listing::{Listing, list};
pub use report_lines::{push_fault, report};
pub use run_fault::RunFault;
pub use status::Status;
pub use verdict_line::{change_text, verdict_text};
pub use walk_lines::{entry_text, walk_text};
