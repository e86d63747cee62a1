//! The check, the audit, lint and the check of a change, for C: `include/pageaudit.h` declares these calls.
//!
//! ```
//! let mut line = [0u8; 256];
//! let mut length = 0;
//! // 0, and "CLEARED\n" in `line`: the headline holds of the two texts
//! pageaudit_check(alloc, base, cert, 50, 3, b"7,9", &mut line, &mut length)
//! ```
//!
//! - [`pageaudit_check`], [`pageaudit_change`], [`pageaudit_audit`], [`pageaudit_lint`], [`pageaudit_lint_json`]: what the program
//!   does, of texts in memory.
//! - [`pageaudit_show`], [`CellLook`]: the screen of a frame, as numbers.
//! - [`pageaudit_status_text`]: the words for what they return.
//! - [`CallStatus`]: what they return, by its number.
//!
//! No call keeps anything, and none ends the program. A slice is a pointer, which is never null, and a length.
#![tactic(auto)]

mod answer;
mod auditing;
mod changing;
mod checking;
mod linting;
mod naming;
mod policy;
mod showing;
mod status;

pub use auditing::pageaudit_audit;
pub use changing::pageaudit_change;
pub use checking::pageaudit_check;
pub use linting::{pageaudit_lint, pageaudit_lint_json};
pub use naming::pageaudit_status_text;
pub use showing::{CellLook, pageaudit_show};
pub use status::CallStatus;
