//! What is in a folder of editions: a line for each, and whether each is cleared, by itself and after the one that it follows.
//!
//! ```
//! // under the lock of the folder
//! let run = run_verify(alloc, &mut store, &mut out, "live");
//! status_of_editions(&run) // 0: no caller, in whichever edition they began, met what a cleared change excludes
//! ```
//!
//! - [`run_list`]: a line for each edition, in the order of their numbers.
//! - [`run_verify`]: checks each edition by itself and against the one that it follows, and that only the last may follow
//!   `current`'s. If it answers [`EditionsStatus::Cleared`], the folder is sound; [`sound_folders_are_safe`] says what
//!   that means for callers.
//! - [`EditionsStatus`], [`EditionsFault`], [`FolderFault`], [`status_of_editions`]: what a run found, why it ended
//!   early, and the exit status for it.
//! - Definitions: what a run finds in a folder (`Judged`, `Findings`, `Forks`, `Rows`), the texts (`VerifyLines`,
//!   `ListLines`, `Runs`), what a cleared folder is (`Verified`), its chains (`FolderChains`), the exit status
//!   (`EditionsStatuses`).
#![tactic(auto)]

mod current;
mod fault;
mod finding;
mod following;
mod forks;
mod judging;
mod kept;
mod laws;
mod list_lines;
mod listing;
mod numbered;
mod numbers;
mod rows;
mod saying;
mod sealing;
mod serving;
mod status;
mod verify_lines;
mod verifying;

pub use fault::{EditionsFault, FolderFault};
pub use laws::sound_folders_are_safe;
pub use listing::run_list;
pub use status::{EditionsStatus, status_of_editions};
pub use verifying::run_verify;
