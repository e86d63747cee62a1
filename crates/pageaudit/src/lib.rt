//! The runs of the program: each reads files and writes one text about them.
//!
//! Each run reads its files in the order of its arguments, decides, and writes one text, or returns a fault and writes
//! nothing. They take any reader and writer. What contracts say of bytes is about readers and writers that show theirs, as
//! slices and lists of bytes do. The crate `command_line` is the program: it opens files and reads the command line.
//!
//! ```
//! let mut base = FromRead::new(base_file);
//! let mut cert = FromRead::new(cert_file);
//! let mut out = IntoWrite::new(stdout);
//! let run = run_check(alloc, &mut base, &mut cert, &mut out, &policy);
//! status_of(&run) // 0: cleared, and the line CLEARED was taken whole
//! ```
//!
//! - [`run_audit`], [`run_audit_into`]: a base's certificate, or its faults.
//! - [`run_check`]: the verdict on a certificate; if the status is Clear, the headline holds of the two files.
//! - [`certified_is_cleared`]: what an audit's run certifies, a check's run clears.
//! - [`run_change`]: the verdict on a change of edition; if the status is Clear, the promise to callers inside holds.
//! - [`run_walk`]: what a caller sees.
//! - [`run_show`], [`Target`], [`Form`], [`ShowStatus`], [`status_of_show`]: the screen of a frame or after keys, and the exit
//!   status for it; [`read_keys`] reads the keys.
//! - [`run_pages`], [`PagesStatus`], [`status_of_pages`]: a base as an HTML file, and the exit status for it.
//! - [`take_frames`], [`Album`], [`FileKind`], [`ImportFault`], [`run_import`], [`ImportStatus`], [`status_of_import`]: the frames of
//!   saved screens, the base that is made of them, and the exit status for it.
//! - [`read_exported`], [`Gallery`], [`run_export`]: a base, the screens of its frames, and one of them written.
//! - [`run_list`], [`ListForm`]: a line for each frame of a base, in a form.
//! - [`run_lint`], [`LintReport`], [`status_of_lint`]: the findings in a base's file, in a [`Format`], and the exit status for them.
//!   [`Ignored`]: warnings that don't count.
//! - [`run_map`], [`View`], [`MapStatus`], [`status_of_map`]: the map of a base, and the exit status for it.
//! - [`Status`], [`status_of`]: the result of another run, and the program's exit status for it.
#![tactic(auto)]

mod audit_run;
mod change_run;
mod check_run;
mod edition;
mod export_run;
mod file_fault;
mod import_run;
mod input;
mod laws;
mod lint_run;
mod list_run;
mod map_run;
mod output;
mod pages_run;
mod show_run;
mod status;
mod walk_run;

pub use audit_report::{ListForm, Status};
pub use audit_run::{run_audit, run_audit_into};
pub use base_pages::PagesStatus;
pub use change_run::run_change;
pub use check_run::run_check;
pub use export_run::{read_exported, run_export};
pub use finder::View;
pub use finding_forms::Format;
pub use frame_screens::Gallery;
pub use import_run::{ImportFault, ImportStatus, run_import, status_of_import, take_frames};
pub use laws::certified_is_cleared;
pub use lint::{Counts, Ignored, Level, counted_text};
pub use lint_run::{LintReport, run_lint, status_of_lint};
pub use list_run::run_list;
pub use map_run::{MapStatus, run_map, status_of_map};
pub use pages_run::{run_pages, status_of_pages};
pub use screen_files::{
    Album, FileFrames, FileKind, Filed, Origin, ScreenFault, ScreenPlace, Settled, Twin,
};
pub use screen_forms::{FaultyLine, Form, SavedForm, TextLineFault};
pub use show_run::{ShowStatus, Target, run_show, status_of_show};
pub use status::status_of;
pub use walk_run::{read_keys, run_walk};
