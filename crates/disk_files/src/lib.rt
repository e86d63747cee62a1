//! Files and folders as the commands open, read and write them.
//!
//! No contract says what is on a disk, so none says what these functions do to it: the program's tests do. A folder of editions
//! shows its clauses whether its lock is held.
//!
//! - [`Unfinished`], [`unread`], [`unwritten`], [`ended`]: why a command ends without its work done.
//! - [`open`], [`open_base`], [`Opened`], [`is_input`], [`path_to`], [`is_folder`], [`is_certificate`]: what a path names.
//! - [`Out`], [`OutFile`], [`open_out`], [`named_out`], [`followed`], [`new_beside`], [`is_same_file`], [`Seen`], [`seen_at`]: the
//!   file that `--out` names.
//! - [`FolderFiles`], [`path_in`], [`edition_path`], [`flush_folder`], [`write_policy`]: a folder of editions.
//! - [`diff_text`], [`diff_of_edits`]: how a text changes. [`shows_colours`]: whether standard output shows colours.
#![tactic(auto)]

mod diff_lines;
mod edition_folder;
mod edition_store;
mod opening;
mod out_file;
mod terminal;

pub use diff_lines::{diff_of_edits, diff_text};
pub use edition_folder::{Failed, FolderFiles, edition_path, path_in};
pub use edition_store::{flush_folder, write_policy};
pub use opening::{
    Opened, Unfinished, ended, is_certificate, is_folder, is_input, open, open_base, path_to,
    unread, unwritten,
};
pub use out_file::{
    Out, OutFile, Seen, followed, is_same_file, named_out, new_beside, open_out, seen_at,
};
pub use terminal::shows_colours;
