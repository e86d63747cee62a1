//! A folder of editions: what its texts mean, the calls that read and write it, and what a publish leaves at every moment.
//!
//! ```text
//! live/policy.toml          the policy for the next edition
//! live/editions/1/          base.toml, base.cert, policy.toml, follows, SHA256SUMS
//! live/editions/2/
//! live/current              the number of the edition that is served, and a line end
//! live/lock
//! ```
//!
//! - [`EditionFolder`], [`EditionStore`], [`StoreFault`]: a folder that is read, and one that is written. Contracts see what is in it,
//!   if it shows that.
//! - [`EditionFile`], [`WholeEdition`]: a file of an edition, and the bytes of all five.
//! - [`current_in`], [`current_text`], [`follows_in`], [`follows_text`]: the texts of `current` and `follows`, each read from just its own
//!   ([`lines_are_numbers`]).
//! - [`next_number`]: the number of the next edition, which none has ([`next_is_new`]).
//! - [`put_edition`]: the steps of a publish.
//! - [`sums_text`]: the text of SHA256SUMS.
//! - [`moments_are_sound`]: whatever stops the steps of a publish, at any moment: the folder is sound, and no edition has changed.
//! - [`wider_stays_cleared`], [`chains_are_safe`]: what is promised to callers who are inside, while editions and policies change.
//! - Definitions: what is in a folder, and the steps of a publish (`Folders`), its moments (`Moments`), the texts (`NumberLines`,
//!   `Names`, `Sums`), editions that follow each other (`Chains`).
#![tactic(auto)]

mod edition_file;
mod laws;
mod limits;
mod number_lines;
mod numbering;
mod store;
mod sums;
mod taking;
mod whole_edition;

pub use edition_file::EditionFile;
pub use laws::{chains_are_safe, moments_are_sound, wider_stays_cleared};
pub use limits::MOST_EDITION;
pub use number_lines::{current_in, current_text, follows_in, follows_text, lines_are_numbers};
pub use numbering::{next_is_new, next_number};
pub use store::{EditionFolder, EditionStore, StoreFault};
pub use sums::sums_text;
pub use taking::put_edition;
pub use whole_edition::WholeEdition;
