//! Every finding of `lint` in a base's text, with its span.
//!
//! ```
//! let findings = lint(alloc, text, &policy)?; // all faults of the text, or those of its audit and what no key reaches
//! Counts::of(findings.as_slice()) // 1 error, no warning
//! ```
//!
//! - [`lint`], [`Finding`], [`Level`]: the findings in the order of where they begin.
//! - A span is that of the smallest piece at fault: a key, a value, an element of a list, a route, a character or a header.
//!   [`spans_lie_in_the_text`].
//! - [`Counts`], [`counted_text`]: how many there are. [`Ignored`], [`remove_warnings`]: the warnings that don't count, or aren't shown.
//! - [`picture_places`], [`PicturePlace`]: where a text writes what frames show.
//! - [`written_base`], [`WrittenBase`], [`WrittenFrames`], [`WrittenFrame`]: a base, and where its text writes the frames, line by line.
//!   [`fault_sentences`], [`Sentence`]: what is said of the faults of an audit.
//! - [`lint_follows_base_read`], [`no_error_is_safe`], [`lint_warns_of_unreached`]: what the findings of a text mean.
//! - Definitions: what is found (`Lint`), what may be wrong with frames (`Looks`, `Offers`, `Sights`, `AllLooks`), where a text
//!   writes its tables (`Tables`), what frames show (`Pictures`) and their lines (`FrameLines`), which piece is at fault (`Spots`,
//!   `Outside`), the order (`Findings`), the laws (`Laws`).
#![tactic(auto)]

mod all_looks;
mod audit_findings;
mod counts;
mod finding;
mod ignored;
mod judging;
mod laws;
mod lines;
mod looks;
mod lookup;
mod offers;
mod order;
mod outside;
mod pictures;
mod sentences;
mod sights;
mod spots;
mod tables;
mod text_findings;

pub use counts::{Counts, counted_text};
pub use finding::{Finding, Level};
pub use ignored::{Ignored, remove_warnings};
pub use judging::lint;
pub use laws::{
    lint_follows_base_read, lint_warns_of_unreached, no_error_is_safe, spans_lie_in_the_text,
};
pub use lines::{WrittenBase, WrittenFrame, WrittenFrames, written_base};
pub use pictures::{PicturePlace, picture_places};
pub use sentences::{Sentence, fault_sentences};
