//! What `lint` prints of findings, in one of its forms.
//!
//! ```
//! let findings = lint(alloc, text, &policy)?;
//! findings_text(alloc, Format::Full, b"town.toml", text, findings.as_slice())? // a line, the source line and carets for each
//! findings_text(alloc, Format::Line, b"town.toml", text, findings.as_slice())? // town.toml:31:8: error: X6 Range: ..; ..
//! ```
//!
//! - [`Format`]: the forms. [`findings_text`]: the text of findings, one after another.
//! - [`findings_are_whole_lines`]: in every form but `full`, in colour or not, a finding is one line, whatever is in the base and the path.
//! - Definitions: each form's text of a finding (`LineForm`, `FullForm`, `JsonForm`, `GithubForm`), which part of a line is shown (`Excerpts`),
//!   the texts of all findings (`Forms`), the laws (`Laws`).
#![tactic(auto)]

mod coloured_form;
mod drawing;
mod excerpt;
mod format;
mod forms;
mod full_form;
mod github_form;
mod json_form;
mod laws;
mod line_form;
mod paint;

pub use format::Format;
pub use forms::findings_text;
pub use laws::findings_are_whole_lines;
