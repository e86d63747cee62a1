//! A whole base in one HTML file, to walk through in any browser, without a network.
//!
//! ```
//! let source = BaseSource { name: "town.toml", lines: &lines };
//! write_pages(alloc, &source, &base, &policy, &View::Whole, &mut sink)? // Written; the sink took the file, and was flushed
//! ```
//!
//! The file is a fixed head with a policy that forbids all loading, and the style; a header with a name, the verdict of the audit
//! and the policy; the fixed views and keypad; a section for each frame in the order of ids, with its picture and its text, both
//! again with what it conceals if it conceals something, its price, its group, its line in the base's file, its ways, and its faults
//! with what lint says of them; and the fixed script. `page/` has the fixed parts, of which `tools/base-page` makes `shell.rt`.
//! What a base contains gets into the file as ids, numbers and characters for markup alone.
//!
//! - [`write_pages`], [`BaseSource`], [`PagesStatus`], [`PagesFault`]: the file of a view of a base.
//! - [`file_has_its_tags`]: a law; names, texts and faults of a base add no tag.
//! - [`file_says_what_is_shown`], [`links_lead`], [`certified_ways_lead`]: laws of what a reader of markup finds; each section says what
//!   `show`, lint and the audit say of its frame, links are the ways, and on a certified base those lead.
//! - Definitions: the file (`Pages`), its header (`Head`), a section (`Sections`) with its ways (`Ways`), faults (`Faults`) and
//!   screen (`Screens`), and what that conceals (`Revealed`), of elements (`Elements`), and the fixed parts (`Shell`); the reader
//!   (`Reading`), and what it finds of frames (`Said`) and of ways (`Links`).
#![tactic(auto)]

mod book;
mod element;
mod fault;
mod faults;
mod header;
mod index;
mod laws;
mod pages;
mod screen;
mod sending;
mod sentences;
mod shell;
mod source;
mod ways;

pub use fault::PagesFault;
pub use laws::{certified_ways_lead, file_has_its_tags, file_says_what_is_shown, links_lead};
pub use pages::{PagesStatus, write_pages};
pub use source::BaseSource;
