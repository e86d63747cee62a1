//! What each printed word means: the texts of docs/CODES.md.
//!
//! ```
//! explanation("K7") // Some(["K7 Price", "The row's frame costs more ..", ..])
//! explanation("unknownkey") // the text of X3, too
//! explanation("s80") // that of all cursors
//! explanation("base: frame 0: X6 Range price") // the text of X6
//! nearest(alloc, "unknownky")? // Some("UnknownKey")
//! ```
//!
//! - [`explanation`]: the paragraphs of a word, for the words of the list (`listed`) in any case of letters, for cursors, and
//!   for lines that have a word of the list.
//! - [`overview`]: all words, a line for each text.
//! - [`nearest`]: the word of the list that was probably meant.
//!
//! `tools/explain-words` writes the words and their texts, and compares them with the page.
#![tactic(auto)]

mod cursor;
mod line;
mod mistyped;
mod pages;
mod word;

pub use mistyped::nearest;
pub use word::{explanation, overview};
