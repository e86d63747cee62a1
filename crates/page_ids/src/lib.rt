//! Page numbers, frame ids and keys of a viewdata service, with their texts.
//!
//! A page number is 0 to 999,999,999, written in decimal without leading zeros. A frame id is a page number and a
//! letter `a` to `z`, as `1231a`. Each is read from just its own text, and back.
//!
//! ```
//! FrameId::read("1231a")?.following() // 1231b
//! FrameId::read("01a") // BadFrame: a leading zero
//! keys_read(alloc, "1#*#")? // the route 1, next, previous
//! keys_read(alloc, "1*5#") // BadKey(1): what begins at byte 1 is no key
//! ```
//!
//! - [`PageNo`], [`Letter`], [`Digit`], [`FrameId`]: small copied values; contracts see numbers, and a pair of numbers.
//! - [`Key`], [`KeyList`], [`keys_read`], [`keys_text`]: the keys of a caller, as `1#*#*00*09`.
//! - [`Way`]: the ways on from a frame, by a route or by `#`.
//! - [`number_read`], [`cut`]: decimal numbers up to a limit, and a text cut at a separator, for readers of other texts.
//! - [`push_number`], [`push_page`], [`push_id`], [`push_key`], [`push_keys`], [`push_utf8`],
//!   [`hex_digit`]: for writers of other texts.
#![tactic(auto)]

mod fault;
mod id;
mod key;
mod key_text;
mod letter;
mod limits;
mod number;
mod page;
mod parts;
mod way;
mod writing;

pub use fault::IdFault;
pub use id::{FrameId, ids_are_ordered, ids_are_texts, push_id};
pub use key::{Digit, Key, KeyList};
pub use key_text::{keys_are_texts, keys_read, keys_text, push_key, push_keys};
pub use letter::Letter;
pub use limits::MOST_PAGE;
pub use number::{NumberFault, number_read, numbers_are_texts, push_number};
pub use page::{PageNo, push_page};
pub use parts::cut;
pub use way::Way;
pub use writing::{hex_digit, push_utf8};
