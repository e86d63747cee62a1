//! What the centre sends to a caller's terminal: frames, its own rows 0 and 23, and the way back of the cursor.
//!
//! A caller's terminal never leaves the place where the frames left it: after the centre's rows the cursor goes back there. So
//! it is at every moment as the terminal that [`screen`](frame_screens::screen) paints, but for rows 0 and 23. All bytes have
//! seven bits.
//!
//! ```
//! let mut text = Vec::new(alloc);
//! let caret = push_opening(&mut text)?; // every terminal is then a new one
//! let caret = push_reply(alloc, &mut text, &base, caret, &reply)?; // its frame, or the words of row 23
//! push_words(&mut text, caret, b"*0")?; // row 23 alone
//! ```
//!
//! - [`push_opening`], [`push_reply`], [`push_words`]: what is sent at the beginning, for a reply, and for row 23 alone.
//! - [`reply_words`], [`keyed_page_words`], [`end_words`]: the words of row 23.
//! - [`serves_exactly`], [`replies_send_frames`]: the laws of what a terminal then shows; [`top_is_shown`] of row 0,
//!   [`seven_bits_do`] of the seven bits.
#![tactic(auto)]

mod laws;
mod rows;
mod sent;
mod seven;
mod words;

pub use laws::{replies_send_frames, serves_exactly, seven_bits_do, top_is_shown};
pub use sent::{push_opening, push_reply, push_words};
pub use words::{end_words, keyed_page_words, reply_words};
