//! Keys on a line: the bytes that a caller's terminal sends, taken one at a time as they come.
//!
//! ```
//! let mut hearing = Hearing::new();
//! hearing.hear(b'1') // Heard::Pressed: the route 1
//! hearing.hear(b'*') // Heard::Changed: the command so far is `*`
//! hearing.hear(b'#') // Heard::Pressed: previous
//! ```
//!
//! - [`Hearing`], [`Heard`]: the command so far, and what a byte asks for.
//! - [`words_are_heard`], [`telnet_is_passed_over`], [`top_bit_is_dropped`]: the laws of all bytes.
//!
//! `#` is 23, or 5F as a viewdata terminal sends it. Bit 7 of each byte is dropped, but for those of telnet's commands, which are
//! passed over whole. So a key is heard on a line with a parity bit, and a telnet client may be at its other end.
#![tactic(auto)]

mod heard;
mod hearing;
mod laws;
mod telnet;

pub use heard::Heard;
pub use hearing::Hearing;
pub use laws::{telnet_is_passed_over, top_bit_is_dropped, words_are_heard};
