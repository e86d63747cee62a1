//! The line of a caller whose terminal isn't viewdata's: any terminal of 24 rows and 80 columns with colours.
//!
//! ```
//! let mut source = AnsiKeys::new(input); // the keys: a carriage return and a line feed are `#`
//! let mut sink = AnsiScreen::new(alloc, output); // takes what a viewdata terminal is sent, and writes the screen that it then shows
//! serve(alloc, &mut folder, &mut source, &mut sink, &mut log)
//! ```
//!
//! - [`AnsiScreen`]: at each flush the whole screen, as [`screen_text`] writes it: the lines of `show --as ansi`, each after its place.
//! - [`AnsiKeys`]: the bytes of a keyboard as those of a viewdata terminal.
//! - [`ansi_reads_back`], [`screen_reads_back`]: laws; what a terminal shows of a text in the form `ansi`, and of the screens of a call.
//! - Definitions: the lines in their places (`AnsiLines`), the keys (`AnsiTyped`), how a terminal reads (`AnsiReading`), what it shows
//!   of a look, and the laws (`Laws`).
#![tactic(auto)]

mod keys;
mod laws;
mod placing;
mod sink;

pub use keys::AnsiKeys;
pub use laws::{ansi_reads_back, screen_reads_back};
pub use placing::screen_text;
pub use sink::AnsiScreen;
