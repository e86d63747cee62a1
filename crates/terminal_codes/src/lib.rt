//! The terminal of a viewdata service: 24 rows of 40 cells, written byte by byte.
//!
//! `Terminal` keeps the cells. A `Caret` is where one is, its position and pending escape, without cells: what
//! bytes write, and where they end, depends on the caret alone. So 1,920 carets stand for all terminals, whatever they
//! show.
//!
//! ```
//! let mut terminal = Terminal::new();
//! terminal.run(&[0x1b, 0x41, 0x48]);
//! // the cells 0 and 1 hold 81 and 48, and the position is 2
//! ```
//!
//! Positions go from 0 to 959, `40 * row + column`. Rows 0 and 23 are the service rows. The attribute 8D, double height,
//! shows in the row beneath too, so that in row 22 it counts as written in a service row.
#![tactic(auto)]

mod caret;
mod laws;
mod lead;
mod table;
mod terminal;

pub use caret::Caret;
pub use laws::{caret_decides, cells_are_writes, cells_hold_codes, starts_decide};
pub use lead::lead_bytes;
pub use table::{DOUBLE_HEIGHT, code_written, is_service_position};
pub use terminal::Terminal;
