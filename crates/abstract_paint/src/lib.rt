//! Painting judged without a screen.
//!
//! A frame is clean if no terminal, whatever it shows and wherever it is, lets the frame's body write a service
//! position, or double height (8D) in row 22, whose lower half shows in row 23. `paint` decides it by folding one small
//! cursor over the body, exactly in both directions, and says where a clean frame may end. `start_for` finds the least
//! start that shows why a frame isn't clean, `start_at` the same for whoever has painted it already.
//!
//! ```
//! paint(Lead::Keep, &[0x0d, 0x08]) // Clean, at column 39, no escape pending
//! paint(Lead::Keep, &[0x0d, 0x0a, 0x41]) // Touches(2): from row 22 the letter goes to row 23
//! start_for(Lead::Keep, &[0x0d, 0x0a, 0x41]) // the start at position 880, the first of row 22
//! start_for(Lead::Keep, &[0x0d, 0x0a, 0x1b, 0x4d]) // double height: the start at 840, the first of row 21
//! ```
//!
//! Positions go from 0 to 959, `40 * row + column`; rows 0 and 23 are the service rows.
#![tactic(auto)]

mod advance;
mod cursor;
mod laws;
mod painting;
mod plain;
mod start;
mod step;

pub use cursor::{AbsCursor, Pend, Place};
pub use laws::{
    code_touches, codes_go_on, ends_are_on_screen, ends_are_one, paint_is_exact, plain_goes_on,
    plain_reaches, screen_is_stood_for, stands_is_test, starts_are_one,
};
pub use painting::{Painted, paint};
pub use plain::{plain_mask, plain_run};
pub use start::{Start, start_at, start_for};
