//! The forms of screens that other programs read and write.
//!
//! ```
//! push_form(alloc, &mut out, SavedForm::Link, id, &codes)? // 478a https://edit.tf/#0:QIECBAgQ..
//! link_codes(alloc, letters)? // the 960 codes of the letters after `#0:`
//! ```
//!
//! - [`Form`]: how a screen is shown. [`SavedForm`], [`push_form`]: the file of a frame's screen, in each form that is written.
//! - [`push_address`], [`link_codes`], [`is_link_letter`]: addresses of edit.tf, which hold a screen.
//! - [`linked_screens`], [`has_address`]: the addresses among the lines of a text. [`sheet_screens`], [`is_sheet`]: the pages of TTI.
//!   [`TextScreen`], [`TextScreensFault`], [`FaultyLine`], [`TextLineFault`]: what both give. [`any_case_id`]: an id as people type it.
//! - [`stored_code`]: the code of a byte of a file.
//! - [`links_keep_screens`], [`links_are_screens`], [`sheets_keep_screens`], [`sheets_are_screens`]: laws.
#![tactic(auto)]

mod addresses;
mod bits;
mod forms;
mod laws;
mod links;
mod sheet_lines;
mod sheets;
mod text_screens;
mod words;

pub use addresses::{has_address, linked_screens};
pub use bits::stored_code;
pub use forms::{Form, SavedForm, push_form};
pub use laws::{links_are_screens, links_keep_screens, sheets_are_screens, sheets_keep_screens};
pub use links::{is_link_letter, link_codes, push_address};
pub use sheets::{is_sheet, sheet_screens};
pub use text_screens::{FaultyLine, TextLineFault, TextScreen, TextScreensFault};
pub use words::any_case_id;
