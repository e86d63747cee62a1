//! The words of findings: what `pageaudit lint` prints of a fault, after its place.
//!
//! ```
//! let words = text_fault_words(alloc, &fault, &written)?; // X3 UnknownKey: "pirce" is not a key of a frame; did you mean "price"?
//! words.code().word() // X3
//! words.code().name() // UnknownKey
//! words.message().as_str() // "pirce" is not a key of a frame
//! words.hint() // did you mean "price"?
//!
//! audit_fault_words(alloc, &judged, &fault, frame)? // PRICE: frame 33163a costs 55, the ceiling is 50 (keys 63)
//! whole_fault_words(alloc, &fault, 185)? // B1 Duplicate: frame 33152a is defined already on line 185
//! unreached_words(alloc, id)? // UNREACHED: no key leads to frame 3319a from the entry page
//! menu_words(alloc, id, 10, 7)? // MENU: row 10 of frame 620a offers key 7, which has no route; ..
//! none_reached_words(alloc, 12)? // UNREACHED: no key leads to 12 frames from the entry page
//! not_toml_words(alloc, b"entry = 0331\n", 8, "invalid value, ..")? // X2 NotToml: invalid value, ..; a number has ..
//! cause_span(text, span, "duplicate key") // the span, or that of a header above it: [frame.620a]
//! push_counted(out, 3, 1)? // 3 errors, 1 warning
//! ```
//!
//! A message and a hint are a [`Line`] each: UTF-8 without a control character, whatever the base has in it. The contracts
//! say what a message is, but of a hint only that it is a line.
//!
//! - A count of bytes, characters, rows, frames, pages, keys or faults has commas (4,130), and so has the number of a byte,
//!   a character, a row or an item. A price, a page, a group, a line, or an integer of the file has none.
//! - A text of the file is in double quotes, at most 40 characters of it and then `...`. In it a control character (up
//!   to U+001F, and U+007F to U+009F) is written as `\u0007`, and `"` and `\` follow a `\`.
//! - A character of the file is shown with its code point, as `£ (U+00A3)`. A control character or a space is shown by
//!   its code point alone.
//! - A frame whose `id` doesn't read is `this frame`: the one at the place of the finding.
//! - A fault that is listed for all others of its table has their number: `X8 RowTooLong: 500 more faults in frame 1a, not
//!   listed`.
//! - For an unknown key of the top or of a frame the nearest key of that table is proposed, as `near_words` finds it, in the
//!   same case of letters and in the order `entry`, `outside`, `frame`, or `id`, `price`, `group`, `next`, `routes`, `lead`,
//!   `body`, `rows`.
//! - The hint for a text that isn't TOML goes by toml's message, which no clause pins, and by the bytes around its place. It reads
//!   no TOML, not even where a string ends: it is a guess at the cause. If no rule applies, there is none.
#![tactic(auto)]

mod about;
mod audit_hints;
mod backwards;
mod brackets;
mod code;
mod count_words;
mod escapes;
mod fault_words;
mod headers;
mod hint;
mod key_pieces;
mod line;
mod list_slips;
mod near_bytes;
mod near_key;
mod odd_chars;
mod piece;
mod pieces;
mod slips;
mod text_hints;
mod text_words;
mod toml_hints;
mod toml_messages;
mod touch_hints;
mod value_hints;
mod values;
mod warning_words;
mod whole_words;
mod words;
mod written_keys;

pub use about::About;
pub use code::Code;
pub use count_words::push_counted;
pub use fault_words::{Judged, audit_fault_words, none_reached_words, unreached_words};
pub use headers::cause_span;
pub use line::Line;
pub use near_key::FIELDS;
pub use text_hints::Written;
pub use text_words::{not_toml_words, text_fault_words, too_long_words};
pub use warning_words::{
    LineEnd, escape_words, hidden_words, line_end_words, menu_words, shown_escape_words,
    unsought_words,
};
pub use whole_words::whole_fault_words;
pub use words::Words;
