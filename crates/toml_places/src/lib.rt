//! Where a base's text writes what a fault is about: the span of a key, a value, a header, an element or a character, and its
//! lines and columns.
//!
//! [`Places::of`] goes over the expressions of a TOML text, pairs and headers, as toml's own grammar reads them, and notes where
//! each key of each frame is first written. It keeps no value. The spans are read from there when they are wanted, and
//! [`TextLines`] turns them into lines and columns.
//!
//! ```
//! let text = "entry = 1\n[[frame]]\nid = \"1a\"\nroutes.'3' = 5\n";
//! let places = Places::of(alloc, text)?;
//! let id = places.key(Some(0), "id")?; // the spot of that key: at 20, part 0
//! key_span(text, id) // 20 to 22: id
//! let value = value_span(text, id)?; // 25 to 29: "1a"
//! char_span(text, value.begin, 1) // 27 to 28: a
//! pair_span(text, places.route(0, "3")?) // 37 to 44: '3' = 5
//! frame_span(text, places.header(0)?) // 10 to 19: [[frame]]
//! TextLines::of(alloc, text.as_bytes())?.extent(value) // line 3, column 6 to line 3, column 10
//! places.of_key(Some(0), "price") // 10: the frame has no price
//! ```
//!
//! - A frame is the k-th header `[[frame]]`, however it is spelled, and what follows up to the next. A frame in an inline array
//!   has no header: it is the k-th element of the value of `frame`, and [`TablePlaces::of`] notes where its keys are written. So
//!   it is with `routes = { .. }`.
//! - [`spans_stand`]: each span lies in its text. [`spans_are_read`]: what toml's grammar reads in a span is the key, value,
//!   element or character that it is of.
//! - If a text isn't TOML, the places are some offsets in it, and there may be no span.
//! - [`element_spans`] reads an array once.
//! - Definitions: what an expression writes, and which mark is the place of a key (`Places`); what is passed of a string, a key
//!   (`Strings`), a value (`Values`) and an expression (`Skips`); the spans (`Spans`) and their lines and columns (`Extents`);
//!   the laws (`SpanReads`).
#![tactic(auto)]

mod elements;
mod keys;
mod laws;
mod lines;
mod places;
mod spans;
mod strings;
mod tables;
mod text_lines;
mod values;

pub use laws::{headers_are_frames, places_are_within, spans_are_read, spans_stand};
pub use places::Places;
pub use spans::{
    KeyPlace, Span, char_span, element_spans, frame_span, integer_at, key_span, pair_span,
    value_span,
};
pub use strings::starts_char;
pub use tables::TablePlaces;
pub use text_lines::{Extent, TextLines, is_marked, place_in};
