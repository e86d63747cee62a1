//! The text of certificates.
//!
//! One spelling for each certificate, line by line: `PBC1`, the entry page, the ceiling, the keyings, the number of
//! rows, then a line for each row in the order of ids (`1231a 1 s80`), and `end`. A certificate for callers of some
//! groups begins with `PBC2`, and has a line `groups 7 9` after the keyings. A certificate is read from just its own
//! text.
//!
//! ```
//! let cert = cert_read(alloc, text)?;
//! cert_write(alloc, &cert)? // the same bytes
//! cert_read(alloc, b"PBC3\n") // Line(1, Magic)
//! ```
//!
//! - [`cert_write`]: the text of a certificate.
//! - [`cert_read`], [`ReadFault`], [`LineCause`]: the certificate of a text, or the first line at fault and why.
//! - [`CertReader`]: the same from a text that comes in pieces; the cuts don't matter.
#![tactic(auto)]

mod cursor;
mod fault;
mod laws;
mod line;
mod line_reader;
mod reader;
mod so_far;
mod stage;
mod writer;

pub use fault::{LineCause, ReadFault};
pub use laws::{lines_are_judged, long_texts_are_decided, texts_are_certificates};
pub use reader::{CertReader, cert_read};
pub use writer::cert_write;
