//! What the tests of all crates share: a base and its certificate, devices that fail at a chosen place, comparisons of values.
//!
//! ```
//! check_bytes(alloc, DEMO.as_bytes(), CERT.as_bytes(), &policy) // Cleared, by a policy of 5 pence, 1 keying and no groups
//! let mut source = FakeSource::broken(b"entry = 1\n", 4, 6);
//! read_whole(alloc, &mut source, 4_096) // Broken: reads of 4 and 2 bytes, and a third that fails
//! same_in(text, PageNo::read(text), Err(IdFault::BadPage))?;
//! ```
//!
//! - [`DEMO`], [`CERT`]: a base of three frames, and its certificate.
//! - [`FakeSource`], [`FakeSink`]: a reader and a writer in memory that count their calls and fail once. A caller that tries again
//!   finds that they go on.
//! - [`same`], [`same_in`]: comparisons, proved here once, while every `assert_eq!` of a test would be proved anew. One that fails
//!   is a [`Fail`](std::test::Fail) with both values; a test hands it up by `?`.
//! - [`depth`]: the number of comparisons that look-ups are tested against.
//!
//! The crate `program_tests` tests the crate [`devices`] with them.
#![tactic(auto)]

mod comparisons;
mod demo;
mod sink;
mod source;

pub use comparisons::{depth, same, same_in};
pub use demo::{CERT, DEMO};
pub use sink::FakeSink;
pub use source::FakeSource;
