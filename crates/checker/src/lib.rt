//! The check of a certificate against a base.
//!
//! [`check`] reads each row of a certificate once. It runs no key and paints no cell. Yet if it answers
//! [`Verdict::Cleared`], this holds of a caller of the policy's groups after every list of keys:
//!
//! - no frame that was sought was missing or closed;
//! - each frame shown costs at most the certificate's ceiling, and doesn't paint over the service rows;
//! - unless the caller left the base, the entry page can be regained within the certificate's keyings.
//!
//! Who made the certificate doesn't matter.
//!
//! ```
//! let policy = Policy { ceiling, keyings: 3, groups: Groups::none() };
//! match check_bytes(alloc, base, cert, &policy) {
//!     Ok(Verdict::Cleared) => {} // every session is safe
//!     Ok(Verdict::Refused(cause)) => {} // the first condition that fails
//!     Err(fault) => {} // a text is at fault, or memory was refused
//! }
//! ```
//!
//! A caller's own proved function, and what memory the calls take: `docs/CHECKER.md`.
//!
//! - [`Policy`]: what a centre asks of its bases.
//! - [`check_counted`], [`Count`]: the same verdict, and what the check took.
//! - [`check_bytes`], [`InputFault`]: the same of two texts; the headline is a clause of this call. [`base_of`] and [`cert_of`]
//!   read one text.
//! - [`Verdict`], [`Cause`]: the first condition that fails, in one order.
//! - [`check_change`], [`ChangeVerdict`]: whether a new edition may take an old one's place while callers are inside; the law
//!   of sessions that cross any number of such changes is [`changes_are_safe`].
//! - [`good_is_safe`], [`cleared_is_good`], [`refused_is_first`]: the laws, of every base, policy and certificate.
//! - [`lost_is_least`]: E2 names the smallest id that is no longer covered.
//! - [`rows_are_clean`]: a frame that is given as rows is clean if and only if its 22nd row has no double height.
#![tactic(auto)]

mod bytes;
mod change;
mod count;
mod cover;
mod judge;
mod laws;
mod policy;
mod rank;
mod verdict;
mod ways;

pub use bytes::{InputFault, base_of, cert_of, check_bytes};
pub use change::{ChangeVerdict, check_change};
pub use count::Count;
pub use judge::{check, check_counted};
pub use laws::{
    changes_are_safe, cleared_is_good, good_is_safe, lost_is_least, refused_is_first,
    rows_are_clean,
};
pub use policy::Policy;
pub use verdict::{Cause, Verdict};
