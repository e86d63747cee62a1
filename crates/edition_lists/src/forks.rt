//! Whether an edition comes between another one and what that follows.

ghost use Rattle.std.specs.Prelude.{◌≡◌};
ghost use Rattle.edition_lists.specs.Forks as spec;

use crate::finding::{EditionFinding, EditionNote};

/// An edition, the one that it follows, and one between them that follows another: callers may be in that one.
#[derive(Debug, Clone, Copy, PartialEq, Eq)]
pub struct Fork {
    pub number: u32,
    pub follows: u32,
    pub between: u32,
}

// What a right edition follows.
fn followed(finding: &EditionFinding) -> Option<u32>
    ensures { result ≡ spec.followed finding.now.note }
{
    match &finding.note {
        EditionNote::Right(follows) => *follows,
        EditionNote::Wrong(_) => None,
    }
}

/// The first right edition that doesn't follow the one before it in its chain, by findings in the order of their
/// numbers.
pub fn first_fork(findings: &[EditionFinding]) -> Option<Fork>
    ensures { result ≡ spec.first_fork 0 findings.now }
{
    let mut last = 0;
    for finding in findings {
        let Some(follows) = followed(finding) else {
            continue;
        };
        if follows < last {
            return Some(Fork {
                number: finding.number,
                follows,
                between: last,
            });
        }
        last = finding.number;
    }
    None
}
