//! The rows of a list of editions.

ghost use Rattle.std.specs.Prelude.{◌≡◌, IfOk};
ghost use Rattle.edition_lists.specs.Rows.{unless_there, lack_of, IsRowOf};

use crate::kept::KeptEdition;
use crate::serving::{Serving, serving_of};
use base_differences::base_summary;
use std::alloc::{AllocError, Global};

/// The row of an edition.
#[derive(Drop)]
pub struct EditionRow {
    pub number: u32,
    pub serving: Serving,
    /// The number of the edition that it follows; none of a new beginning.
    pub follows: Option<u32>,
    /// The same, if there is no such edition.
    pub lacks: Option<u32>,
    /// The number of its frames, and what changed from the edition that it follows.
    pub summary: Vec<u8>,
}

// A number, if no edition has it.
fn unless_there(numbers: &[u32], number: u32) -> Option<u32>
    ensures { result ≡ unless_there numbers.now number }
{
    if numbers.contains(&number) {
        None
    } else {
        Some(number)
    }
}

// What an edition follows, if that isn't there.
fn lack_of(numbers: &[u32], follows: Option<u32>) -> Option<u32>
    ensures { result ≡ lack_of numbers.now follows }
{
    unless_there(numbers, follows?)
}

/// The row of an edition. `old` is the edition that it follows, if that is there.
pub fn row_of(
    alloc: Global,
    numbers: &[u32],
    served: Option<u32>,
    edition: &KeptEdition,
    old: Option<&KeptEdition>,
) -> Result<EditionRow, AllocError>
    ensures { IfOk result (IsRowOf numbers.now served edition.now) }
{
    let old = old.map(|old| &old.served.base);
    let summary = base_summary(alloc, old, &edition.served.base)?;
    let number = edition.served.number;
    Ok(EditionRow {
        number,
        serving: serving_of(served, number, edition.follows),
        follows: edition.follows,
        lacks: lack_of(numbers, edition.follows),
        summary,
    })
}
