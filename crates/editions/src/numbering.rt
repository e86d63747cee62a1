ghost use Rattle.std.specs.Prelude.{◌≡◌};
ghost use Rattle.editions.specs.Folders.{next_number, NextIsNew};

use crate::limits::MOST_EDITION;

/// The number of the next edition: one more than the greatest of those that are there, and 1 if there are none. `None` past
/// 999,999,999.
pub fn next_number(numbers: &[u32]) -> Option<u32>
    ensures { result ≡ next_number numbers.now }
{
    let mut most = 0;
    for number in numbers {
        most = most.max(*number);
    }
    if most < MOST_EDITION {
        Some(most + 1)
    } else {
        None
    }
}

/// No edition has the next number.
pub fn next_is_new()
    ensures { NextIsNew }
{}
