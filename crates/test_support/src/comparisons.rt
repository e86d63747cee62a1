//! Comparisons of values. A comparison that fails is a [`Fail`] with both values.

use std::fmt::Debug;
use std::test::Fail;

/// Fails if the two differ, with both values.
pub fn same<T: PartialEq + Debug + Drop>(got: T, wanted: T) -> Result<(), Fail> {
    if got == wanted {
        Ok(())
    } else {
        Err(Fail::new(format_args!("{got:?} in place of {wanted:?}")))
    }
}

/// Fails if the two differ, with both values and the row of the test.
pub fn same_in<T: PartialEq + Debug + Drop>(
    row: impl Debug + Drop,
    got: T,
    wanted: T,
) -> Result<(), Fail> {
    if got == wanted {
        Ok(())
    } else {
        Err(Fail::new(format_args!("{row:?}: {got:?} in place of {wanted:?}")))
    }
}

/// How many of this many entries a binary search compares with a place: as many as are above it, with its own, in the tree
/// whose root is the middle entry. The entries have the odd places from 1 on; the even ones are before, between and after them.
pub fn depth(entries: u32, place: u32) -> u32 {
    let (mut size, mut place) = (entries, place);
    for above in 0..32u32 {
        let root = size | 1;
        if size == 0 {
            return above;
        }
        if place == root {
            return above + 1;
        }
        if place < root {
            size /= 2;
        } else {
            place = (place - root).saturating_sub(1);
            size = (size - 1) / 2;
        }
    }
    32
}
