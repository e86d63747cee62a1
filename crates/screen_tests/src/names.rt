//! Steps by hand, by the definition of optimal string alignment: nothing between two swapped characters is changed.

use near_words::Search;
use std::test::Fail;
use test_support::same_in;

const NAMES: [&str; 6] = ["price", "prices", "id", "abc", "rows", "x"];

// A word, and whether each of the names is near and nearer than those before it.
const ROWS: [(&str, [bool; 6]); 9] = [
    ("price", [true, false, false, false, false, false]),
    ("prcies", [true, true, false, false, false, false]),
    ("pirces", [true, true, false, false, false, false]),
    ("prixes", [true, true, false, false, false, false]),
    ("PRICE", [false, false, false, false, false, false]),
    ("di", [false, false, true, false, false, false]),
    ("ca", [false, false, false, false, false, false]),
    ("cab", [false, false, false, true, false, false]),
    ("", [false, false, false, false, false, false]),
];

#[test]
fn a_name_is_taken_if_it_is_near_and_nearer(rt: HostRuntime) -> Result<(), Fail> {
    for (word, wanted) in ROWS {
        let mut search = Search::of(word);
        for (name, is_nearer) in NAMES.iter().zip(wanted) {
            same_in((word, *name), search.offer(rt.alloc(), name)?, is_nearer)?;
        }
    }
    Ok(())
}
