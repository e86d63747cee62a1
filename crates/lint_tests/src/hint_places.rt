//! Places and messages that toml doesn't have, and names.

use crate::printed;
use lint_words::not_toml_words;
use std::alloc::Global;
use std::test::Fail;
use test_support::{same, same_in};

fn hint(alloc: Global, text: &str, at: usize, message: &str) -> Result<String, Fail> {
    let words = not_toml_words(alloc, text.as_bytes(), at, message)?;
    Ok(printed::hint(alloc, &words)?)
}

// A place past the end is the end.
#[test]
fn any_place_and_any_message(rt: HostRuntime) -> Result<(), Fail> {
    let missing = "; a quotation mark is missing";
    let rows = [
        ("", 0, "", ""),
        ("", 7, "invalid string", missing),
        ("a = \"b", usize::MAX, "invalid string", missing),
        (
            "a = [",
            99,
            "invalid key, expected letters, numbers, `-`, `_` or a quoted key",
            "; [ of line 1 is not closed",
        ),
        ("a = 1", 2, "duplicate key", ""),
        ("a = 1", 9, "no message of toml", ""),
    ];
    for (text, at, message, wanted) in rows {
        let given = hint(rt.alloc(), text, at, message)?;
        same_in(text, given.as_str(), wanted)?;
    }
    Ok(())
}

// A name is cut after its first 40 characters.
#[test]
fn long_names_are_cut(rt: HostRuntime) -> Result<(), Fail> {
    let text =
        "a23456789-123456789-123456789-123456789_ = 1\na23456789-123456789-123456789-123456789_ = 2\n";
    let whole = hint(rt.alloc(), text, 45, "duplicate key")?;
    same(
        whole.as_str(),
        "; \"a23456789-123456789-123456789-123456789_\" is defined already on line 1",
    )?;
    let text =
        "a23456789-123456789-123456789-123456789_5 = 1\na23456789-123456789-123456789-123456789_5 = 2\n";
    let cut = hint(rt.alloc(), text, 46, "duplicate key")?;
    same(
        cut.as_str(),
        "; \"a23456789-123456789-123456789-123456789_...\" is defined already on line 1",
    )
}
