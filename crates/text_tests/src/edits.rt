//! Texts in which spans are replaced.

use std::alloc::{AllocError, Global};
use std::test::Fail;
use test_support::same;
use text_edits::{Replacement, edited};

fn replacement(
    alloc: Global,
    begin: usize,
    end: usize,
    text: &str,
) -> Result<Replacement, AllocError> {
    let mut bytes = Vec::new(alloc);
    bytes.extend_from_slice(text.as_bytes())?;
    Ok(Replacement {
        begin,
        end,
        text: bytes,
    })
}

// What a text with two replacements is edited to.
fn edited_twice(
    alloc: Global,
    text: &str,
    first: Replacement,
    second: Replacement,
) -> Result<Option<Vec<u8>>, AllocError> {
    let mut replacements = Vec::new(alloc);
    replacements.push(first)?;
    replacements.push(second)?;
    edited(alloc, text.as_bytes(), replacements.as_slice())
}

#[test]
fn spans_are_replaced_and_the_rest_stays(rt: HostRuntime) -> Result<(), Fail> {
    let alloc = rt.alloc();
    let first = replacement(alloc, 5, 10, "820")?;
    let second = replacement(alloc, 13, 13, "!")?;
    let new = edited_twice(alloc, "id = \"820\" # £", first, second)?.ok_or("in order")?;
    same(new.as_slice(), "id = 820 # !£".as_bytes())
}

#[test]
fn spans_that_touch_are_both_replaced(rt: HostRuntime) -> Result<(), Fail> {
    let alloc = rt.alloc();
    let first = replacement(alloc, 0, 1, "x")?;
    let second = replacement(alloc, 1, 3, "")?;
    let new = edited_twice(alloc, "abc", first, second)?.ok_or("in order")?;
    same(new.as_slice(), b"x")
}

#[test]
fn spans_that_overlap_are_refused(rt: HostRuntime) -> Result<(), Fail> {
    let alloc = rt.alloc();
    let first = replacement(alloc, 0, 2, "x")?;
    let second = replacement(alloc, 1, 3, "y")?;
    same(edited_twice(alloc, "abc", first, second)?.is_none(), true)
}

#[test]
fn span_past_the_end_is_refused(rt: HostRuntime) -> Result<(), Fail> {
    let alloc = rt.alloc();
    let first = replacement(alloc, 0, 1, "x")?;
    let second = replacement(alloc, 3, 4, "y")?;
    same(edited_twice(alloc, "abc", first, second)?.is_none(), true)
}
