//! Places, each looked up as the text that begins there.

use std::alloc::Global;
use std::test::Fail;
use test_support::{same, same_in};
use toml_places::Places;

const BASE: &str =
    "entry = 1 # where callers begin\noutside = [0, 5]\n\n[[frame]]\nid = \"1a\"\nroutes = { 0 = 0 }\n\n\
    [[frame]]\nid = \"2a\"\n\n[frame.routes]\n3 = 5\n4 = 6\n";

// What the text has from an offset to the end of that line.
fn line_at(text: &str, at: usize) -> &str {
    match text.get(at..) {
        Some(rest) => rest.lines().next().unwrap_or(""),
        None => "not an offset",
    }
}

// A key of a frame, or of the top, and the line that begins at its place.
type KeyLine<'a> = (Option<usize>, &'a str, &'a str);

fn have_keys(alloc: Global, text: &str, rows: &[KeyLine<'_>]) -> Result<(), Fail> {
    let places = Places::of(alloc, text)?;
    for (frame, key, wanted) in rows {
        let at = places.of_key(*frame, key);
        same_in((*frame, *key), line_at(text, at), *wanted)?;
    }
    Ok(())
}

// A frame, its header's line, and that of its route 3.
type FrameLines<'a> = (usize, &'a str, &'a str);

fn have_frames(alloc: Global, text: &str, rows: &[FrameLines<'_>]) -> Result<(), Fail> {
    let places = Places::of(alloc, text)?;
    for (frame, header, route) in rows {
        same_in(*frame, line_at(text, places.of_header(*frame)), *header)?;
        same_in(*frame, line_at(text, places.of_route(*frame, "3")), *route)?;
    }
    Ok(())
}

#[test]
fn a_key_is_where_it_is_first_written(rt: HostRuntime) -> Result<(), Fail> {
    let rows = [
        (None, "entry", "entry = 1 # where callers begin"),
        (None, "outside", "outside = [0, 5]"),
        (Some(0), "id", "id = \"1a\""),
        (Some(0), "routes", "routes = { 0 = 0 }"),
        (Some(1), "id", "id = \"2a\""),
        (Some(1), "routes", "[frame.routes]"),
    ];
    have_keys(rt.alloc(), BASE, &rows)
}

#[test]
fn what_is_not_written_is_at_the_frame_or_the_start(rt: HostRuntime) -> Result<(), Fail> {
    let rows = [
        (None, "title", "entry = 1 # where callers begin"),
        (Some(0), "price", "[[frame]]"),
        (Some(2), "id", "entry = 1 # where callers begin"),
    ];
    have_keys(rt.alloc(), BASE, &rows)?;
    have_frames(
        rt.alloc(),
        BASE,
        &[
            (0, "[[frame]]", "routes = { 0 = 0 }"),
            (1, "[[frame]]", "3 = 5"),
        ],
    )
}

// The first of two pairs below `routes` is the place of `routes`.
#[test]
fn the_first_of_two_marks_wins(rt: HostRuntime) -> Result<(), Fail> {
    let text = "[[frame]]\nroutes.2 = 4\nroutes.3 = 5\n";
    have_keys(rt.alloc(), text, &[(Some(0), "routes", "routes.2 = 4")])?;
    have_frames(rt.alloc(), text, &[(0, "[[frame]]", "routes.3 = 5")])
}

const SPELLED: [&str; 5] = [
    "a = 1\n[[ frame ]] # one\n[ frame . routes ]\n3 = 5\n",
    "a = 1\n[[\"frame\"]] # one\n['frame'.\"routes\"]\n3 = 5\n",
    "a = 1\r\n[[\"fr\\u0061me\"]] # one\r\n[frame.routes] #\r\n\t3 = 5\r\n",
    "\u{FEFF}a = 1\n  # [[frame]]\n\t[[frame]] # one\n\"routes\".\"3\" = 5",
    "a = 1\n[[frame]] # one\n[other]\n3 = 4\n[frame.routes]\n3 = 5",
];

#[test]
fn headers_may_be_spelled_in_many_ways(rt: HostRuntime) -> Result<(), Fail> {
    for text in SPELLED {
        let places = Places::of(rt.alloc(), text)?;
        let header = line_at(text, places.of_header(0));
        let route = line_at(text, places.of_route(0, "3"));
        same_in(
            text,
            header.starts_with("[[") && header.ends_with("# one"),
            true,
        )?;
        same_in(
            text,
            route.ends_with("3 = 5") || route.ends_with("\"3\" = 5"),
            true,
        )?;
        same_in(text, line_at(text, places.of_key(None, "a")), "a = 1")?;
    }
    Ok(())
}

// Each value has a line that looks like a header.
const VALUES: [&str; 5] = [
    "'''\n[[frame]]\n'''",
    "\"\"\"\n[[frame]]\n\\\"\"\"\"",
    "[\n[\n[\"frame\"]], # ]\n{ a = [[1]], \"b\" = '}' },\n]",
    "{ # }\na = [\n[[1]]\n],\nb = {},\n}",
    "1979-05-27 07:32:00Z # [[frame]]",
];

#[test]
fn a_header_in_a_value_opens_no_frame(rt: HostRuntime) -> Result<(), Fail> {
    for value in VALUES {
        let text = ["entry = ", value, "\n[[frame]]\nid = \"1a\"\n"].concat(rt.alloc())?;
        let places = Places::of(rt.alloc(), &text)?;
        same_in(
            value,
            line_at(&text, places.of_key(Some(0), "id")),
            "id = \"1a\"",
        )?;
        same_in(value, places.of_header(0), text.len() - 20)?;
        same_in(value, places.of_header(1), 0)?;
    }
    Ok(())
}

#[test]
fn frames_in_an_inline_array_are_at_its_key(rt: HostRuntime) -> Result<(), Fail> {
    let text = "entry = 1\nframe = [{ id = \"1a\" }, { id = \"2a\", routes = { 3 = 5 } }]\n";
    let places = Places::of(rt.alloc(), text)?;
    same(places.of_header(1), 10)?;
    same(places.of_key(Some(1), "id"), 10)?;
    same(places.of_route(1, "3"), 10)?;
    Ok(())
}

// A single [frame] is a table of the top, and so are its keys.
#[test]
fn a_table_frame_is_a_key_of_the_top(rt: HostRuntime) -> Result<(), Fail> {
    let text = "entry = 1\n[frame]\nid = \"1a\"\n";
    let places = Places::of(rt.alloc(), text)?;
    same(places.of_key(None, "frame"), 10)?;
    same(places.of_key(Some(0), "id"), 10)?;
    same(places.of_key(None, "id"), 0)?;
    Ok(())
}

#[test]
fn a_text_that_is_not_toml_has_some_places(rt: HostRuntime) -> Result<(), Fail> {
    for text in [
        "",
        "entry",
        "entry = ",
        "a = 1\n[[frame]\nid = 1",
        "a = [[[",
        "a = {b = 1, b = 2}\nc",
    ] {
        let places = Places::of(rt.alloc(), text)?;
        let is_within = places.of_key(Some(0), "id") <= text.len();
        same_in(text, is_within, true)?;
    }
    Ok(())
}

// Deeper than toml reads.
#[test]
fn deep_brackets_end_the_walk(rt: HostRuntime) -> Result<(), Fail> {
    let deep = "[".repeat(rt.alloc(), 100_000)?;
    let text = ["a = 1\nb = ", &deep].concat(rt.alloc())?;
    let places = Places::of(rt.alloc(), &text)?;
    same((places.of_key(None, "a"), places.of_key(None, "b")), (0, 0))
}
