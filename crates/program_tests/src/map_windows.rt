//! The frames near a page.

use base_map::map_view;
use base_text::base_read;
use finder::{Part, View, part_of};
use frame_records::{Base, Groups};
use page_ids::PageNo;
use std::alloc::{AllocError, Global};
use std::test::Fail;
use test_support::same;

// Pages 1 to 4 lead round by route 1, and page 2 to page 8, which is missing; page 3 is of group 7.
const RING: &str = r#"entry = 1
[[frame]]
id = "1a"
rows = []
routes = { 1 = 2 }
[[frame]]
id = "2a"
rows = []
routes = { 1 = 3, 2 = 8 }
[[frame]]
id = "3a"
group = 7
rows = []
routes = { 1 = 4 }
[[frame]]
id = "4a"
rows = []
routes = { 1 = 1 }
"#;

// The pages of the frames that a part shows, with a space before each.
fn pages(alloc: Global, base: &Base, part: &Part) -> Result<String, AllocError> {
    let mut pages = String::new(alloc);
    for frame in base.frames() {
        if part.shows(frame.id) {
            pages.push(' ')?;
            pages.push_str(frame.id.page.text().as_str())?;
        }
    }
    Ok(pages)
}

fn has_pages(alloc: Global, base: &Base, part: Option<Part>, wanted: &str) -> Result<(), Fail> {
    match part {
        Some(part) => same(pages(alloc, base, &part)?.as_str(), wanted),
        None => same("no part", wanted),
    }
}

// A caller's groups, a page, the most keys, the pages that they lead to, and those from which they lead there.
type Window = (&'static str, u32, Option<u16>, &'static str, &'static str);

const WINDOWS: [Window; 6] = [
    ("7", 1, Some(0), " 1", " 1"),
    ("7", 1, Some(1), " 1 2", " 1 4"),
    ("7", 1, Some(2), " 1 2 3", " 1 3 4"),
    ("7", 1, None, " 1 2 3 4", " 1 2 3 4"),
    ("8", 1, None, " 1 2", " 1 3 4"),
    ("8", 3, Some(9), " 1 2 3 4", " 3"),
];

fn is_window(alloc: Global, base: &Base, window: Window) -> Result<(), Fail> {
    let (groups, page, most, from, to) = window;
    let groups = Groups::read(groups)?;
    let page = PageNo::new(page).ok_or("page")?;
    let led = part_of(alloc, base, &groups, &View::From(page, most))?;
    has_pages(alloc, base, led, from)?;
    let leading = part_of(alloc, base, &groups, &View::To(page, most))?;
    has_pages(alloc, base, leading, to)
}

#[test]
fn a_window_has_the_frames_within_so_many_keys(rt: HostRuntime) -> Result<(), Fail> {
    let base: Base = base_read(rt.alloc(), RING.as_bytes())?;
    for window in WINDOWS {
        is_window(rt.alloc(), &base, window)?;
    }
    Ok(())
}

#[test]
fn a_page_without_a_frame_a_has_no_map(rt: HostRuntime) -> Result<(), Fail> {
    let base: Base = base_read(rt.alloc(), RING.as_bytes())?;
    let page = PageNo::new(8).ok_or("page")?;
    let view = View::From(page, None);
    same(
        map_view(rt.alloc(), &base, &Groups::none(), &view)?.is_none(),
        true,
    )
}

const NEAR_4: &str = r#"digraph {
  rankdir=LR
  newrank=true
  node [shape=box]
  subgraph cluster_3 {
    label=3
    "3a" [label="3a\nPRICE 0" color=red style=dashed]
  }
  subgraph cluster_4 {
    label=4
    "4a" [label="4a\nPRICE 0" style=dashed]
  }
  "3a" -> "4a" [label="1"]
}
"#;

#[test]
fn a_view_is_drawn(rt: HostRuntime) -> Result<(), Fail> {
    let base: Base = base_read(rt.alloc(), RING.as_bytes())?;
    let page = PageNo::new(4).ok_or("page")?;
    let view = View::To(page, Some(1));
    match map_view(rt.alloc(), &base, &Groups::none(), &view)? {
        Some(map) => same(str::from_utf8(map.as_slice()), Ok(NEAR_4)),
        None => Err(Fail::new("no map")),
    }
}
