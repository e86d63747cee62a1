//! The whole text of the maps of some bases.

use base_map::map_text;
use base_text::base_read;
use finder::Part;
use frame_records::{Base, Groups};
use std::alloc::Global;
use std::test::Fail;
use test_support::{DEMO, same, same_in};

const DEMO_MAP: &str = r##"digraph {
  rankdir=LR
  newrank=true
  node [shape=box]
  subgraph cluster_123 {
    label=123
    "123a" [label="123a\nWELCOME\nPRICE 0" peripheries=2]
  }
  subgraph cluster_1231 {
    label=1231
    "1231a" [label="1231a\nPART ONE\nPRICE 5"]
    "1231b" [label="1231b\nPART TWO\nPRICE 0"]
  }
  "0" [shape=ellipse]
  "123a" -> "0" [label="0"]
  "123a" -> "1231a" [label="1"]
  "1231a" -> "123a" [label="0"]
  "1231a" -> "1231b" [label="#"]
  "1231b" -> "123a" [label="0"]
}
"##;

// The whole map of a text's base.
fn maps_to(alloc: Global, text: &str, groups: &Groups, wanted: &str) -> Result<(), Fail> {
    let base: Base = base_read(alloc, text.as_bytes())?;
    let map = map_text(alloc, &base, groups, &Part::whole())?;
    same_in(text, str::from_utf8(map.as_slice()), Ok(wanted))
}

#[test]
fn the_demo_is_drawn(rt: HostRuntime) -> Result<(), Fail> {
    maps_to(rt.alloc(), DEMO, &Groups::none(), DEMO_MAP)
}

// Frame 1231b is of group 7, and the base lacks page 555.
const CLOSED: &str = r##"entry = 123
outside = [0]
[[frame]]
id = "123a"
rows = ["WELCOME"]
routes = { 0 = 0, 1 = 1231 }
[[frame]]
id = "1231a"
price = 5
next = true
rows = ["PART ONE"]
routes = { 0 = 123, 9 = 555 }
[[frame]]
id = "1231b"
group = 7
rows = ["PART TWO"]
routes = { 0 = 123 }
"##;

const CLOSED_MAP: &str = r##"digraph {
  rankdir=LR
  newrank=true
  node [shape=box]
  subgraph cluster_123 {
    label=123
    "123a" [label="123a\nWELCOME\nPRICE 0" peripheries=2]
  }
  subgraph cluster_1231 {
    label=1231
    "1231a" [label="1231a\nPART ONE\nPRICE 5"]
    "1231b" [label="1231b\nPART TWO\nPRICE 0" color=red style=dashed]
  }
  "0" [shape=ellipse]
  "555a" [color=red]
  "123a" -> "0" [label="0"]
  "123a" -> "1231a" [label="1"]
  "1231a" -> "123a" [label="0"]
  "1231a" -> "555a" [label="9"]
  "1231a" -> "1231b" [label="#"]
  "1231b" -> "123a" [label="0"]
}
"##;

#[test]
fn what_is_closed_or_missing_is_red(rt: HostRuntime) -> Result<(), Fail> {
    maps_to(rt.alloc(), CLOSED, &Groups::none(), CLOSED_MAP)
}

// The entry page is missing. Two pages lead to outside page 9 and to page 4, which is missing too; three keys of frame 1a lead
// to page 2.
const SHARED: &str = r##"entry = 3
outside = [9]
[[frame]]
id = "1a"
rows = []
routes = { 1 = 2, 3 = 9, 4 = 2, 5 = 4, 9 = 2 }
[[frame]]
id = "2a"
rows = []
routes = { 0 = 4, 2 = 9 }
"##;

const SHARED_MAP: &str = r##"digraph {
  rankdir=LR
  newrank=true
  node [shape=box]
  subgraph cluster_1 {
    label=1
    "1a" [label="1a\nPRICE 0" style=dashed]
  }
  subgraph cluster_2 {
    label=2
    "2a" [label="2a\nPRICE 0" style=dashed]
  }
  "3a" [peripheries=2 color=red]
  "9" [shape=ellipse]
  "4a" [color=red]
  "1a" -> "2a" [label="1 4 9"]
  "1a" -> "9" [label="3"]
  "1a" -> "4a" [label="5"]
  "2a" -> "4a" [label="0"]
  "2a" -> "9" [label="2"]
}
"##;

#[test]
fn keys_share_an_edge_and_what_is_lacked_is_drawn_once(rt: HostRuntime) -> Result<(), Fail> {
    maps_to(rt.alloc(), SHARED, &Groups::none(), SHARED_MAP)
}

#[test]
fn the_whole_has_every_frame(rt: HostRuntime) -> Result<(), Fail> {
    let base: Base = base_read(rt.alloc(), DEMO.as_bytes())?;
    for frame in base.frames() {
        same(Part::whole().shows(frame.id), true)?;
    }
    Ok(())
}
