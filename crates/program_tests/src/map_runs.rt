//! The maps.

use crate::expected::{ALL, sink, source, taken};
use audit_report::RunFault;
use frame_records::Groups;
use page_ids::PageNo;
use pageaudit::{MapStatus, View, run_map, status_of_map};
use std::alloc::Global;
use std::test::Fail;
use test_support::same_in;

const TEXT: &str = "entry = 1\n[[frame]]\nid = \"1a\"\nrows = []\nroutes = { 3 = 4 }\n";

const MAP: &str = r#"digraph {
  rankdir=LR
  newrank=true
  node [shape=box]
  subgraph cluster_1 {
    label=1
    "1a" [label="1a\nPRICE 0" peripheries=2]
  }
  "4a" [color=red]
  "1a" -> "4a" [label="3"]
}
"#;

// What a map answers, its status, how often the base is read and the output flushed, and how many bytes of the text are taken.
type Mapped = (Result<MapStatus, RunFault>, u8, u32, u32, usize);

fn mapped(alloc: Global, text: &str, kept: usize, room: usize, view: &View) -> Mapped {
    let mut base = source(text, ALL, kept);
    let mut out = sink(alloc, MAP, room);
    let answer = run_map(alloc, &mut base, &Groups::none(), view, &mut out);
    let status = status_of_map(&answer);
    (answer, status, base.calls, out.flushes, taken(&out, MAP))
}

#[test]
fn a_map_is_written_if_there_is_such_a_page(rt: HostRuntime) -> Result<(), Fail> {
    let got = mapped(rt.alloc(), TEXT, ALL, ALL, &View::Whole);
    same_in("whole", got, (Ok(MapStatus::Drawn), 0, 2, 1, MAP.len()))?;
    let page = PageNo::new(4).ok_or("page")?;
    let got = mapped(rt.alloc(), TEXT, ALL, ALL, &View::To(page, Some(1)));
    same_in("no page", got, (Ok(MapStatus::NoPage), 2, 2, 0, 0))
}

// Nothing is asked for after a bad base, a read that fails, a write that fails and a flush that fails: the status, how often the
// base is read and the output flushed, and how many bytes are taken.
#[test]
fn a_map_that_fails_asks_for_no_more(rt: HostRuntime) -> Result<(), Fail> {
    let rows: [(&str, usize, usize, (u8, u32, u32, usize)); 6] = [
        ("", ALL, ALL, (3, 1, 0, 0)),
        (TEXT, 0, ALL, (3, 1, 0, 0)),
        (TEXT, 5, ALL, (3, 2, 0, 0)),
        (TEXT, ALL, 0, (3, 2, 0, 0)),
        (TEXT, ALL, 7, (3, 2, 0, 7)),
        (TEXT, ALL, MAP.len(), (3, 2, 1, MAP.len())),
    ];
    for (text, kept, room, wanted) in rows {
        let (answer, status, reads, flushes, taken) = mapped(
            rt.alloc(),
            text,
            kept,
            room,
            &View::Whole,
        );
        same_in((kept, room), (status, reads, flushes, taken), wanted)?;
        let is_written = matches!(answer, Err(RunFault::Write(wrote)) if wrote == room as u64);
        same_in((kept, room), is_written, room != ALL)?;
    }
    Ok(())
}
