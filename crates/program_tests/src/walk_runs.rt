//! The walks.

use crate::expected::{ALL, expect, sink, source, taken};
use frame_records::Groups;
use pageaudit::{Status, run_walk, status_of};
use std::test::Fail;
use test_support::{DEMO, FakeSink, FakeSource, same_in};

#[test]
fn a_walk_shows_each_reply(rt: HostRuntime) -> Result<(), Fail> {
    let groups = Groups::none();
    let mut base = FakeSource::of(DEMO.as_bytes(), 1);
    let mut out = FakeSink::of(rt.alloc(), 1_000);
    let answer = run_walk(rt.alloc(), &mut base, "01", &groups, &mut out);
    let text = "SHOWN 123a 0\nGONE 0\nNOTOFFERED\n";
    expect(answer, &out, Ok(Status::Clear), text)
}

// Bad keys come before the base. Nothing is asked for after a bad base, a read that fails, a write that fails and a flush that
// fails: the status, how often the base is read and the output flushed, and how many bytes are taken.
#[test]
fn a_walk_that_fails_asks_for_no_more(rt: HostRuntime) -> Result<(), Fail> {
    let groups = Groups::none();
    let line = "SHOWN 123a 0\n";
    let rows: [(&str, &str, usize, usize, (u8, u32, u32, usize)); 6] = [
        ("1*5#", DEMO, ALL, ALL, (2, 0, 0, 0)),
        ("", "", ALL, ALL, (3, 1, 0, 0)),
        ("", DEMO, 0, ALL, (3, 1, 0, 0)),
        ("", DEMO, 100, ALL, (3, 2, 0, 0)),
        ("", DEMO, ALL, 3, (3, 2, 0, 3)),
        ("", DEMO, ALL, 13, (3, 2, 1, 13)),
    ];
    for (keys, base, kept, room, wanted) in rows {
        let mut base = source(base, ALL, kept);
        let mut out = sink(rt.alloc(), line, room);
        let answer = run_walk(rt.alloc(), &mut base, keys, &groups, &mut out);
        let got = (
            status_of(&answer),
            base.calls,
            out.flushes,
            taken(&out, line),
        );
        same_in((kept, room), got, wanted)?;
    }
    Ok(())
}
