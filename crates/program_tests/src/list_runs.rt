//! The lists.

use crate::expected::{ALL, expect, sink, source, taken};
use frame_records::Groups;
use pageaudit::{ListForm, Status, run_list, status_of};
use std::test::Fail;
use test_support::{DEMO, FakeSink, FakeSource, same_in};

// The base whose last frame is closed to callers outside group 7.
const CLOSED: &str = "entry = 4\n[[frame]]\nid = \"4a\"\nnext = true\nrows = []\n\
    [[frame]]\nid = \"4b\"\ngroup = 7\nrows = []\n";

#[test]
fn a_list_has_a_line_for_each_frame(rt: HostRuntime) -> Result<(), Fail> {
    let mut base = FakeSource::of(CLOSED.as_bytes(), 1);
    let mut out = FakeSink::of(rt.alloc(), 1_000);
    let answer = run_list(
        rt.alloc(),
        &mut base,
        ListForm::Line,
        &Groups::none(),
        &mut out,
    );
    let text = "FRAME 4a RANK 0 PRICE 0 GROUP - SCRIPT -\nUNREACHED 4b PRICE 0 GROUP 7\n";
    expect(answer, &out, Ok(Status::Clear), text)
}

#[test]
fn a_list_without_an_entry_frame_is_its_line(rt: HostRuntime) -> Result<(), Fail> {
    let rows = [
        (ListForm::Line, "ENTRYMISSING 400a\n"),
        (
            ListForm::Json,
            "{\"frame\":\"400a\",\"fault\":\"ENTRYMISSING\"}\n",
        ),
    ];
    for (form, text) in rows {
        let mut base = FakeSource::of(b"entry = 400\n", 1);
        let mut out = FakeSink::of(rt.alloc(), 1_000);
        let answer = run_list(rt.alloc(), &mut base, form, &Groups::none(), &mut out);
        expect(answer, &out, Ok(Status::Faulty), text)?;
    }
    Ok(())
}

// Nothing is asked for after a bad base, a read that fails, a write that fails and a flush that fails: the status, how often the
// base is read and the output flushed, and how many bytes are taken.
#[test]
fn a_list_that_fails_asks_for_no_more(rt: HostRuntime) -> Result<(), Fail> {
    let text =
        "FRAME 123a RANK 0 PRICE 0 GROUP - SCRIPT -\nFRAME 1231a RANK 1 PRICE 5 GROUP - SCRIPT 1\n\
        FRAME 1231b RANK 1 PRICE 0 GROUP - SCRIPT 1#\n";
    let rows: [(&str, usize, usize, (u8, u32, u32, usize)); 5] = [
        ("", ALL, ALL, (3, 1, 0, 0)),
        (DEMO, 0, ALL, (3, 1, 0, 0)),
        (DEMO, 100, ALL, (3, 2, 0, 0)),
        (DEMO, ALL, 3, (3, 2, 0, 3)),
        (DEMO, ALL, text.len(), (3, 2, 1, text.len())),
    ];
    for (base, kept, room, wanted) in rows {
        let mut base = source(base, ALL, kept);
        let mut out = sink(rt.alloc(), text, room);
        let answer = run_list(
            rt.alloc(),
            &mut base,
            ListForm::Line,
            &Groups::none(),
            &mut out,
        );
        let got = (
            status_of(&answer),
            base.calls,
            out.flushes,
            taken(&out, text),
        );
        same_in((kept, room), got, wanted)?;
    }
    Ok(())
}
