//! The screens.

use crate::expected::{ALL, sink, source, taken};
use audit_report::RunFault;
use frame_records::Groups;
use page_ids::{FrameId, PageNo};
use pageaudit::{Form, ShowStatus, Target, read_keys, run_show, status_of_show};
use std::alloc::Global;
use std::test::Fail;
use test_support::{same, same_in};

const TEXT: &str =
    "entry = 1\noutside = [7]\n[[frame]]\nid = \"1a\"\nprice = 12\nrows = [\"HERE\"]\nroutes = { 3 = 7 }\n";

const SCREEN: &str =
    "                                 1a  12p\nHERE\n\n\n\n\n\n\n\n\n\n\n\n\n\n\n\n\n\n\n\n\n\n\n";

// What a screen answers, its status, how often the base is read and the output flushed, and how many bytes of the text are taken.
type Shown = (Result<ShowStatus, RunFault>, u8, u32, u32, usize);

fn shown(alloc: Global, text: &str, kept: usize, room: usize, target: &Target) -> Shown {
    let mut base = source(text, ALL, kept);
    let mut out = sink(alloc, SCREEN, room);
    let answer = run_show(
        alloc,
        &mut base,
        &Groups::none(),
        target,
        Form::Text,
        &mut out,
    );
    let status = status_of_show(&answer);
    (answer, status, base.calls, out.flushes, taken(&out, SCREEN))
}

#[test]
fn a_screen_is_written_if_there_is_one(rt: HostRuntime) -> Result<(), Fail> {
    let alloc = rt.alloc();
    let id = FrameId::read("1a")?;
    let whole = (Ok(ShowStatus::Shown), 0, 2, 1, SCREEN.len());
    same_in("entry", shown(alloc, TEXT, ALL, ALL, &Target::Entry), whole)?;
    same_in(
        "frame",
        shown(alloc, TEXT, ALL, ALL, &Target::Frame(id)),
        whole,
    )?;
    let keys = Target::Keys(read_keys(alloc, "*00#")?);
    same_in("keys", shown(alloc, TEXT, ALL, ALL, &keys), whole)?;
    let left = Target::Keys(read_keys(alloc, "3")?);
    let page = PageNo::new(7).ok_or("page")?;
    let gone = (Ok(ShowStatus::Gone(page)), 1, 2, 0, 0);
    same_in("left", shown(alloc, TEXT, ALL, ALL, &left), gone)
}

#[test]
fn a_frame_that_is_not_there_is_not_shown(rt: HostRuntime) -> Result<(), Fail> {
    let alloc = rt.alloc();
    let missing = FrameId::read("12a")?;
    let near = FrameId::read("1a")?;
    let none = (Ok(ShowStatus::NoFrame(Some(near))), 2, 2, 0, 0);
    same(shown(alloc, TEXT, ALL, ALL, &Target::Frame(missing)), none)?;
    let empty = "entry = 1\nframe = []\n";
    let no_entry = (Ok(ShowStatus::EntryMissing(near)), 1, 2, 0, 0);
    same(shown(alloc, empty, ALL, ALL, &Target::Entry), no_entry)?;
    let keys = Target::Keys(read_keys(alloc, "")?);
    same(shown(alloc, empty, ALL, ALL, &keys), no_entry)
}

// Nothing is asked for after a bad base, a read that fails, a write that fails and a flush that fails: the status, how often the
// base is read and the output flushed, and how many bytes are taken.
#[test]
fn a_screen_that_fails_asks_for_no_more(rt: HostRuntime) -> Result<(), Fail> {
    let rows: [(&str, usize, usize, (u8, u32, u32, usize)); 6] = [
        ("", ALL, ALL, (3, 1, 0, 0)),
        (TEXT, 0, ALL, (3, 1, 0, 0)),
        (TEXT, 5, ALL, (3, 2, 0, 0)),
        (TEXT, ALL, 0, (3, 2, 0, 0)),
        (TEXT, ALL, 7, (3, 2, 0, 7)),
        (TEXT, ALL, SCREEN.len(), (3, 2, 1, SCREEN.len())),
    ];
    for (text, kept, room, wanted) in rows {
        let (answer, status, reads, flushes, taken) = shown(
            rt.alloc(),
            text,
            kept,
            room,
            &Target::Entry,
        );
        same_in((kept, room), (status, reads, flushes, taken), wanted)?;
        let is_written = matches!(answer, Err(RunFault::Write(wrote)) if wrote == room as u64);
        same_in((kept, room), is_written, room != ALL)?;
    }
    Ok(())
}
