//! The screens of a base.

ghost use Rattle.std.specs.Prelude.{false};

use crate::expected::{ALL, sink, source, taken};
use audit_report::RunFault;
use frame_records::{Base, Groups};
use page_ids::FrameId;
use pageaudit::{Gallery, SavedForm, Status, read_exported, run_export, status_of};
use std::alloc::Global;
use std::test::Fail;
use test_support::{same, same_in};

const TEXT: &str =
    "entry = 1\n[[frame]]\nid = \"1a\"\nprice = 12\nnext = true\nrows = [\"HERE\"]\n[[frame]]\nid = \"1b\"\nlead = \"keep\"\nbody = \"\\u001E\\u000A\\u000AMORE\"\n[[frame]]\nid = \"7a\"\nrows = [\"ALONE\"]\n";

// A frame, whether a key reaches it, and the text of its row 0, of row 1 and of row 2.
const SCREENS: [(&str, bool, &str, &str, &str); 3] = [
    (
        "1a",
        true,
        "                                 1a  12p",
        "HERE",
        "",
    ),
    (
        "1b",
        true,
        "                                 1b   0p",
        "HERE",
        "MORE",
    ),
    (
        "7a",
        false,
        "                                 7a   0p",
        "ALONE",
        "",
    ),
];

// Writes a frame's screen to a device with this room: whether it is Clear, the status, the flushes, and how much of the text was taken.
fn exported(
    alloc: Global,
    gallery: &Gallery<'_>,
    id: FrameId,
    text: &str,
    room: usize,
) -> (bool, u8, u32, usize) {
    let mut out = sink(alloc, text, room);
    let run = run_export(alloc, gallery, SavedForm::Cells, id, &mut out);
    let is_clear = run == Ok(Status::Clear);
    (is_clear, status_of(&run), out.flushes, taken(&out, text))
}

fn screens_are_right(alloc: Global, gallery: &Gallery<'_>) -> Result<(), Fail> {
    for (name, is_reached, top, first, second) in SCREENS {
        let id = FrameId::read(name)?;
        same_in(name, gallery.is_reached(id), is_reached)?;
        let text = format!(in alloc; "{top}{first:<40}{second:<880}")?;
        for (room, wanted) in [
            (ALL, (true, 0, 1, 960)),
            (0, (false, 3, 0, 0)),
            (9, (false, 3, 0, 9)),
            (960, (false, 3, 1, 960)),
        ] {
            let got = exported(alloc, gallery, id, text.as_str(), room);
            same_in((name, room), got, wanted)?;
        }
    }
    Ok(())
}

fn whole_base(alloc: Global) -> Option<Base> {
    read_exported(alloc, &mut source(TEXT, 7, ALL)).ok()
}

#[test]
fn each_frame_has_its_screen(rt: HostRuntime) -> Result<(), Fail> {
    let alloc = rt.alloc();
    let base = whole_base(alloc).ok_or("base")?;
    let groups = Groups::none();
    let gallery = Gallery::of(alloc, &base, &groups)?;
    screens_are_right(alloc, &gallery)
}

#[test]
fn a_base_is_read_whole_or_refused(rt: HostRuntime) -> Result<(), Fail> {
    let alloc = rt.alloc();
    let broken = read_exported(alloc, &mut source(TEXT, 7, 9)).err();
    same(broken, Some(RunFault::ReadBase))?;
    let refused = read_exported(alloc, &mut source("", 7, ALL)).err();
    same(matches!(refused, Some(RunFault::Base(_))), true)
}
