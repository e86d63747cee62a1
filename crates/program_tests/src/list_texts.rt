//! The list of a base.

use audit_report::{ListForm, list};
use base_text::base_read;
use devices::WriteFault;
use frame_records::{Base, Groups};
use std::alloc::{AllocError, Global};
use std::test::Fail;
use test_support::{DEMO, FakeSink, same, same_in};

// What the list of a base is in a form, for a caller of these groups.
fn lists_as(
    alloc: Global,
    form: ListForm,
    base: &str,
    groups: &str,
    text: &str,
    entry_is_found: bool,
) -> Result<(), Fail> {
    let groups = if groups.is_empty() {
        Ok(Groups::none())
    } else {
        Groups::read(groups)
    };
    match (base_read(alloc, base.as_bytes()), groups) {
        (Ok(base), Ok(groups)) => {
            let listing = list(alloc, form, &base, &groups)?;
            same_in(text, listing.entry_is_found(), entry_is_found)?;
            let mut out = FakeSink::of(alloc, 1_000);
            same_in(text, listing.write(&mut out), Ok(()))?;
            same_in(text, str::from_utf8(out.taken.as_slice()), Ok(text))
        }
        _ => Err(Fail::new("no base, or no groups")),
    }
}

fn lists(
    alloc: Global,
    base: &str,
    groups: &str,
    text: &str,
    entry_is_found: bool,
) -> Result<(), Fail> {
    lists_as(alloc, ListForm::Line, base, groups, text, entry_is_found)
}

#[test]
fn each_frame_of_demo_is_reached(rt: HostRuntime) -> Result<(), Fail> {
    let text = "FRAME 123a RANK 0 PRICE 0 GROUP - SCRIPT -\n\
        FRAME 1231a RANK 1 PRICE 5 GROUP - SCRIPT 1\n\
        FRAME 1231b RANK 1 PRICE 0 GROUP - SCRIPT 1#\n";
    lists(rt.alloc(), DEMO, "", text, true)
}

// Keys lead from 9a to 4a, 3a and 5a, and none leads back from 4a. 2a is open, but only 12a leads there. 10a, 10b and 12a belong
// to groups.
const SHOP: &str =
    "entry = 9\noutside = [8]\n[[frame]]\nid = \"12a\"\ngroup = 7\nprice = 30\nrows = []\nroutes.3 = 2\n\
    [[frame]]\nid = \"9a\"\nrows = []\nroutes = { 1 = 4, 2 = 3, 6 = 10, 7 = 8, 8 = 12 }\n\
    [[frame]]\nid = \"3a\"\nprice = 9999\nrows = []\nroutes = { 0 = 5, 1 = 4 }\n\
    [[frame]]\nid = \"5a\"\nrows = []\nroutes.9 = 9\n\
    [[frame]]\nid = \"4a\"\nrows = []\n[[frame]]\nid = \"2a\"\nrows = []\nroutes.0 = 9\n\
    [[frame]]\nid = \"10b\"\ngroup = 65535\nrows = []\nroutes.0 = 9\n\
    [[frame]]\nid = \"10a\"\ngroup = 9\nnext = true\nrows = []\n";

#[test]
fn closed_frames_are_unreached(rt: HostRuntime) -> Result<(), Fail> {
    let text = "FRAME 9a RANK 0 PRICE 0 GROUP - SCRIPT -\n\
        FRAME 4a RANK - PRICE 0 GROUP - SCRIPT 1\n\
        FRAME 3a RANK 2 PRICE 9999 GROUP - SCRIPT 2\n\
        FRAME 5a RANK 1 PRICE 0 GROUP - SCRIPT 20\n\
        UNREACHED 2a PRICE 0 GROUP -\n\
        UNREACHED 10a PRICE 0 GROUP 9\n\
        UNREACHED 10b PRICE 0 GROUP 65535\n\
        UNREACHED 12a PRICE 30 GROUP 7\n";
    lists(rt.alloc(), SHOP, "", text, true)
}

#[test]
fn an_object_has_what_a_line_has(rt: HostRuntime) -> Result<(), Fail> {
    let text = r#"{"frame":"9a","reached":true,"rank":0,"price":0,"group":null,"script":""}
{"frame":"4a","reached":true,"rank":null,"price":0,"group":null,"script":"1"}
{"frame":"3a","reached":true,"rank":2,"price":9999,"group":null,"script":"2"}
{"frame":"10a","reached":true,"rank":null,"price":0,"group":9,"script":"6"}
{"frame":"5a","reached":true,"rank":1,"price":0,"group":null,"script":"20"}
{"frame":"2a","reached":false,"rank":null,"price":0,"group":null,"script":null}
{"frame":"10b","reached":false,"rank":null,"price":0,"group":65535,"script":null}
{"frame":"12a","reached":false,"rank":null,"price":30,"group":7,"script":null}
"#;
    lists_as(rt.alloc(), ListForm::Json, SHOP, "9", text, true)
}

#[test]
fn frames_of_the_callers_groups_are_reached(rt: HostRuntime) -> Result<(), Fail> {
    let text = "FRAME 9a RANK 0 PRICE 0 GROUP - SCRIPT -\n\
        FRAME 4a RANK - PRICE 0 GROUP - SCRIPT 1\n\
        FRAME 3a RANK 2 PRICE 9999 GROUP - SCRIPT 2\n\
        FRAME 10a RANK 2 PRICE 0 GROUP 9 SCRIPT 6\n\
        FRAME 12a RANK 2 PRICE 30 GROUP 7 SCRIPT 8\n\
        FRAME 5a RANK 1 PRICE 0 GROUP - SCRIPT 20\n\
        FRAME 10b RANK 1 PRICE 0 GROUP 65535 SCRIPT 6#\n\
        FRAME 2a RANK 1 PRICE 0 GROUP - SCRIPT 83\n";
    lists(rt.alloc(), SHOP, "7,9,65535", text, true)
}

#[test]
fn an_entry_frame_that_is_not_found_is_the_only_line(rt: HostRuntime) -> Result<(), Fail> {
    let missing = "entry = 400\n[[frame]]\nid = \"400b\"\nrows = []\n";
    lists(rt.alloc(), missing, "", "ENTRYMISSING 400a\n", false)?;
    let closed =
        "entry = 400\n[[frame]]\nid = \"400a\"\ngroup = 7\nrows = []\n[[frame]]\nid = \"401a\"\nrows = []\n";
    lists(rt.alloc(), closed, "8", "ENTRYCLOSED 400a\n", false)?;
    let text = "FRAME 400a RANK 0 PRICE 0 GROUP 7 SCRIPT -\nUNREACHED 401a PRICE 0 GROUP -\n";
    lists(rt.alloc(), closed, "7", text, true)
}

#[test]
fn the_object_of_an_entry_frame_that_is_not_found_has_its_fault(
    rt: HostRuntime,
) -> Result<(), Fail> {
    let alloc = rt.alloc();
    let text = "{\"frame\":\"400a\",\"fault\":\"ENTRYMISSING\"}\n";
    lists_as(alloc, ListForm::Json, "entry = 400\n", "", text, false)?;
    let closed = "entry = 400\n[[frame]]\nid = \"400a\"\ngroup = 7\nrows = []\n";
    let text = "{\"frame\":\"400a\",\"fault\":\"ENTRYCLOSED\"}\n";
    lists_as(alloc, ListForm::Json, closed, "8", text, false)
}

#[test]
fn a_base_of_no_frames_lacks_its_entry_frame(rt: HostRuntime) -> Result<(), Fail> {
    lists(rt.alloc(), "entry = 1\n", "", "ENTRYMISSING 1a\n", false)
}

// A chain of frames, in which the key 1 leads to the next one, and its list: no key leads back.
fn chain(alloc: Global, count: u32) -> Result<(String, String), AllocError> {
    let mut base = String::from_str(alloc, "entry = 0\n")?;
    let mut list = String::new(alloc);
    let mut keys = String::new(alloc);
    for page in 0..count {
        let next = page + 1;
        let text = format!(in alloc;
            "[[frame]]\nid = \"{page}a\"\nrows = []\nroutes.1 = {next}\n"
        )?;
        base.push_str(text.as_str())?;
        let rank = if page == 0 { "0" } else { "-" };
        let script = if page == 0 { "-" } else { keys.as_str() };
        let line = format!(in alloc;
            "FRAME {page}a RANK {rank} PRICE 0 GROUP - SCRIPT {script}\n"
        )?;
        list.push_str(line.as_str())?;
        keys.push('1')?;
    }
    Ok((base, list))
}

// The text of 400 frames has some 95,000 bytes: it is written in two pieces and flushed once, and a write that fails reports
// all the bytes that were taken.
#[test]
fn a_long_list_is_written_in_pieces(rt: HostRuntime) -> Result<(), Fail> {
    let alloc = rt.alloc();
    let (text, wanted) = chain(alloc, 400)?;
    let base: Base = base_read(alloc, text.as_str().as_bytes())?;
    let mut out = FakeSink::of(alloc, 1_000_000);
    same(
        list(alloc, ListForm::Line, &base, &Groups::none())?.write(&mut out),
        Ok(()),
    )?;
    same(str::from_utf8(out.taken.as_slice()), Ok(wanted.as_str()))?;
    same((out.writes, out.flushes), (2, 1))?;
    for room in [0usize, 65_535, 65_536, 80_000] {
        let mut out = FakeSink::full(alloc, 1_000, room);
        let fault = WriteFault { wrote: room as u64 };
        same_in(
            room,
            list(alloc, ListForm::Line, &base, &Groups::none())?.write(&mut out),
            Err(fault),
        )?;
        same_in(
            room,
            Some(out.taken.as_slice()),
            wanted.as_str().as_bytes().get(..room),
        )?;
        same_in(room, out.flushes, 0)?;
    }
    Ok(())
}
