//! Texts that are read; those that are refused are in `tests/cases`.

use base_text::base_read;
use frame_records::{Base, Frame, Lead};
use page_ids::{FrameId, PageNo};
use std::alloc::{AllocError, Global};
use std::test::Fail;
use test_support::same;

// The base DEMO, in its four parts.
const TOP: &str = "entry = 123\noutside = [0]\n";

const FIRST: &str =
    "[[frame]]\nid = \"123a\"\nrows = [\"WELCOME\"]\nroutes = { 0 = 0, 1 = 1231 }\n";

const SECOND: &str =
    "[[frame]]\nid = \"1231a\"\nprice = 5\nnext = true\nrows = [\"PART ONE\"]\nroutes = { 0 = 123 }\n";

const THIRD: &str =
    "[[frame]]\nid = \"1231b\"\nlead = \"keep\"\nbody = \"\\u001E\\u000APART TWO\"\nroutes = { 0 = 123 }\n";

// The base that the parts, one after the other, are read to.
fn base_of(alloc: Global, parts: &[&str]) -> Result<Base, Fail> {
    let text = parts.concat(alloc)?;
    Ok(
        base_read(alloc, text.as_str().as_bytes())
            .ok()
            .ok_or("a base")?,
    )
}

// The bodies of a base's frames, one after the other.
fn bodies(alloc: Global, base: &Base) -> Result<Vec<u8>, AllocError> {
    let mut bytes = Vec::new(alloc);
    for frame in base.frames() {
        bytes.extend_from_slice(frame.body.as_slice())?;
    }
    Ok(bytes)
}

// A frame's id, price, group, whether it offers the next, its lead, and how many routes it has.
type Fields = (FrameId, u16, Option<u16>, bool, Lead, usize);

fn fields(frame: &Frame) -> Fields {
    (
        frame.id,
        frame.price.get(),
        frame.group.map(|group| group.get()),
        frame.next,
        frame.lead,
        frame.routes.iter().filter(|route| route.is_some()).count(),
    )
}

// The page of a route of a frame.
fn route(base: &Base, id: FrameId, digit: usize) -> Option<u32> {
    base.find(id)?.routes.get(digit)?.map(|page| page.get())
}

#[test]
fn demo_is_read_as_it_is(rt: HostRuntime) -> Result<(), Fail> {
    let ids = [
        FrameId::read("123a")?,
        FrameId::read("1231a")?,
        FrameId::read("1231b")?,
    ];
    let [first, second, third] = ids;
    let [outside, entry] = [PageNo::read("0")?, PageNo::read("123")?];
    let base = base_of(rt.alloc(), &[TOP, FIRST, SECOND, THIRD])?;
    let bytes = bodies(rt.alloc(), &base)?;
    let top = (
        base.entry(),
        base.is_outside(outside),
        base.is_outside(entry),
        base.frames().len(),
    );
    let frames = [base.find(first), base.find(second), base.find(third)];
    let frames = frames.map(|frame| frame.map(fields));
    let routes = [
        route(&base, first, 0),
        route(&base, first, 1),
        route(&base, first, 2),
    ];
    same(
        (top, frames, routes, bytes.as_slice()),
        (
            (entry, true, false, 3),
            [
                Some((first, 0, None, false, Lead::Clear, 2)),
                Some((second, 5, None, true, Lead::Clear, 1)),
                Some((third, 0, None, false, Lead::Keep, 1)),
            ],
            [Some(0), Some(1231), None],
            b"\x1E\x0AWELCOME\x0D\x0A\x1E\x0APART ONE\x0D\x0A\x1E\x0APART TWO".as_slice(),
        ),
    )
}

#[test]
fn a_group_and_every_route_are_read(rt: HostRuntime) -> Result<(), Fail> {
    let seven = FrameId::read("7c")?;
    let text =
        "entry = -0\nframe = [{ id = \"7c\", group = 65535, body = \"\", routes = { 9 = 999999999, 5 = 0x5, 4 = 1_000 } }]";
    let base = base_of(rt.alloc(), &[text])?;
    let routes = [
        route(&base, seven, 9),
        route(&base, seven, 5),
        route(&base, seven, 4),
    ];
    same(
        (base.entry().get(), base.find(seven).map(fields), routes),
        (
            0,
            Some((seven, 0, Some(65535), false, Lead::Clear, 3)),
            [Some(999_999_999), Some(5), Some(1000)],
        ),
    )
}

// A row of 40 codes, the longest body, and what the crate `toml` takes.
#[test]
fn lengths_and_codes_count_code_points(rt: HostRuntime) -> Result<(), Fail> {
    let row = "\u{80}".repeat(rt.alloc(), 40)?;
    let long = "\u{FF}".repeat(rt.alloc(), 4096)?;
    let parts = [
        "entry = 1\nframe = [{ id = \"1a\", rows = [\"",
        row.as_str(),
        "\"] }, { id = \"1b\", body = \"",
        long.as_str(),
        "\" }, { id = \"1c\", body = \"\\u0000\\u0080A\" }]",
    ];
    let base = base_of(rt.alloc(), &parts)?;
    let bytes = bodies(rt.alloc(), &base)?;
    let mut wanted = [0xFF; 4141];
    wanted[..2].copy_from_slice(&[0x1E, 0x0A]);
    wanted[2..42].copy_from_slice(&[0x80; 40]);
    wanted[4138..].copy_from_slice(&[0x00, 0x80, 0x41]);
    same(bytes.as_slice(), wanted.as_slice())
}

// A byte order mark in front, no frame at all, and what is TOML since version 1.1.
#[test]
fn what_the_crate_of_toml_takes_is_read(rt: HostRuntime) -> Result<(), Fail> {
    let five = PageNo::read("5")?;
    let later =
        "entry = 5\noutside = [5, 5,]\nframe = [{ id = \"1a\",\n  rows = [],\n}, { id = \"1b\", body = \"\\e\\x41\" }]";
    let rows: [(&[&str], (u32, usize, bool), &[u8]); 3] = [
        (
            &["\u{FEFF}", TOP, FIRST],
            (123, 1, false),
            b"\x1E\x0AWELCOME\x0D\x0A",
        ),
        (&["entry = 0\nframe = []"], (0, 0, false), b""),
        (&[later], (5, 2, true), &[0x1E, 0x0A, 0x1B, 0x41]),
    ];
    for (parts, top, bytes) in rows {
        let base = base_of(rt.alloc(), parts)?;
        let read = bodies(rt.alloc(), &base)?;
        let got = (
            base.entry().get(),
            base.frames().len(),
            base.is_outside(five),
        );
        same((got, read.as_slice()), (top, bytes))?;
    }
    Ok(())
}
