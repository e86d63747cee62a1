use base_text::base_read;
use finder::{Survey, script_to};
use frame_records::{Base, Groups, Lead};
use frame_screens::{
    FrameList, NoScreen, Painter, frames_after, nearest, screen, send, way_at, way_to,
};
use page_ids::{FrameId, PageNo, keys_read};
use std::alloc::Global;
use std::test::Fail;
use terminal_codes::Terminal;
use test_support::{same, same_in};

// Route 1 leads to frames that are painted over the entry frame, 2 away, 3 to a closed frame, 4 to a missing one.
const BASE: &str = "
entry = 7
outside = [9]
[[frame]]
id = '7a'
rows = ['MAIN', 'SECOND']
routes = { 1 = 71, 2 = 9, 3 = 72, 4 = 73, 5 = 76, 6 = 77 }
[[frame]]
id = '71a'
price = 5
next = true
lead = 'keep'
body = \"\\u001E\\u000A\\u000AKEEP\"
[[frame]]
id = '71b'
price = 1234
lead = 'keep'
body = \"\\u000AON\"
[[frame]]
id = '72a'
group = 8
rows = ['CLOSED']
[[frame]]
id = '74a'
lead = 'keep'
body = \"\\u001E\\u000A\\u000A\\u000ALONE\"
[[frame]]
id = '75a'
body = ''
[[frame]]
id = '76a'
body = \"X\\u001B\"
next = true
[[frame]]
id = '76b'
lead = 'keep'
body = 'AB'
[[frame]]
id = '77a'
body = \"AB\\u000CCD\"
[[frame]]
id = '78a'
body = \"\\u001E\\u000B\\u000B\\u001BMX\\u000A\\u000DY\"
[[frame]]
id = '123456789a'
price = 99
body = \"\\u001EZ\"
";

fn base_of(alloc: Global, text: &str) -> Result<Base, Fail> {
    Ok(base_read(alloc, text.as_bytes())?)
}

// The ids of frames, each with a space before it.
fn names(alloc: Global, frames: &FrameList) -> Result<String, Fail> {
    let mut names = String::new(alloc);
    for id in frames.as_slice() {
        names.push_str(" ")?;
        names.push_str(id.text().as_str())?;
    }
    Ok(names)
}

// The row of a text, blank after it.
fn row(text: &[u8]) -> [u8; 40] {
    let mut row = [0x20; 40];
    for (cell, code) in row.iter_mut().zip(text) {
        *cell = *code;
    }
    row
}

// The codes of one row of a screen.
fn row_of(codes: &[u8; 960], number: usize) -> Result<[u8; 40], Fail> {
    let start = number.saturating_mul(40);
    Ok(row(codes.get(start..start.saturating_add(40)).ok_or("row")?))
}

// A frame, the groups of the caller, the way to it, and row 0 and two other rows of its screen.
const FRAMES: [(&str, &str, &str, &[u8], (usize, &[u8]), (usize, &[u8])); 12] = [
    (
        "7a",
        "",
        " 7a",
        b"                                 7a   0p",
        (1, b"MAIN"),
        (2, b"SECOND"),
    ),
    // painted over the entry frame
    (
        "71a",
        "",
        " 7a 71a",
        b"                                71a   5p",
        (1, b"MAIN"),
        (2, b"KEEPND"),
    ),
    (
        "71b",
        "",
        " 7a 71a 71b",
        b"                                71b1234p",
        (2, b"KEEPND"),
        (3, b"    ON"),
    ),
    // closed, and open to a caller of its group
    (
        "72a",
        "",
        " 72a",
        b"                                72a   0p",
        (1, b"CLOSED"),
        (2, b""),
    ),
    (
        "72a",
        "8",
        " 7a 72a",
        b"                                72a   0p",
        (1, b"CLOSED"),
        (2, b""),
    ),
    // no key leads there; the base lacks it
    (
        "74a",
        "",
        " 74a",
        b"                                74a   0p",
        (1, b""),
        (3, b"LONE"),
    ),
    ("73a", "", " 73a", b"", (1, b""), (2, b"")),
    // an empty body; an escape pending at the end; 0C in a body
    (
        "75a",
        "",
        " 75a",
        b"                                75a   0p",
        (1, b""),
        (23, b""),
    ),
    (
        "76b",
        "",
        " 7a 76a 76b",
        b"                                76b   0p",
        (1, b"X\x81B"),
        (2, b""),
    ),
    (
        "77a",
        "",
        " 7a 77a",
        b"                                77a   0p",
        (1, b""),
        (2, b""),
    ),
    // double height in row 22, and a text in row 23, over which the centre paints
    (
        "78a",
        "",
        " 78a",
        b"                                78a   0p",
        (22, b"\x8dX"),
        (23, b""),
    ),
    // an id of ten characters, and a text in row 0
    (
        "123456789a",
        "",
        " 123456789a",
        b"                         123456789a  99p",
        (1, b""),
        (2, b""),
    ),
];

#[test]
fn a_frame_is_shown_over_those_on_the_way_to_it(rt: HostRuntime) -> Result<(), Fail> {
    let alloc = rt.alloc();
    let base = base_of(alloc, BASE)?;
    for (id, groups, way, top, first, second) in FRAMES {
        let groups = if groups.is_empty() {
            Groups::none()
        } else {
            Groups::read(groups)?
        };
        let frames = way_to(alloc, &base, &groups, FrameId::read(id)?)?;
        same_in(id, names(alloc, &frames)?.as_str(), way)?;
        same_in(id, frames.last().text().as_str(), id)?;
        let codes = screen(&base, &frames);
        same_in(id, row_of(&codes, 0)?, row(top))?;
        same_in(id, row_of(&codes, first.0)?, row(first.1))?;
        same_in(id, row_of(&codes, second.0)?, row(second.1))?;
        same_in(id, row_of(&codes, 23)?, row(b""))?;
    }
    Ok(())
}

// No frame of the way clears.
const KEPT: &str = "
entry = 1
[[frame]]
id = '1a'
lead = 'keep'
body = \"\\u001E\\u000AFIRST\"
routes = { 2 = 2 }
[[frame]]
id = '2a'
lead = 'keep'
body = \"\\u001E\\u000A\\u000ASECOND\"
";

#[test]
fn without_a_frame_that_clears_all_of_the_way_is_sent(rt: HostRuntime) -> Result<(), Fail> {
    let alloc = rt.alloc();
    let base = base_of(alloc, KEPT)?;
    let frames = way_to(alloc, &base, &Groups::none(), FrameId::read("2a")?)?;
    let codes = screen(&base, &frames);
    same(row_of(&codes, 1)?, row(b"FIRST"))?;
    same(row_of(&codes, 2)?, row(b"SECOND"))
}

// Keys, the frames that they send, and two rows of the screen after them.
const SESSIONS: [(&str, &str, (usize, &[u8]), (usize, &[u8])); 9] = [
    ("", " 7a", (1, b"MAIN"), (2, b"SECOND")),
    ("1#", " 7a 71a 71b", (2, b"KEEPND"), (3, b"    ON")),
    ("1#*#", " 7a 71a 71b 71a", (2, b"KEEPND"), (3, b"    ON")),
    // shown again, it goes on where the last showing ended
    ("1#*00", " 7a 71a 71b 71b", (3, b"    ON"), (4, b"      ON")),
    (
        "1#*09*09",
        " 7a 71a 71b 71b 71b",
        (4, b"      ON"),
        (5, b"        ON"),
    ),
    // the entry frame clears
    ("1*#", " 7a 71a 7a", (1, b"MAIN"), (2, b"SECOND")),
    // closed, missing, not offered: nothing is sent
    ("3", " 7a", (1, b"MAIN"), (2, b"SECOND")),
    ("4", " 7a", (1, b"MAIN"), (2, b"SECOND")),
    ("90##", " 7a", (1, b"MAIN"), (2, b"SECOND")),
];

#[test]
fn keys_send_the_frames_of_their_replies(rt: HostRuntime) -> Result<(), Fail> {
    let alloc = rt.alloc();
    let base = base_of(alloc, BASE)?;
    for (keys, sent, first, second) in SESSIONS {
        let list = keys_read(alloc, keys)?;
        let frames = frames_after(alloc, &base, &Groups::none(), list.as_slice())?;
        same_in(keys, names(alloc, &frames)?.as_str(), sent)?;
        let codes = screen(&base, &frames);
        same_in(keys, row_of(&codes, first.0)?, row(first.1))?;
        same_in(keys, row_of(&codes, second.0)?, row(second.1))?;
    }
    Ok(())
}

// A base's text, keys, and why there is no screen after them.
const NONE: [(&str, &str, NoScreen); 3] = [
    ("entry = 1\nframe = []", "", NoScreen::EntryMissing),
    (
        "entry = 1\n[[frame]]\nid = '1a'\ngroup = 2\nbody = ''",
        "1",
        NoScreen::EntryClosed,
    ),
    (
        "entry = 1\n[[frame]]\nid = '2a'\nbody = ''",
        "#",
        NoScreen::EntryMissing,
    ),
];

#[test]
fn a_session_that_ends_has_no_screen(rt: HostRuntime) -> Result<(), Fail> {
    let alloc = rt.alloc();
    for (text, keys, why) in NONE {
        let base = base_of(alloc, text)?;
        let list = keys_read(alloc, keys)?;
        let none = frames_after(alloc, &base, &Groups::none(), list.as_slice()).err();
        same_in(text, none, Some(why))?;
    }
    let base = base_of(alloc, BASE)?;
    let page = PageNo::new(9).ok_or("page")?;
    for keys in ["2", "12", "1*#2", "21", "2*00*#"] {
        let list = keys_read(alloc, keys)?;
        let none = frames_after(alloc, &base, &Groups::none(), list.as_slice()).err();
        let why = if keys == "12" {
            None
        } else {
            Some(NoScreen::Gone(page))
        };
        same_in(keys, none, why)?;
    }
    Ok(())
}

#[test]
fn the_terminal_has_what_the_centre_paints_over(rt: HostRuntime) -> Result<(), Fail> {
    let alloc = rt.alloc();
    let base = base_of(alloc, BASE)?;
    let id = FrameId::read("77a")?;
    let mut alone = Terminal::new();
    send(&mut alone, base.find(id).ok_or("frame")?);
    same(row_of(alone.cells(), 0)?, row(b"CD"))?;
    let mut terminal = Terminal::new();
    terminal.run(b"BEFORE");
    let frame = base.find(FrameId::read("76b")?).ok_or("frame")?;
    same(frame.lead, Lead::Keep)?;
    send(&mut terminal, frame);
    same(row_of(terminal.cells(), 0)?, row(b"BEFOREAB"))
}

#[test]
fn an_id_that_the_base_lacks_is_answered_with_the_nearest(rt: HostRuntime) -> Result<(), Fail> {
    let alloc = rt.alloc();
    let base = base_of(alloc, BASE)?;
    let rows = [
        ("8a", Some("7a")),
        ("71c", Some("71a")),
        ("47a", Some("7a")),
        ("17b", Some("71b")),
        ("132456789a", Some("123456789a")),
        ("132546789a", Some("123456789a")),
        ("8b", Some("71b")),
        ("8c", Some("78a")),
        ("90c", None),
        ("4321a", None),
    ];
    for (word, wanted) in rows {
        let near = nearest(alloc, &base, FrameId::read(word)?)?;
        let wanted = match wanted {
            None => None,
            Some(name) => Some(FrameId::read(name)?),
        };
        same_in(word, near, wanted)?;
    }
    Ok(())
}

#[test]
fn the_way_at_a_place_is_what_the_keys_to_it_send(rt: HostRuntime) -> Result<(), Fail> {
    let alloc = rt.alloc();
    let base = base_of(alloc, BASE)?;
    let groups = Groups::none();
    let survey = Survey::of(alloc, &base, &groups)?;
    for place in 0..survey.found().as_slice().len() {
        let way = way_at(alloc, &survey, place)?;
        let keys = script_to(alloc, survey.found(), u32::try_from(place)?)?;
        let keyed = frames_after(alloc, &base, &groups, keys.as_slice())?;
        same_in(place, way.as_slice() == keyed.as_slice(), true)?;
    }
    Ok(())
}

#[test]
fn a_painter_makes_the_screen_of_each_way(rt: HostRuntime) -> Result<(), Fail> {
    let alloc = rt.alloc();
    let base = base_of(alloc, BASE)?;
    let groups = Groups::none();
    let painter = Painter::of(alloc, Survey::of(alloc, &base, &groups)?)?;
    let count = painter.survey().found().as_slice().len();
    same(count, 6)?;
    for place in 0..count {
        let way = way_at(alloc, painter.survey(), place)?;
        same_in(place, painter.screen(place) == screen(&base, &way), true)?;
    }
    Ok(())
}
