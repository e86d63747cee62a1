use frame_records::{MOST_LISTED, Pence};
use page_ids::{FrameId, PageNo};
use screen_files::{
    AddFault, Album, BaseTextFault, FileFrames, FileKind, Filed, FramesFault, MOST_SCREEN,
    MOST_SHOTS, Origin, ScreenFault, ScreenFrame, ScreenPlace, Settled, base_text, capture_screens,
    file_frames, settle,
};
use std::alloc::Global;
use std::test::Fail;
use test_support::{same, same_in};

// The frame of a file, a screen of one code.
fn filed(file: usize, id: &str, code: u8) -> Result<Filed, Fail> {
    Ok(Filed {
        origin: Origin {
            file,
            place: ScreenPlace::Whole,
        },
        frame: ScreenFrame {
            id: FrameId::read(id)?,
            price: None,
            codes: [code; 960],
        },
    })
}

// What a file gives: the ids of its frames and the offsets at which they begin, those of the screens that are left out, and those of
// the frames that aren't kept.
#[derive(Drop)]
struct Given<'a> {
    frames: &'a [(&'a str, usize)],
    unnamed: &'a [usize],
    twins: &'a [usize],
}

const fn one<'a>(frame: &'a [(&'a str, usize); 1]) -> Given<'a> {
    Given {
        frames: frame,
        unnamed: &[],
        twins: &[],
    }
}

// Where a screen is that begins at a byte.
fn place_at(kind: FileKind, byte: usize) -> ScreenPlace {
    match kind {
        FileKind::Cells => ScreenPlace::Whole,
        FileKind::Stream => ScreenPlace::Byte(byte),
    }
}

fn check_given(
    kind: FileKind,
    bytes: &[u8],
    seen: &FileFrames,
    wanted: &Given,
) -> Result<(), Fail> {
    same_in(bytes, seen.unnamed.as_slice(), wanted.unnamed)?;
    let (frames, twins) = (seen.frames.frames(), seen.frames.twins());
    same_in(
        bytes,
        (frames.len(), twins.len()),
        (wanted.frames.len(), wanted.twins.len()),
    )?;
    for (filed, (id, byte)) in frames.iter().zip(wanted.frames) {
        same_in(bytes, filed.frame.id.text().as_str(), *id)?;
        same_in(
            bytes,
            filed.origin,
            Origin {
                file: 7,
                place: place_at(kind, *byte),
            },
        )?;
    }
    for (twin, byte) in twins.iter().zip(wanted.twins) {
        same_in(
            bytes,
            twin.other,
            Origin {
                file: 7,
                place: place_at(kind, *byte),
            },
        )?;
    }
    Ok(())
}

type Row<'a> = (&'a str, &'a [u8], Result<Given<'a>, ScreenFault>);

fn check_rows(alloc: Global, kind: FileKind, rows: &[Row]) -> Result<(), Fail> {
    for (path, bytes, wanted) in rows {
        match (file_frames(alloc, kind, path, 7, bytes), wanted) {
            (Ok(seen), Ok(wanted)) => check_given(kind, bytes, &seen, wanted)?,
            (Err(FramesFault::Screen(seen)), Err(wanted)) => same_in(*bytes, seen, *wanted)?,
            _ => return Err(Fail::from(*path)),
        }
    }
    Ok(())
}

#[test]
fn a_saved_screen_gives_a_frame_or_a_fault(rt: HostRuntime) -> Result<(), Fail> {
    let mut head = [0x20; 960];
    head[..9].copy_from_slice(b"  77b 33p");
    check_rows(
        rt.alloc(),
        FileKind::Cells,
        &[
            ("4a.bin", &head, Ok(one(&[("4a", 0)]))),
            ("dump", &head, Ok(one(&[("33p", 0)]))),
            ("dump", &[0x20; 880], Err(ScreenFault::NoId)),
            ("4a", b"", Err(ScreenFault::Empty)),
            ("4a", &[0x20; 961], Err(ScreenFault::Size(961))),
        ],
    )
}

#[test]
fn a_capture_gives_a_frame_for_each_id(rt: HostRuntime) -> Result<(), Fail> {
    check_rows(
        rt.alloc(),
        FileKind::Stream,
        &[
            ("4a", b"", Err(ScreenFault::Empty)),
            ("dump", b"77b", Ok(one(&[("77b", 0)]))),
            ("4a", b"77b", Ok(one(&[("4a", 0)]))),
            ("dump", b"\x0a77b", Err(ScreenFault::NoId)),
            ("4a", b" \x0c\x0c \x0c ", Ok(one(&[("4a", 4)]))),
            ("4a", b"LOGIN\x0cNEWS", Ok(one(&[("4a", 5)]))),
            (
                "4a",
                b"9a\x8c8a",
                Ok(Given {
                    frames: &[("8a", 2), ("9a", 0)],
                    unnamed: &[],
                    twins: &[],
                }),
            ),
            (
                "4a",
                b"\x0c9a\x0cNEWS",
                Ok(Given {
                    frames: &[("9a", 0)],
                    unnamed: &[3],
                    twins: &[],
                }),
            ),
            (
                "4a",
                b"\x0cX\x0cY\x0cZ",
                Ok(Given {
                    frames: &[("4a", 4)],
                    unnamed: &[0, 2],
                    twins: &[],
                }),
            ),
            ("dump", b"\x0cX\x0cY\x0cZ", Err(ScreenFault::NoId)),
        ],
    )
}

// Screens of frame 9a, of which row 1 has the words, begin at bytes 0, 6 and so on.
#[test]
fn a_screen_that_is_cut_short_is_a_part_of_another(rt: HostRuntime) -> Result<(), Fail> {
    check_rows(
        rt.alloc(),
        FileKind::Stream,
        &[
            (
                "x",
                b"\x0c9a\x0aA \x0c9a\x0aAB\x0c9a\x0aA",
                Ok(one(&[("9a", 6)])),
            ),
            (
                "x",
                b"\x0c9a\x0aAB\x0c9a\x0aA \x0c9a\x0aAB",
                Ok(one(&[("9a", 0)])),
            ),
            (
                "x",
                b"\x0c9a\x0aA \x0c9a\x0a B\x0c9a\x0aAB",
                Ok(one(&[("9a", 12)])),
            ),
            (
                "x",
                b"\x0c9a\x0aA \x0c9a\x0a B",
                Ok(Given {
                    frames: &[("9a", 0)],
                    unnamed: &[],
                    twins: &[6],
                }),
            ),
            (
                "x",
                b"\x0c9a\x0aA1\x0c9a\x0aA2\x0c9a\x0aA1",
                Ok(Given {
                    frames: &[("9a", 0)],
                    unnamed: &[],
                    twins: &[6],
                }),
            ),
        ],
    )
}

// The codes of the screen of a capture at positions 0, 1 and 40.
const CODES: [(&[u8], [u8; 3]); 7] = [
    (b"AB", [0x41, 0x42, 0x20]),
    (b"\xc1\x42", [0x41, 0x42, 0x20]),
    (b"\x1bA\x9bB", [0x81, 0x82, 0x20]),
    (b"XY\x0cZ", [0x5a, 0x20, 0x20]),
    (b"XY\x8a\x8dZ", [0x58, 0x59, 0x5a]),
    (b"\x0a\x41", [0x20, 0x20, 0x41]),
    (b"A\x08\xff", [0x7f, 0x20, 0x20]),
];

#[test]
fn a_capture_is_run_through_the_terminal(rt: HostRuntime) -> Result<(), Fail> {
    for (bytes, wanted) in CODES {
        let shots = capture_screens(rt.alloc(), bytes).map_err(|_| "capture")?;
        same_in(bytes, shots.len(), 1)?;
        for shot in shots.as_slice() {
            let codes = [shot.codes[0], shot.codes[1], shot.codes[40]];
            same_in(bytes, codes, wanted)?;
        }
    }
    Ok(())
}

#[test]
fn a_file_has_a_most(rt: HostRuntime) -> Result<(), Fail> {
    let alloc = rt.alloc();
    let mut bytes = Vec::new(alloc);
    bytes.resize(MOST_SCREEN.saturating_add(1), 0x0c)?;
    match file_frames(alloc, FileKind::Stream, "4a", 0, bytes.as_slice()) {
        Ok(_) => Err(Fail::from("frames")),
        Err(fault) => same(fault, FramesFault::Screen(ScreenFault::TooLong)),
    }
}

#[test]
fn a_capture_has_a_most(rt: HostRuntime) -> Result<(), Fail> {
    let alloc = rt.alloc();
    let mut bytes = Vec::new(alloc);
    for _ in 0..MOST_SHOTS {
        bytes.extend_from_slice(b"\x0cX")?;
    }
    let shots = capture_screens(alloc, bytes.as_slice());
    same(shots.is_ok_and(|shots| shots.len() == MOST_SHOTS), true)?;
    bytes.extend_from_slice(b"\x0c")?;
    same(capture_screens(alloc, bytes.as_slice()).is_ok(), true)?;
    bytes.extend_from_slice(b"X")?;
    match file_frames(alloc, FileKind::Stream, "4a", 0, bytes.as_slice()) {
        Ok(_) => Err(Fail::from("frames")),
        Err(fault) => same(fault, FramesFault::Screen(ScreenFault::TooManyScreens)),
    }
}

// An album of blank screens of these ids, each of a file, is settled.
fn settled(alloc: Global, ids: &[&str]) -> Result<Settled, Fail> {
    let mut album = Album::new(alloc);
    for (file, id) in ids.iter().enumerate() {
        same(album.add(&[filed(file, id, b' ')?]), Ok(()))?;
    }
    same(album.as_slice().len(), ids.len())?;
    Ok(album.settle(alloc)?)
}

#[test]
fn frames_are_in_the_order_of_their_ids(rt: HostRuntime) -> Result<(), Fail> {
    let settled = settled(rt.alloc(), &["10a", "9b", "9a", "9d"])?;
    let files = [2, 1, 3, 0];
    same(settled.frames().len(), files.len())?;
    for (filed, file) in settled.frames().iter().zip(files) {
        same(filed.origin.file, file)?;
    }
    let text = base_text(rt.alloc(), None, false, &settled).map_err(|_| "text")?;
    let wanted = "entry = 9

[[frame]]
id = \"9a\"
next = true
routes = { }
rows = [
]

[[frame]]
id = \"9b\"
routes = { }
rows = [
]

[[frame]]
id = \"9d\"
routes = { }
rows = [
]

[[frame]]
id = \"10a\"
routes = { }
rows = [
]
";
    same(text.as_slice(), wanted.as_bytes())?;
    let asked = base_text(rt.alloc(), PageNo::new(7), false, &settled).map_err(|_| "text")?;
    same(asked.as_slice().starts_with(b"entry = 7\n"), true)
}

// A screen that shows digits as keys in row 1, as a file.
fn keyed(file: usize, id: &str, row: &[u8]) -> Result<Filed, Fail> {
    let mut filed = filed(file, id, b' ')?;
    for (at, code) in row.iter().enumerate() {
        filed.frame.codes[40 + at % 40] = *code;
    }
    Ok(filed)
}

// 0 leads to the page above, another digit to the page below; never to a page that isn't there or has no first frame, or to the same page.
#[test]
fn routes_are_guessed_by_numbers(rt: HostRuntime) -> Result<(), Fail> {
    let frames = [
        keyed(0, "0a", b"0 1 4 9")?,
        keyed(1, "4a", b"0 1 2 3 X5")?,
        keyed(2, "4b", b"1")?,
        keyed(3, "41a", b"0 7")?,
        keyed(4, "43b", b"0")?,
        keyed(5, "45a", b"")?,
        keyed(6, "999999999a", b"0 9")?,
    ];
    let mut album = Album::new(rt.alloc());
    same(album.add(&frames), Ok(()))?;
    let settled = album.settle(rt.alloc())?;
    let text = base_text(rt.alloc(), None, true, &settled).map_err(|_| "text")?;
    let text = str::from_utf8(text.as_slice()).map_err(|_| "UTF-8")?;
    let lines = [
        "routes = { 4 = 4 } # by its number; keys shown: 0 1 4 9",
        "routes = { 0 = 0, 1 = 41 } # by its number; keys shown: 0 1 2 3",
        "routes = { 1 = 41 } # by its number; keys shown: 1",
        "routes = { 0 = 4 } # by its number; keys shown: 0 7",
        "routes = { 0 = 4 } # by its number; keys shown: 0",
        "routes = { }",
        "routes = { } # keys shown: 0 9",
    ];
    let mut count = 0usize;
    for (line, wanted) in text
        .lines()
        .filter(|line| line.starts_with("routes"))
        .zip(lines)
    {
        same_in(count, line, wanted)?;
        count = count.saturating_add(1);
    }
    same(count, lines.len())
}

// Files 0, 2 and 3 have frame 9a. File 1 has frame 8a.
#[test]
fn the_first_file_with_an_id_is_kept(rt: HostRuntime) -> Result<(), Fail> {
    let settled = settled(rt.alloc(), &["9a", "8a", "9a", "9a"])?;
    for (filed, file) in settled.frames().iter().zip([1, 0]) {
        same(filed.origin.file, file)?;
    }
    same((settled.frames().len(), settled.twins().len()), (2, 2))?;
    for (twin, file) in settled.twins().iter().zip([2, 3]) {
        same(twin.id.text().as_str(), "9a")?;
        same((twin.kept.file, twin.other.file), (0, file))?;
    }
    Ok(())
}

// A price keeps a screen from being a part of another.
#[test]
fn screens_of_other_prices_are_twins(rt: HostRuntime) -> Result<(), Fail> {
    let alloc = rt.alloc();
    let mut dear = filed(0, "9a", b' ')?;
    dear.frame.price = Pence::new(5);
    for (first, second, twins) in [(dear, dear, 0), (dear, filed(0, "9a", b' ')?, 1)] {
        let mut frames = Vec::new(alloc);
        frames.extend_from_slice(&[first, second])?;
        let settled = settle(alloc, frames)?;
        same((settled.frames().len(), settled.twins().len()), (1, twins))?;
    }
    Ok(())
}

#[test]
fn an_album_has_a_most(rt: HostRuntime) -> Result<(), Fail> {
    let mut album = Album::new(rt.alloc());
    let frames = [filed(0, "4a", b' ')?];
    for file in 0..MOST_LISTED {
        same_in(file, album.add(&frames), Ok(()))?;
    }
    same(album.add(&frames), Err(AddFault::TooMany))?;
    same(album.add(&[]), Ok(()))?;
    same(album.as_slice().len(), MOST_LISTED)
}

// The base of this many frames of attributes alone, of pages of four digits: each has 5,504 bytes, and the first line 13.
fn dense_base(alloc: Global, count: usize) -> Result<Result<Vec<u8>, BaseTextFault>, Fail> {
    let mut frames = Vec::new(alloc);
    for file in 0..count {
        let number = u32::try_from(file).unwrap_or(0).saturating_add(1_000);
        let page = PageNo::new(number).ok_or("page")?;
        let mut dense = filed(file, "4a", 0x81)?;
        dense.frame.id = FrameId::first(page);
        frames.extend_from_slice(&[dense])?;
    }
    let settled = settle(alloc, frames)?;
    Ok(base_text(alloc, None, false, &settled))
}

#[test]
fn a_base_has_a_most(rt: HostRuntime) -> Result<(), Fail> {
    let alloc = rt.alloc();
    match dense_base(alloc, 3_048)? {
        Ok(text) => same(text.as_slice().len(), 16_776_205)?,
        Err(_) => return Err(Fail::from("no text")),
    }
    match dense_base(alloc, 3_050)? {
        Ok(_) => Err(Fail::from("a text")),
        Err(fault) => same(fault, BaseTextFault::TooLong(3_048)),
    }
}
