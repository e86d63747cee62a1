use base_text::base_read;
use frame_records::{Base, Lead, Pence};
use page_ids::FrameId;
use screen_files::{Known, ScreenFrame, name_id, push_entry, push_frame, saved_codes, screen_head};
use std::alloc::Global;
use std::test::Fail;
use terminal_codes::{Terminal, lead_bytes};
use test_support::{same, same_in};

// A screen with these codes from a position on, blank elsewhere.
pub fn screen_with(position: usize, codes: &[u8]) -> [u8; 960] {
    let mut screen = [0x20; 960];
    for (i, code) in codes.iter().enumerate() {
        if let Some(cell) = screen.get_mut(position.saturating_add(i)) {
            *cell = *code;
        }
    }
    screen
}

// The code at a position; 0 past the end.
fn code_at(codes: &[u8; 960], position: usize) -> u8 {
    codes.get(position).copied().unwrap_or(0)
}

// Pieces of bytes that are no secret: the high bytes of a linear generator.
fn next_byte(state: &mut u32) -> u8 {
    *state = state.wrapping_mul(1_664_525).wrapping_add(1_013_904_223);
    (*state >> 24) as u8
}

fn random_bytes(alloc: Global, count: usize, state: &mut u32) -> Result<Vec<u8>, Fail> {
    let mut bytes = Vec::new(alloc);
    for _ in 0..count {
        bytes.push(next_byte(state))?;
    }
    Ok(bytes)
}

// The size of a file, and the number of its byte at row 1, column 0; none of a size that no screen has.
const SIZES: [(usize, Option<usize>); 10] = [
    (0, None),
    (879, None),
    (880, Some(0)),
    (881, None),
    (959, None),
    (960, Some(40)),
    (961, None),
    (1000, Some(40)),
    (1024, Some(40)),
    (1025, None),
];

#[test]
fn the_size_says_what_a_file_is(rt: HostRuntime) -> Result<(), Fail> {
    let alloc = rt.alloc();
    for (size, place) in SIZES {
        let mut bytes = Vec::new(alloc);
        for i in 0..size {
            bytes.push((i % 89) as u8 + 0x21)?;
        }
        let codes = saved_codes(bytes.as_slice());
        same_in(size, codes.is_some(), place.is_some())?;
        if let (Some(codes), Some(place)) = (codes, place) {
            same_in(size, code_at(&codes, 40), (place % 89) as u8 + 0x21)?;
            same_in(
                size,
                code_at(&codes, 919),
                (place.saturating_add(879) % 89) as u8 + 0x21,
            )?;
            same_in(size, code_at(&codes, 0) == 0x20, size == 880)?;
            same_in(size, code_at(&codes, 959) == 0x20, size == 880)?;
        }
    }
    Ok(())
}

#[test]
fn bytes_are_stored_codes(_rt: HostRuntime) -> Result<(), Fail> {
    let rows = [
        // no byte is a space
        (0x00, 0x20),
        (0x1f, 0x9f),
        (0x20, 0x20),
        (0x7f, 0x7f),
        (0x80, 0x80),
        (0x9f, 0x9f),
        (0xa0, 0x20),
        (0xff, 0x7f),
    ];
    for (byte, code) in rows {
        let codes = saved_codes(&[byte; 960]).ok_or("screen")?;
        same_in(
            byte,
            (code_at(&codes, 0), code_at(&codes, 959)),
            (code, code),
        )?;
    }
    Ok(())
}

// A file of the form EP1, with rows of one byte.
fn ep1(alloc: Global, size: usize, byte: u8) -> Result<Vec<u8>, Fail> {
    let mut bytes = Vec::new(alloc);
    bytes.extend_from_slice(b"\xfe\x01\x09AAA")?;
    bytes.resize(size.saturating_sub(2), byte)?;
    bytes.extend_from_slice(b"BB")?;
    Ok(bytes)
}

#[test]
fn an_ep1_file_has_its_rows_between_others(rt: HostRuntime) -> Result<(), Fail> {
    for (size, is_screen) in [
        (967, false),
        (968, true),
        (969, false),
        (1007, false),
        (1008, true),
    ] {
        let bytes = ep1(rt.alloc(), size, 0x01)?;
        let codes = saved_codes(bytes.as_slice());
        same_in(size, codes, is_screen.then_some([0x81; 960]))?;
    }
    let mut bytes = ep1(rt.alloc(), 968, b'X')?;
    if let Some(mark) = bytes.get_mut(1) {
        *mark = 0x02;
    }
    same(saved_codes(bytes.as_slice()).is_some(), false)
}

// The bytes of a row 1, and what a screen that is blank but for them has there. 00 is the blank if no byte is a space.
#[test]
fn a_nul_may_be_a_blank(_rt: HostRuntime) -> Result<(), Fail> {
    for (blank, row, wanted) in [
        (0x00, *b"A\x00\x01B", *b"A \x81B"),
        (0x20, *b"A\x00\x01B", *b"A\x80\x81B"),
        (0x00, *b"A\x00\xa0B", *b"A\x80 B"),
    ] {
        let mut bytes = [blank; 960];
        bytes[40..44].copy_from_slice(&row);
        let codes = saved_codes(&bytes).ok_or("screen")?;
        same_in(row, codes.get(40..44), Some(wanted.as_slice()))?;
        let inner = saved_codes(&bytes[40..920]).ok_or("rows")?;
        same_in(row, inner.get(40..44), Some(wanted.as_slice()))?;
        same_in(row, code_at(&inner, 0), 0x20)?;
    }
    Ok(())
}

// Row 0 (a dot is an attribute), and the id and the price that it shows.
const TOPS: [(&[u8; 40], Option<&str>, Option<u16>); 18] = [
    (
        b"THE MARLBRIDGE HERALD        478a     0p",
        Some("478a"),
        Some(0),
    ),
    (
        b"                              4786b9999p",
        Some("4786b"),
        Some(9999),
    ),
    (b"                             4786b10000p", None, None),
    (
        b"                             4786b 0100p",
        Some("4786b"),
        None,
    ),
    (
        b"                             4786b    5p",
        Some("4786b"),
        Some(5),
    ),
    (b"                                 478a5p ", None, None),
    (
        b"                               478a .5p.",
        Some("5p"),
        None,
    ),
    (
        b"1a 2b 3c                                ",
        Some("3c"),
        None,
    ),
    (
        b".1a.2b..3c.D                          7p",
        Some("3c"),
        Some(7),
    ),
    (b"                                      5p", None, Some(5)),
    (b"                                     X5p", None, None),
    (
        b"                                  12345p",
        Some("12345p"),
        None,
    ),
    (
        b"                                1a 1a5p ",
        Some("1a"),
        None,
    ),
    (
        b"                                    1a5p",
        Some("1a"),
        Some(5),
    ),
    (b"                                  007a0p", None, None),
    (
        b"1234567890a  123456789z                 ",
        Some("123456789z"),
        None,
    ),
    (b"478A 478 a                              ", None, None),
    (b"                                        ", None, None),
];

#[test]
fn row_0_shows_the_id_and_the_price(_rt: HostRuntime) -> Result<(), Fail> {
    for (top, id, price) in TOPS {
        let row = top.map(|code| if code == b'.' { 0x87 } else { code });
        let head = screen_head(&screen_with(0, &row));
        same_in(top, head.id.is_some(), id.is_some())?;
        if let (Some(seen), Some(wanted)) = (head.id, id) {
            same_in(top, seen.text().as_str(), wanted)?;
        }
        same_in(top, head.price.map(Pence::get), price)?;
    }
    Ok(())
}

#[test]
fn row_1_shows_no_id(_rt: HostRuntime) -> Result<(), Fail> {
    let head = screen_head(&screen_with(40, b"478a 5p"));
    same((head.id.is_some(), head.price.is_some()), (false, false))
}

#[test]
fn a_name_may_be_an_id(_rt: HostRuntime) -> Result<(), Fail> {
    let rows = [
        ("4786b.bin", Some("4786b")),
        ("dumps/4786b", Some("4786b")),
        ("a.b/478a.old.bin", Some("478a")),
        ("478a /x.bin", None),
        ("my 478a/x.bin", None),
        ("my screen.bin", None),
        ("478.bin", None),
        ("620B.BIN", Some("620b")),
        ("page-6209C.bin", Some("6209c")),
        ("town-2_old 4001A.x", Some("4001a")),
        ("-4a", Some("4a")),
        ("478a-5p.bin", None),
        ("478a_b-5p.bin", None),
        ("x478a-5p.bin", Some("5p")),
        ("478a-", None),
        (".478a", None),
        ("dumps/", None),
        ("", None),
    ];
    for (path, wanted) in rows {
        let id = name_id(path);
        same_in(path, id.is_some(), wanted.is_some())?;
        if let (Some(seen), Some(wanted)) = (id, wanted) {
            same_in(path, seen.text().as_str(), wanted)?;
        }
    }
    Ok(())
}

// The text of a base with one frame.
fn text_of(alloc: Global, frame: &ScreenFrame, next: bool) -> Result<Vec<u8>, Fail> {
    let mut text = Vec::new(alloc);
    push_entry(&mut text, frame.id.page)?;
    push_frame(&mut text, &Known::of(alloc, false, &[])?, frame, next)?;
    Ok(text)
}

const TEXT: &str = "entry = 478

[[frame]]
# THE MARLBRIDGE HERALD        478a     5p
id = \"478a\"
price = 5
next = true
routes = { } # keys shown: 1 2
rows = [
    \"\\u0087\\\"2 WEATHER\\\\ 1 NEWS\\u007F\",
    \"\",
    \"2X\\u0098 3 HIDDEN\\u0081\",
]
#  ROW 23
";

#[test]
fn a_frame_has_a_line_for_each_row(rt: HostRuntime) -> Result<(), Fail> {
    let mut codes = screen_with(0, b"THE MARLBRIDGE HERALD\x83       478a     5p");
    let parts: [(usize, &[u8]); 3] = [
        (40, b"\x87\"2 WEATHER\\ 1 NEWS\x7f  "),
        (120, b"2X\x98 3 HIDDEN\x81   "),
        (920, b"\x81ROW 23"),
    ];
    for (position, part) in parts {
        for (i, code) in part.iter().enumerate() {
            if let Some(cell) = codes.get_mut(position.saturating_add(i)) {
                *cell = *code;
            }
        }
    }
    let frame = ScreenFrame {
        id: FrameId::read("478a")?,
        price: Pence::new(5),
        codes,
    };
    let text = text_of(rt.alloc(), &frame, true)?;
    same(text.as_slice(), TEXT.as_bytes())
}

#[test]
fn a_blank_screen_has_no_rows(rt: HostRuntime) -> Result<(), Fail> {
    let frame = ScreenFrame {
        id: FrameId::read("7b")?,
        price: None,
        codes: [0x20; 960],
    };
    let text = text_of(rt.alloc(), &frame, false)?;
    let wanted = b"entry = 7\n\n[[frame]]\nid = \"7b\"\nroutes = { }\nrows = [\n]\n";
    same(text.as_slice(), wanted.as_slice())
}

// The screen that a base's only frame leaves on a terminal that has other text.
fn shown(base: &Base) -> Result<[u8; 960], Fail> {
    let frame = base.frames().first().ok_or("frame")?;
    same(frame.lead, Lead::Clear)?;
    let mut terminal = Terminal::new();
    terminal.run(&[0x55; 700]);
    terminal.run(lead_bytes(frame.lead));
    terminal.run(frame.body.as_slice());
    Ok(*terminal.cells())
}

#[test]
fn whatever_a_file_holds_its_base_shows(rt: HostRuntime) -> Result<(), Fail> {
    let alloc = rt.alloc();
    let mut state = 62;
    for turn in 0..60u32 {
        let mut bytes = random_bytes(alloc, 960, &mut state)?;
        // some screens are blank from a row on
        bytes.truncate(40 * (turn as usize % 25));
        bytes.resize(960, 0x20)?;
        let codes = saved_codes(bytes.as_slice()).ok_or("screen")?;
        let frame = ScreenFrame {
            id: FrameId::read("478a")?,
            price: screen_head(&codes).price,
            codes,
        };
        let text = text_of(alloc, &frame, false)?;
        let base = base_read(alloc, text.as_slice())?;
        let cells = shown(&base)?;
        same_in(turn, cells.get(40..920), codes.get(40..920))?;
        same_in(turn, cells.get(..40), Some([0x20; 40].as_slice()))?;
        same_in(turn, cells.get(920..), Some([0x20; 40].as_slice()))?;
    }
    Ok(())
}
