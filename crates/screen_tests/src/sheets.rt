use crate::files::screen_with;
use crate::forms::example;
use page_ids::FrameId;
use screen_forms::{
    FaultyLine, SavedForm, TextLineFault, TextScreen, TextScreensFault, is_sheet, push_form,
    sheet_screens,
};
use std::alloc::Global;
use std::test::Fail;
use test_support::{same, same_in};

// The file of the example, without the spaces of its rows.
const EXAMPLE: &str =
    "DE,478a\r\nPN,47801\r\nSC,0001\r\nPS,8000\r\nRE,0\r\nOL,0,                               478a   5p\r\nOL,1,\u{1b}AHELLO";

#[test]
fn the_sheet_of_the_example(rt: HostRuntime) -> Result<(), Fail> {
    let alloc = rt.alloc();
    let id = FrameId::read("478a")?;
    let mut file = Vec::new(alloc);
    push_form(alloc, &mut file, SavedForm::Tti, id, &example())?;
    same(file.as_slice().starts_with(EXAMPLE.as_bytes()), true)?;
    same(file.len(), EXAMPLE.len() + 34 + 2)?;
    let page = TextScreen {
        line: 2,
        beside: None,
        number: Some(id),
        codes: example(),
    };
    same(pages(alloc, file.as_slice())?.as_slice(), &[page])
}

fn pages(alloc: Global, text: &[u8]) -> Result<Vec<TextScreen>, Fail> {
    match sheet_screens(alloc, text) {
        Ok(pages) => Ok(pages),
        Err(_) => Err(Fail::from("pages")),
    }
}

// A text, and the line, the number, a position of the last page and what is there.
const PAGES: [(&str, usize, Option<&str>, usize, &[u8]); 10] = [
    ("PN,12302\nOL,1,A", 1, Some("123b"), 40, b"A "),
    ("\u{feff}PN,123\r\nOL,1,A\r\n", 1, Some("123a"), 40, b"A "),
    ("x\nOL, 1 ,A\nPN,1FF01\r\n", 3, None, 40, b"  "),
    ("OL,23,A\nOL,24,B\nOL,99", 1, None, 920, b"A "),
    ("\nOL,01,A,B\nSC,1", 2, None, 40, b"A,B "),
    ("OL,1,ABC\nOL,1,D\nFL,1,2", 1, None, 40, b"D  "),
    ("OL,1,ABC\nOL,1\n", 1, None, 40, b"   "),
    (
        "OL,0,\u{1b}A\u{10}\u{1b}`\u{1}B",
        1,
        None,
        0,
        b"\x81\x8d\x9b`\x81B ",
    ),
    (
        "OL,2,A2345678901234567890123456789012345678Z!X",
        1,
        None,
        80,
        b"A2345678901234567890123456789012345678Z!",
    ),
    ("OL,1,A\rB\r\r\n", 1, None, 40, b"A\x8dB\x8d "),
];

#[test]
fn lines_are_rows_of_pages(rt: HostRuntime) -> Result<(), Fail> {
    let alloc = rt.alloc();
    for (text, line, number, position, codes) in PAGES {
        let pages = pages(alloc, text.as_bytes())?;
        let wanted = TextScreen {
            line,
            beside: None,
            number: number.and_then(|id| FrameId::read(id).ok()),
            codes: screen_with(position, codes),
        };
        same_in(text, pages.as_slice().last().copied(), Some(wanted))?;
        same_in(text, is_sheet(text.as_bytes()), true)?;
    }
    Ok(())
}

// A text and its line at fault.
const BAD_ROWS: [(&str, usize); 5] = [
    ("OL,", 1),
    ("PN,100\nOL,123,A", 2),
    ("\n\nOL,1x", 3),
    ("OL,1\nOL,-1,A\nOL,y", 2),
    ("OL,1 2,A", 1),
];

#[test]
fn the_first_row_without_a_number_is_named(rt: HostRuntime) -> Result<(), Fail> {
    let alloc = rt.alloc();
    for (text, line) in BAD_ROWS {
        let fault = TextLineFault::Row;
        let wanted = TextScreensFault::Line(FaultyLine { line, fault });
        same_in(
            text,
            sheet_screens(alloc, text.as_bytes()).err(),
            Some(wanted),
        )?;
    }
    same(is_sheet(b"OL\n PN,\nol,1"), false)
}

#[test]
fn a_text_has_at_most_65535_pages(rt: HostRuntime) -> Result<(), Fail> {
    let alloc = rt.alloc();
    let mut text = Vec::new(alloc);
    for _ in 0..65_535 {
        text.extend_from_slice(b"PN,\n")?;
    }
    same(pages(alloc, text.as_slice())?.len(), 65_535)?;
    text.extend_from_slice(b"PN,")?;
    let fault = FaultyLine {
        line: 65_536,
        fault: TextLineFault::Pages,
    };
    let wanted = Some(TextScreensFault::Line(fault));
    same(sheet_screens(alloc, text.as_slice()).err(), wanted)
}
