use crate::files::screen_with;
use page_ids::FrameId;
use screen_forms::{
    FaultyLine, SavedForm, TextLineFault, TextScreen, TextScreensFault, any_case_id, has_address,
    is_link_letter, link_codes, linked_screens, push_address, push_form, stored_code,
};
use std::alloc::Global;
use std::test::Fail;
use test_support::{same, same_in};

// Row 0 is `478a   5p` at column 31, row 1 a red `HELLO`.
pub fn example() -> [u8; 960] {
    let mut screen = screen_with(31, b"478a   5p");
    screen[40] = 0x81;
    screen[41..46].copy_from_slice(b"HELLO");
    screen
}

const EXAMPLE: &str =
    "https://edit.tf/#0:QIECBAgQIECBAgQIECBAgQIECBAgQIECBAgQNG7jCgQIGvADIizJk9AgQIEC";

#[test]
fn the_address_of_the_example(rt: HostRuntime) -> Result<(), Fail> {
    let alloc = rt.alloc();
    let mut text = Vec::new(alloc);
    push_address(alloc, &mut text, &example())?;
    same(text.len(), 19 + 1167)?;
    same(text.as_slice().starts_with(EXAMPLE.as_bytes()), true)?;
    let letters = text.as_slice().get(19..).ok_or("letters")?;
    same(link_codes(alloc, letters)?, Some(example()))?;
    let rows = letters.get(..1120).ok_or("rows")?;
    same(link_codes(alloc, rows)?, Some(example()))?;
    let less = letters.get(..1119).ok_or("less")?;
    same(link_codes(alloc, less)?, None)
}

#[test]
fn each_form_of_the_example(rt: HostRuntime) -> Result<(), Fail> {
    let alloc = rt.alloc();
    let id = FrameId::read("478a")?;
    for (form, size, head) in [
        (SavedForm::Cells, 960, "       "),
        (SavedForm::Ep1, 968, "\u{1}\t\0\0\0   "),
        (
            SavedForm::Link,
            5 + 19 + 1167 + 1,
            "78a https://edit.tf/#0:QIE",
        ),
    ] {
        let mut file = Vec::new(alloc);
        push_form(alloc, &mut file, form, id, &example())?;
        same_in(head, file.len(), size)?;
        let from = file.as_slice().get(1..).ok_or("file")?;
        same_in(head, from.starts_with(head.as_bytes()), true)?;
    }
    Ok(())
}

// The letters of the example, after some text.
fn address_after(alloc: Global, before: &str, after: &str) -> Result<Vec<u8>, Fail> {
    let mut text = Vec::new(alloc);
    text.extend_from_slice(before.as_bytes())?;
    push_address(alloc, &mut text, &example())?;
    text.extend_from_slice(after.as_bytes())?;
    Ok(text)
}

// What is before the address, after it, and which ids are read of both.
const LINES: [(&str, &str, Option<&str>, Option<&str>); 10] = [
    ("4001a ", "", Some("4001a"), None),
    ("4001A: ", "\r", Some("4001a"), None),
    ("my frame 77b=", " and more", Some("77b"), None),
    ("77b:", ":PN=10002", Some("77b"), Some("100b")),
    ("77b , ", ":PS=1:PN=123:SC=0", Some("77b"), Some("123a")),
    ("", ":PN=1FF01", None, None),
    ("see ", ":PN=12399", None, None),
    ("77b see ", ":PN=00100", None, None),
    ("\t7c\t", ":PN=10100\r", Some("7c"), Some("101a")),
    ("01a ", ":PN=89926", None, Some("899z")),
];

#[test]
fn ids_are_beside_addresses(rt: HostRuntime) -> Result<(), Fail> {
    let alloc = rt.alloc();
    for (before, after, beside, number) in LINES {
        let text = address_after(alloc, before, after)?;
        let screens = linked_screens(alloc, text.as_slice()).map_err(|_| before)?;
        let Some(screen) = screens.as_slice().first() else {
            return Err(Fail::from(before));
        };
        let read = |id: Option<&str>| id.and_then(|id| FrameId::read(id).ok());
        let wanted = TextScreen {
            line: 1,
            beside: read(beside),
            number: read(number),
            codes: example(),
        };
        same_in(before, *screen, wanted)?;
    }
    Ok(())
}

// The first fault of a text.
fn fault_of(alloc: Global, text: &[u8]) -> Option<TextScreensFault> {
    linked_screens(alloc, text).err()
}

#[test]
fn the_first_line_at_fault_is_named(rt: HostRuntime) -> Result<(), Fail> {
    let alloc = rt.alloc();
    let fault = |line: usize, fault: TextLineFault| Some(TextScreensFault::Line(FaultyLine {
        line,
        fault,
    }));
    same(fault_of(alloc, b"no address\n#1 :\n"), None)?;
    same(
        fault_of(alloc, b"\n4a #1:QIE\n"),
        fault(2, TextLineFault::Letters(3)),
    )?;
    same(
        fault_of(alloc, b"4a #1:Q#2:\n#0:"),
        fault(1, TextLineFault::Two),
    )?;
    same(has_address(b"a#F:"), true)?;
    same(has_address(b"a#G:"), false)?;
    same(is_link_letter(b'_'), true)?;
    same(is_link_letter(b'='), false)?;
    same(stored_code(0x1F), 0x9F)?;
    same(any_case_id(b"7Z"), FrameId::read("7z").ok())
}
