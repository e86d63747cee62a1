//! Expected values from the service's own rules: page numbers and keys as the information providers' guide has them.

use page_ids::{
    Digit, FrameId, IdFault, Key, KeyList, Letter, NumberFault, PageNo, Way, keys_read, keys_text,
    number_read, push_id, push_keys, push_number, push_page,
};
use std::test::Fail;
use test_support::{same, same_in};

// A text, and the page and letter that it spells.
const IDS: [(&str, u32, u8); 4] = [
    ("0a", 0, b'a'),
    ("999999999z", 999_999_999, b'z'),
    ("1231b", 1231, b'b'),
    ("10m", 10, b'm'),
];

const NO_IDS: [&str; 12] = [
    "",
    "a",
    "01a",
    "00a",
    "1000000000a",
    "123A",
    "123",
    "123{",
    "123`",
    "12 3a",
    "123aa",
    "-1a",
];

const NO_PAGES: [&str; 9] = [
    "",
    "01",
    "00",
    "1000000000",
    "99999999999999999999",
    "+1",
    "1 ",
    "1a",
    "a",
];

#[test]
fn ids_are_read_from_their_texts() -> Result<(), Fail> {
    for (text, page, letter) in IDS {
        let id = FrameId::read(text)?;
        let read = FrameId::read_bytes(text.as_bytes());
        let parts = (id.page.get(), id.letter.get(), id.text());
        same_in(
            text,
            (parts.0, parts.1, parts.2.as_str(), read),
            (page, letter, text, Some(id)),
        )?;
    }
    for text in NO_IDS {
        same_in(text, FrameId::read(text), Err(IdFault::BadFrame))?;
    }
    Ok(())
}

#[test]
fn pages_are_read_from_their_texts() -> Result<(), Fail> {
    for (text, number) in [
        ("0", 0),
        ("7", 7),
        ("1231", 1231),
        ("999999999", 999_999_999),
    ] {
        let page = PageNo::read(text)?;
        let written = page.text();
        same_in(text, (page.get(), written.as_str()), (number, text))?;
        same_in(text, PageNo::read_bytes(text.as_bytes()), Some(page))?;
    }
    for text in NO_PAGES {
        same_in(text, PageNo::read(text), Err(IdFault::BadPage))?;
        same_in(text, PageNo::read_bytes(text.as_bytes()), None)?;
    }
    Ok(())
}

#[test]
fn numbers_end_at_their_limits() -> Result<(), Fail> {
    let pages = [999_999_999, 1_000_000_000].map(|number| PageNo::new(number).map(PageNo::get));
    let letters = [b'a', b'z', b'`', b'{'].map(|byte| Letter::new(byte).map(Letter::get));
    let digits = [9, 10].map(|number| Digit::new(number).map(Digit::get));
    same(
        (pages, letters, digits),
        (
            [Some(999_999_999), None],
            [Some(b'a'), Some(b'z'), None, None],
            [Some(9), None],
        ),
    )
}

#[test]
fn digits_of_any_length_are_a_number() -> Result<(), Fail> {
    let rows: [(&str, u32, Result<u32, NumberFault>); 9] = [
        ("65535", 65_535, Ok(65_535)),
        ("65536", 65_535, Err(NumberFault::AboveLimit)),
        ("99999999999999999999", 9_999, Err(NumberFault::AboveLimit)),
        ("0", 0, Ok(0)),
        ("4294967295", u32::MAX, Ok(u32::MAX)),
        ("4294967296", u32::MAX, Err(NumberFault::AboveLimit)),
        ("00", 9, Err(NumberFault::NotNumeral)),
        ("", 9, Err(NumberFault::NotNumeral)),
        ("1x", 9, Err(NumberFault::NotNumeral)),
    ];
    for (text, most, number) in rows {
        same_in(text, number_read(text.as_bytes(), most), number)?;
    }
    Ok(())
}

#[test]
fn a_page_begins_with_its_frame_a() -> Result<(), Fail> {
    let first = FrameId::first(PageNo::read("1231")?);
    let second = FrameId::read("1231b")?;
    let [last_but_one, last] = [FrameId::read("1231y")?, FrameId::read("1231z")?];
    let text = first.text();
    same(
        (
            text.as_str(),
            [first, last_but_one, last].map(|id| id.following()),
        ),
        ("1231a", [Some(second), Some(last), None]),
    )
}

#[test]
fn ids_are_ordered_by_number_then_letter() -> Result<(), Fail> {
    let [nine, ten, next] = [
        FrameId::read("9z")?,
        FrameId::read("10a")?,
        FrameId::read("10b")?,
    ];
    same((nine < ten, ten < next), (true, true))
}

#[test]
fn keys_are_read_and_written_back(rt: HostRuntime) -> Result<(), Fail> {
    for (text, count) in [
        ("", 0),
        ("0", 1),
        ("1#*#*00*09", 5),
        ("1010*#*#*#*#", 8),
        ("*#*#", 2),
    ] {
        let keys = keys_read(rt.alloc(), text)?;
        let written = keys_text(rt.alloc(), &keys)?;
        let got = (keys.as_slice().len(), written.as_slice());
        same_in(text, got, (count, text.as_bytes()))?;
    }
    Ok(())
}

#[test]
fn each_word_is_its_key(rt: HostRuntime) -> Result<(), Fail> {
    let seven = Digit::new(7).ok_or("seven")?;
    let keys = keys_read(rt.alloc(), "7#*#*00*09")?;
    let wanted = [
        Key::Route(seven),
        Key::Next,
        Key::Prev,
        Key::Reprint,
        Key::Update,
    ];
    same(keys.as_slice(), wanted.as_slice())
}

#[test]
fn the_first_word_that_cannot_be_read_is_named(rt: HostRuntime) -> Result<(), Fail> {
    for (text, at) in [
        ("*0", 0),
        ("1*5#", 1),
        ("*", 0),
        ("12*", 2),
        ("12*0", 2),
        ("12*01", 2),
        ("#a", 1),
        (" 1", 0),
        ("*00*0", 3),
    ] {
        let fault = keys_read(rt.alloc(), text).err();
        same_in(text, fault, Some(IdFault::BadKey(at)))?;
    }
    Ok(())
}

// Five keys in ten bytes, so often; the texts themselves would fill a message with 200,000 bytes each.
#[test]
fn a_hundred_thousand_keys_are_read_and_written_back(rt: HostRuntime) -> Result<(), Fail> {
    let text = "7#*#*00*09".repeat(rt.alloc(), 20_000)?;
    let bad = [text.as_str(), "*5"].concat(rt.alloc())?;
    let fault = keys_read(rt.alloc(), bad.as_str()).err();
    let keys = keys_read(rt.alloc(), text.as_str())?;
    let written = keys_text(rt.alloc(), &keys)?;
    let is_same = written.as_slice() == text.as_str().as_bytes();
    same(
        (keys.as_slice().len(), is_same, fault),
        (100_000, true, Some(IdFault::BadKey(200_000))),
    )
}

#[test]
fn a_list_of_keys_is_kept(rt: HostRuntime) -> Result<(), Fail> {
    let list = KeyList::of(vec![in rt.alloc(); Key::Next, Key::Prev]?);
    same(list.as_slice(), [Key::Next, Key::Prev].as_slice())
}

#[test]
fn numbers_keys_and_ids_are_written_after_a_text(rt: HostRuntime) -> Result<(), Fail> {
    let keys = keys_read(rt.alloc(), "1*#")?;
    let id = FrameId::read("1231b")?;
    let mut text = Vec::new(rt.alloc());
    push_number(&mut text, 65_535)?;
    push_keys(&mut text, keys.as_slice())?;
    push_page(&mut text, id.page)?;
    push_id(&mut text, id)?;
    same(text.as_slice(), b"655351*#12311231b".as_slice())?;
    Ok(())
}

#[test]
fn the_ways_are_the_digits_and_then_next(rt: HostRuntime) -> Result<(), Fail> {
    let keys = keys_read(rt.alloc(), "0123456789#")?;
    same(usize::from(Way::COUNT), keys.as_slice().len())?;
    for place in 0..Way::COUNT {
        let key = keys.as_slice().get(usize::from(place)).ok_or("a key")?;
        same_in(place, &Way::at(place).key(), key)?;
    }
    Ok(())
}
