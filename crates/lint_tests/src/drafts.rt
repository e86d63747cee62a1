//! The drafts of texts: what reads, and every fault.

use base_text::{Detail, Draft, TextFault, Word, base_read, draft_of};
use std::alloc::{AllocError, Global};
use std::test::Fail;
use test_support::{same, same_in};

fn draft(alloc: Global, text: &str) -> Result<Draft, Fail> {
    let table = toml::table_from_str(alloc, text).ok().ok_or("TOML")?;
    Ok(draft_of(alloc, table)?)
}

// A fault's frame, the frame's id, and what is wrong.
fn line(alloc: Global, fault: &TextFault) -> Result<String, AllocError> {
    let mut id = String::new(alloc);
    if let Some(known) = fault.id {
        id.push_str(known.text().as_str())?;
    }
    format!(in alloc; "{:?} {} {:?}\n", fault.frame, id, fault.detail)
}

// The faults of a text, a line each.
fn faults(alloc: Global, text: &str) -> Result<String, Fail> {
    let draft = draft(alloc, text)?;
    let mut lines = String::new(alloc);
    for fault in draft.faults.iter() {
        lines.push_str(line(alloc, fault)?.as_str())?;
    }
    Ok(lines)
}

// Five faults, one of them after another of its frame.
const FIVE: &str = "entry = 1
colour = 7
outside = [2, -3]
[[frame]]
id = '1a'
price = 10000
size = 3
body = 'one'
[[frame]]
id = '1b'
body = 'two'
[[frame]]
id = '1c'
rows = ['tea', 'caf\u{E9}']
";

#[test]
fn every_fault_is_reported_in_order(rt: HostRuntime) -> Result<(), Fail> {
    let wanted = "None  UnknownKey(Top, Word { text: \"colour\" })
None  ItemNumber(Outside, 2, -3)
Some(0) 1a UnknownKey(Frame, Word { text: \"size\" })
Some(0) 1a Number(Price, 10000)
Some(2) 1c RowCode(2, 4, 'é')
";
    same(faults(rt.alloc(), FIVE)?.as_str(), wanted)
}

// The entry page, how many outside pages there are, and how many faults.
fn kept(draft: &Draft) -> (Option<u32>, usize, usize) {
    (
        draft.entry.map(|page| page.get()),
        draft.outside.len(),
        draft.faults.len(),
    )
}

// The indices of the tables of the frames.
fn tables(alloc: Global, draft: &Draft) -> Result<Vec<usize>, AllocError> {
    draft
        .frames
        .iter()
        .map(|listed| listed.table)
        .collect(alloc)
}

#[test]
fn what_has_no_fault_is_kept(rt: HostRuntime) -> Result<(), Fail> {
    let five = draft(rt.alloc(), FIVE)?;
    same(kept(&five), (Some(1), 1, 5))?;
    same(tables(rt.alloc(), &five)?.as_slice(), [1].as_slice())?;
    let listed = five.frames.as_slice().first().ok_or("a frame")?;
    same(listed.frame.body.as_slice(), b"two".as_slice())?;
    let text =
        "entry = 1\noutside = [5, 5]\nframe = [{ id = '1a', rows = [] }, { id = '1a', body = '\u{FF}' }]";
    let whole = draft(rt.alloc(), text)?;
    same(kept(&whole), (Some(1), 2, 0))?;
    same(tables(rt.alloc(), &whole)?.as_slice(), [0, 1].as_slice())
}

// Ten refused characters of a row, with their numbers, as a draft shows them.
const TEN_CODES: &str = "Some(0) 1a RowCode(1, 1, 'À')
Some(0) 1a RowCode(1, 2, 'Á')
Some(0) 1a RowCode(1, 4, 'Â')
Some(0) 1a RowCode(1, 5, 'Ã')
Some(0) 1a RowCode(1, 6, 'Ä')
Some(0) 1a RowCode(1, 7, 'Å')
Some(0) 1a RowCode(1, 8, 'Æ')
Some(0) 1a RowCode(1, 9, 'Ç')
Some(0) 1a RowCode(1, 10, 'È')
Some(0) 1a RowCode(1, 11, 'É')
";

#[test]
fn of_refused_characters_ten_are_listed_and_the_others_counted(
    rt: HostRuntime,
) -> Result<(), Fail> {
    let rows = [
        ("ÀÁ.ÂÃÄÅÆÇÈÉ", ""),
        ("ÀÁ.ÂÃÄÅÆÇÈÉ.Ê", "Some(0) 1a MoreRowCodes(1, 13, 1)\n"),
        ("ÀÁ.ÂÃÄÅÆÇÈÉ.ÊË.ÌÍ", "Some(0) 1a MoreRowCodes(1, 13, 4)\n"),
    ];
    for (row, more) in rows {
        let text = format!(in rt.alloc();
            "entry = 1\nframe = [{{ id = '1a', rows = ['{row}'] }}]"
        )?;
        let wanted = format!(in rt.alloc(); "{TEN_CODES}{more}")?;
        same_in(
            row,
            faults(rt.alloc(), text.as_str())?.as_str(),
            wanted.as_str(),
        )?;
    }
    let body = "entry = 1\nframe = [{ id = '1a', body = 'ĀĀĀĀĀĀĀĀĀĀ.ĀĀ' }]";
    let found = faults(rt.alloc(), body)?;
    same(found.as_str().lines().count(), 11)?;
    same(
        found.as_str().lines().last(),
        Some("Some(0) 1a MoreBodyCodes(12, 2)"),
    )
}

// What is wrong at the top, each alone; the second is what is found there.
#[test]
fn faults_of_the_top_show_what_was_found(rt: HostRuntime) -> Result<(), Fail> {
    let tops = [
        ("outside = [1]", "None  Absent(Entry)\n"),
        ("entry = '1'", "None  WrongKind(Entry, String)\n"),
        ("entry = -1", "None  Number(Entry, -1)\n"),
        ("entry = 999999999", ""),
        ("entry = 1000000000", "None  Number(Entry, 1000000000)\n"),
        (
            "entry = 1\noutside = 2.5",
            "None  WrongKind(Outside, Float)\n",
        ),
        (
            "entry = 1\noutside = [true, 4294967296]",
            "None  WrongItem(Outside, 1, Boolean)\nNone  ItemNumber(Outside, 2, 4294967296)\n",
        ),
        (
            "entry = 1\nframe = { id = '1a' }",
            "None  WrongKind(Frame, Table)\n",
        ),
        (
            "entry = 1\nframe = [1979-05-27, []]",
            "Some(0)  WrongKind(Frame, Datetime)\nSome(1)  WrongKind(Frame, Array)\n",
        ),
    ];
    for (text, wanted) in tops {
        same_in(text, faults(rt.alloc(), text)?.as_str(), wanted)?;
    }
    Ok(())
}

// The same of a frame, whose other keys are right. A row of 41 characters and the 23rd row hide no fault.
#[test]
fn faults_of_a_frame_show_what_was_found(rt: HostRuntime) -> Result<(), Fail> {
    let frames = [
        ("body = ''", "Some(0)  Absent(Id)\n"),
        ("id = 1, body = ''", "Some(0)  WrongKind(Id, Integer)\n"),
        (
            "id = '01a', body = ''",
            "Some(0)  BadFrame(Word { text: \"01a\" })\n",
        ),
        ("id = '1a', price = 9999, group = 65535, body = ''", ""),
        (
            "id = '1a', price = -1, group = 0, body = ''",
            "Some(0) 1a Number(Price, -1)\nSome(0) 1a Number(Group, 0)\n",
        ),
        (
            "id = '1a', group = 65536, next = 1, body = ''",
            "Some(0) 1a Number(Group, 65536)\nSome(0) 1a WrongKind(Next, Integer)\n",
        ),
        (
            "id = '1a', lead = 'wipe', body = ''",
            "Some(0) 1a Lead(Word { text: \"wipe\" })\n",
        ),
        (
            "id = '1a', routes = { 10 = 1, 9 = -9, a = 2, 3 = [] }, body = ''",
            "Some(0) 1a UnknownKey(Routes, Word { text: \"10\" })\nSome(0) 1a UnknownKey(Routes, Word { text: \"a\" })\nSome(0) 1a WrongItem(Routes, 3, Array)\nSome(0) 1a ItemNumber(Routes, 9, -9)\n",
        ),
        ("id = '1a'", "Some(0) 1a Absent(Body)\n"),
        (
            "id = '1a', body = 1, rows = 2",
            "Some(0) 1a BodyAndRows\nSome(0) 1a WrongKind(Body, Integer)\nSome(0) 1a WrongKind(Rows, Integer)\n",
        ),
        (
            "id = '1a', body = 1",
            "Some(0) 1a WrongKind(Body, Integer)\n",
        ),
        (
            "id = '1a', body = 'a\u{FF}\u{100}\u{101}'",
            "Some(0) 1a BodyCode(3, 'Ā')\nSome(0) 1a BodyCode(4, 'ā')\n",
        ),
        (
            "id = '1a', rows = 'a'",
            "Some(0) 1a WrongKind(Rows, String)\n",
        ),
        (
            "id = '1a', rows = [1, 'a\u{E9}a\u{E8}']",
            "Some(0) 1a WrongItem(Rows, 1, Integer)\nSome(0) 1a RowCode(2, 2, 'é')\nSome(0) 1a RowCode(2, 4, 'è')\n",
        ),
        (
            "id = '1a', rows = ['0123456789012345678901234567890123456789', '0123456789012345678901234567890123456789\u{E9}']",
            "Some(0) 1a RowTooLong(2, 41)\nSome(0) 1a RowCode(2, 41, 'é')\n",
        ),
        (
            "id = '1a', rows = ['','','','','','','','','','','','','','','','','','','','','','','\u{E9}']",
            "Some(0) 1a TooManyRows(23)\nSome(0) 1a RowCode(23, 1, 'é')\n",
        ),
    ];
    for (frame, wanted) in frames {
        let text = format!(in rt.alloc(); "entry = 1\nframe = [{{ {frame} }}]")?;
        same_in(frame, faults(rt.alloc(), text.as_str())?.as_str(), wanted)?;
    }
    Ok(())
}

// The first fault is the one that base_read answers.
#[test]
fn the_first_fault_is_that_of_the_reading(rt: HostRuntime) -> Result<(), Fail> {
    let fault = base_read(rt.alloc(), FIVE.as_bytes())
        .err()
        .ok_or("a fault")?;
    let draft = draft(rt.alloc(), FIVE)?;
    let first = draft.faults.as_slice().first().ok_or("a fault")?;
    same((fault.frame, fault.cause), (None, first.detail.cause()))?;
    let Detail::UnknownKey(_, key) = &first.detail else {
        return Err(Fail::from("an unknown key"));
    };
    same(key.as_str(), "colour")?;
    same(Word::of(rt.alloc(), "colour")?.as_str(), "colour")
}
