//! The words of a text's faults.

use crate::printed::printed;
use base_text::{Detail, Field, TableKind, TextFault, ValueKind, Word};
use lint_words::{Written, text_fault_words};
use page_ids::FrameId;
use std::alloc::Global;
use std::test::Fail;
use test_support::same_in;

// A value of digits alone, in a text whose first frame begins on line 3.
const WRITTEN: Written<'static> = Written {
    value: b"\"15\"",
    in_header: false,
    first_frame: 3,
};

// The words of a detail in a table of an index with an id, or at the top.
fn words_of(
    alloc: Global,
    frame: Option<usize>,
    id: &Option<FrameId>,
    detail: Detail,
) -> Result<String, Fail> {
    let fault = TextFault {
        frame,
        id: *id,
        detail,
        unlisted: 0,
    };
    Ok(printed(alloc, &text_fault_words(alloc, &fault, &WRITTEN)?)?)
}

// Whether each detail has its words.
fn say(
    alloc: Global,
    frame: Option<usize>,
    id: Option<FrameId>,
    details: Vec<(Detail, &'static str)>,
) -> Result<(), Fail> {
    for (detail, words) in details {
        let out = words_of(alloc, frame, &id, detail)?;
        same_in(words, out.as_str(), words)?;
    }
    Ok(())
}

// The detail alone would have a hint.
#[test]
fn a_fault_that_is_listed_for_others_has_their_number(rt: HostRuntime) -> Result<(), Fail> {
    let rows = [
        (None, 1, "X6 Range: 1 more fault at the top, not listed"),
        (
            Some(0),
            7_999_000,
            "X6 Range: 7,999,000 more faults in this frame, not listed",
        ),
    ];
    for (frame, unlisted, words) in rows {
        let fault = TextFault {
            frame,
            id: None,
            detail: Detail::Number(Field::Group, 0),
            unlisted,
        };
        let out = printed(rt.alloc(), &text_fault_words(rt.alloc(), &fault, &WRITTEN)?)?;
        same_in(words, out.as_str(), words)?;
    }
    Ok(())
}

#[test]
fn faults_without_an_id_have_their_words(rt: HostRuntime) -> Result<(), Fail> {
    let top = vec![in rt.alloc();
        (
            Detail::Absent(Field::Entry),
            "X4 Absent: the base has no \"entry\""
        ),
        (
            Detail::WrongKind(Field::Entry, ValueKind::String),
            "X5 WrongKind: \"entry\" is a string, a whole number is needed; leave out the quotation marks",
        ),
        (
            Detail::WrongKind(Field::Outside, ValueKind::Integer),
            "X5 WrongKind: \"outside\" is a whole number, a list of whole numbers is needed; write [15]",
        ),
        (
            Detail::WrongKind(Field::Frame, ValueKind::Table),
            "X5 WrongKind: \"frame\" is a table, an array of tables is needed; write [[frame]] with two brackets",
        ),
        (
            Detail::WrongItem(Field::Outside, 1_002, ValueKind::String),
            "X5 WrongKind: item 1,002 of \"outside\" is a string, a whole number is needed; leave out the quotation marks",
        ),
        (
            Detail::Number(Field::Entry, -9_223_372_036_854_775_808),
            "X6 Range: \"entry\" is -9223372036854775808, at least 0 is needed",
        ),
        (
            Detail::ItemNumber(Field::Outside, 4, 1_000_000_000),
            "X6 Range: item 4 of \"outside\" is 1000000000, at most 999999999 is allowed",
        ),
    ]?;
    let frame = vec![in rt.alloc();
        (
            Detail::Absent(Field::Id),
            "X4 Absent: this frame has no \"id\""
        ),
        (
            Detail::WrongKind(Field::Frame, ValueKind::Float),
            "X5 WrongKind: an item of \"frame\" is a decimal number, a table is needed",
        ),
        (
            Detail::WrongKind(Field::Id, ValueKind::Datetime),
            "X5 WrongKind: \"id\" of this frame is a date or time, a string is needed; put it in quotation marks",
        ),
        (
            Detail::WrongItem(Field::Rows, 5, ValueKind::Array),
            "X5 WrongKind: row 5 of this frame is a list, a string is needed; write one pair of brackets",
        ),
        (
            Detail::Number(Field::Group, 0),
            "X6 Range: \"group\" of this frame is 0, at least 1 is needed; leave group out for a frame that is open to all",
        ),
        (
            Detail::BodyAndRows,
            "X7 BodyAndRows: this frame has both \"body\" and \"rows\", leave out one"
        ),
    ]?;
    say(rt.alloc(), None, None, top)?;
    say(rt.alloc(), Some(0), None, frame)
}

#[test]
fn faults_of_a_frame_have_their_words(rt: HostRuntime) -> Result<(), Fail> {
    let details = vec![in rt.alloc();
        (
            Detail::Absent(Field::Body),
            "X4 Absent: frame 33163a has no \"body\" and no \"rows\""
        ),
        (
            Detail::WrongKind(Field::Price, ValueKind::Float),
            "X5 WrongKind: \"price\" of frame 33163a is a decimal number, a whole number is needed; a price is whole pence: write 15",
        ),
        (
            Detail::WrongKind(Field::Next, ValueKind::String),
            "X5 WrongKind: \"next\" of frame 33163a is a string, true or false is needed; true or false, without quotation marks",
        ),
        (
            Detail::WrongKind(Field::Routes, ValueKind::Boolean),
            "X5 WrongKind: \"routes\" of frame 33163a is true or false, a table is needed",
        ),
        (
            Detail::WrongItem(Field::Routes, 3, ValueKind::String),
            "X5 WrongKind: route 3 of frame 33163a is a string, a whole number is needed; write the page number alone, without quotation marks",
        ),
        (
            Detail::Number(Field::Price, 10_000),
            "X6 Range: \"price\" of frame 33163a is 10000, at most 9999 is allowed",
        ),
        (
            Detail::ItemNumber(Field::Routes, 0, -1),
            "X6 Range: route 0 of frame 33163a is -1, at least 0 is needed",
        ),
        (
            Detail::TooManyRows(1_023),
            "X6 Range: frame 33163a has 1,023 rows, at most 22 are allowed"
        ),
        (
            Detail::RowTooLong(2, 41),
            "X8 RowTooLong: row 2 of frame 33163a has 41 characters, at most 40 are allowed",
        ),
    ]?;
    say(rt.alloc(), Some(0), Some(FrameId::read("33163a")?), details)
}

// The keys of tables that weren't meant, and what was.
#[test]
fn near_keys_are_proposed(rt: HostRuntime) -> Result<(), Fail> {
    let keys = [
        (
            TableKind::Frame,
            "pirce",
            "\"pirce\" is not a key of a frame; did you mean \"price\"?",
        ),
        (
            TableKind::Frame,
            "di",
            "\"di\" is not a key of a frame; did you mean \"id\"?",
        ),
        (TableKind::Frame, "x", "\"x\" is not a key of a frame"),
        (TableKind::Frame, "", "\"\" is not a key of a frame"),
        (
            TableKind::Frame,
            "PRICE",
            "\"PRICE\" is not a key of a frame; did you mean \"price\"?",
        ),
        (
            TableKind::Top,
            "outsides",
            "\"outsides\" is not a key of a base; did you mean \"outside\"?",
        ),
        (
            TableKind::Top,
            "fra",
            "\"fra\" is not a key of a base; did you mean \"frame\"?",
        ),
        (TableKind::Top, "out", "\"out\" is not a key of a base"),
        (
            TableKind::Routes,
            "10",
            "\"10\" is not a key of routes, use the digits 0 to 9",
        ),
    ];
    for (table, key, words) in keys {
        let detail = Detail::UnknownKey(table, Word::of(rt.alloc(), key)?);
        let out = words_of(rt.alloc(), None, &None, detail)?;
        same_in(
            words,
            out.as_bytes().strip_prefix(b"X3 UnknownKey: "),
            Some(words.as_bytes()),
        )?;
    }
    Ok(())
}

// Leads, and how they are quoted.
#[test]
fn texts_of_the_file_are_quoted(rt: HostRuntime) -> Result<(), Fail> {
    let texts = [
        ("cleer", "\"cleer\""),
        ("", "\"\""),
        ("a \"b\" \\", "\"a \\\"b\\\" \\\\\""),
        (
            "\u{1}\t\u{7F}\u{9F}\u{A1}\u{E9}",
            "\"\\u0001\\u0009\\u007F\\u009F\u{A1}\u{E9}\"",
        ),
        (
            "123456789012345678901234567890123456789\u{E9}",
            "\"123456789012345678901234567890123456789\u{E9}\"",
        ),
        (
            "1234567890123456789012345678901234567890\u{E9}",
            "\"1234567890123456789012345678901234567890...\"",
        ),
    ];
    for (text, quoted) in texts {
        let detail = Detail::BadFrame(Word::of(rt.alloc(), text)?);
        let out = words_of(rt.alloc(), Some(0), &None, detail)?;
        let end = b" is not a frame id; write a page number and one small letter, as 1231a";
        let words = out.as_bytes().strip_prefix(b"I2 BadFrame: ").ok_or("name")?;
        same_in(text, words.strip_suffix(end), Some(quoted.as_bytes()))?;
    }
    Ok(())
}

#[test]
fn characters_are_shown_with_their_code_points(rt: HostRuntime) -> Result<(), Fail> {
    let details = vec![in rt.alloc();
        (
            Detail::RowCode(2, 9, '\u{A3}'),
            "X9 RowCode: character 9 of row 2 of frame 1b is \u{A3} (U+00A3), which no row may have; write # for a pound sign",
        ),
        (
            Detail::RowCode(22, 1_000, '\t'),
            "X9 RowCode: character 1,000 of row 22 of frame 1b is U+0009, which no row may have; write spaces",
        ),
        (
            Detail::RowCode(1, 1, '\u{A0}'),
            "X9 RowCode: character 1 of row 1 of frame 1b is U+00A0, which no row may have; write a space",
        ),
        (
            Detail::MoreRowCodes(4, 1_011, 1),
            "X9 RowCode: row 4 of frame 1b has 1 more character that no row may have",
        ),
        (
            Detail::MoreRowCodes(4, 11, 1_234),
            "X9 RowCode: row 4 of frame 1b has 1,234 more characters that no row may have",
        ),
        (
            Detail::MoreBodyCodes(11, 1),
            "X6 Range: \"body\" of frame 1b has 1 more character above U+00FF",
        ),
        (
            Detail::MoreBodyCodes(11, 2),
            "X6 Range: \"body\" of frame 1b has 2 more characters above U+00FF",
        ),
        (
            Detail::BodyCode(1_501, '\u{2026}'),
            "X6 Range: character 1,501 of \"body\" of frame 1b is \u{2026} (U+2026), at most U+00FF is allowed",
        ),
        (
            Detail::BodyCode(7, '\u{2014}'),
            "X6 Range: character 7 of \"body\" of frame 1b is \u{2014} (U+2014), at most U+00FF is allowed; write -",
        ),
        (
            Detail::BodyCode(1, '\u{1F682}'),
            "X6 Range: character 1 of \"body\" of frame 1b is \u{1F682} (U+1F682), at most U+00FF is allowed",
        ),
        (
            Detail::BodyCode(1, '\u{10FFFD}'),
            "X6 Range: character 1 of \"body\" of frame 1b is \u{10FFFD} (U+10FFFD), at most U+00FF is allowed",
        ),
    ]?;
    say(rt.alloc(), Some(0), Some(FrameId::read("1b")?), details)
}
