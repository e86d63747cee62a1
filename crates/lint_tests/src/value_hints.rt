//! The hints for values and keys of a text, and for a body that touches a service row.

use crate::printed::hint;
use abstract_paint::Start;
use base_text::{Detail, Field, TableKind, TextFault, ValueKind, Word};
use fault_scripts::{Fault, FaultKind};
use frame_records::{Body, Frame, Lead, Pence};
use lint_words::{Judged, Written, audit_fault_words, text_fault_words};
use page_ids::{FrameId, KeyList};
use std::alloc::Global;
use std::test::Fail;
use test_support::same_in;

fn hint_of(alloc: Global, detail: Detail, value: &str) -> Result<String, Fail> {
    let fault = TextFault {
        frame: None,
        id: None,
        detail,
        unlisted: 0,
    };
    let written = Written {
        value: value.as_bytes(),
        in_header: false,
        first_frame: 3,
    };
    Ok(hint(alloc, &text_fault_words(alloc, &fault, &written)?)?)
}

#[test]
fn a_value_of_another_kind_by_its_key(rt: HostRuntime) -> Result<(), Fail> {
    let text = ValueKind::String;
    let pence = "; a price is whole pence: write 15";
    let unquote = "; leave out the quotation marks";
    let rows = [
        (Field::Price, text, "\"15p\"", pence),
        (Field::Price, text, "\"\u{A3}0.15\"", pence),
        (Field::Price, ValueKind::Float, "0.15", pence),
        (
            Field::Price,
            text,
            "'1,500'",
            "; a price is whole pence: write 1500",
        ),
        (
            Field::Price,
            text,
            "\"9999p\"",
            "; a price is whole pence: write 9999",
        ),
        (Field::Price, text, "\"100.00\"", "; a price is whole pence"),
        (Field::Price, text, "\"0.5p\"", "; a price is whole pence"),
        (
            Field::Price,
            text,
            "\"\u{A3}.5\"",
            "; a price is whole pence: write 50",
        ),
        (Field::Price, text, "\"free\"", "; a price is whole pence"),
        (Field::Price, text, "\"15\"", unquote),
        (Field::Entry, text, "\"620\"", unquote),
        (
            Field::Entry,
            text,
            "\"620a\"",
            "; a page number has no letter: write 620",
        ),
        (
            Field::Entry,
            text,
            "\"main\"",
            "; a page number is digits alone",
        ),
        (Field::Group, text, "\"7\"", unquote),
        (
            Field::Group,
            text,
            "\"A\"",
            "; a group is a number from 1 to 65535",
        ),
        (
            Field::Next,
            text,
            "\"true\"",
            "; true or false, without quotation marks",
        ),
        (
            Field::Routes,
            ValueKind::Array,
            "[6203]",
            "; write routes = { 0 = 6203 }",
        ),
        (
            Field::Routes,
            text,
            "\"1 = 4001\"",
            "; write routes in braces, as routes = { 0 = 1231 }",
        ),
        (
            Field::Lead,
            ValueKind::Boolean,
            "true",
            "; write \"keep\" or \"clear\"",
        ),
        (
            Field::Routes,
            ValueKind::Integer,
            "6203",
            "; write routes = { 0 = 6203 }",
        ),
        (Field::Routes, ValueKind::Float, "1.5", ""),
        (Field::Outside, ValueKind::Integer, "0", "; write [0]"),
        (Field::Outside, ValueKind::Float, "1.5", ""),
        (Field::Outside, text, "\"0\"", "; write [0]"),
        (Field::Outside, text, "\"0, 1\"", "; write [0, 1]"),
        (
            Field::Outside,
            text,
            "\"0, none\"",
            "; write a list in square brackets, as [0, 1] or [\"A\", \"B\"]",
        ),
        (Field::Rows, text, "\"A\"", "; write [\"A\"]"),
        (
            Field::Rows,
            text,
            "\"\"\"A\nB\"\"\"",
            "; write a list in square brackets, as [0, 1] or [\"A\", \"B\"]",
        ),
        (
            Field::Id,
            ValueKind::Array,
            "[\"620a\"]",
            "; write one text, without brackets",
        ),
        (
            Field::Body,
            ValueKind::Array,
            "[\"A\", \"B\"]",
            "; write a list of texts as rows",
        ),
        (Field::Id, ValueKind::Integer, "620", "; write \"620a\""),
        (
            Field::Id,
            ValueKind::Integer,
            "-620",
            "; put it in quotation marks",
        ),
    ];
    for (field, kind, value, wanted) in rows {
        let given = hint_of(rt.alloc(), Detail::WrongKind(field, kind), value)?;
        same_in(value, given.as_str(), wanted)?;
    }
    let route = Detail::WrongItem(Field::Routes, 0, text);
    let given = hint_of(rt.alloc(), route, "\"6203a\"")?;
    same_in(
        "route",
        given.as_str(),
        "; a page number has no letter: write 6203",
    )
}

#[test]
fn a_key_of_another_table_and_a_group_0(rt: HostRuntime) -> Result<(), Fail> {
    let next = "; for the next frame write next = true";
    let above = "; move it above line 3, where the first frame begins";
    let keys = [
        (TableKind::Frame, "entry", above),
        (TableKind::Frame, "outside", above),
        (TableKind::Routes, "#", next),
        (TableKind::Frame, "pirce", "; did you mean \"price\"?"),
        (
            TableKind::Frame,
            "text",
            "; write what it shows as rows = [\"A\", \"B\"]",
        ),
    ];
    for (table, key, wanted) in keys {
        let detail = Detail::UnknownKey(table, Word::of(rt.alloc(), key)?);
        same_in(key, hint_of(rt.alloc(), detail, "")?.as_str(), wanted)?;
    }
    let group = hint_of(rt.alloc(), Detail::Number(Field::Group, 0), "0")?;
    let wanted = "; leave group out for a frame that is open to all";
    same_in("group", group.as_str(), wanted)
}

#[test]
fn an_id_that_does_not_read(rt: HostRuntime) -> Result<(), Fail> {
    let rows = [
        ("06203a", "; write 6203a"),
        ("6203", "; write 6203a"),
        (
            "6203A",
            "; write a page number and one small letter, as 1231a",
        ),
        (
            "1234567890a",
            "; write a page number and one small letter, as 1231a",
        ),
        ("", "; write a page number and one small letter, as 1231a"),
    ];
    for (id, wanted) in rows {
        let detail = Detail::BadFrame(Word::of(rt.alloc(), id)?);
        same_in(id, hint_of(rt.alloc(), detail, "")?.as_str(), wanted)?;
    }
    Ok(())
}

#[test]
fn a_character_that_has_a_code(rt: HostRuntime) -> Result<(), Fail> {
    let rows = [
        ('\u{A3}', "; write # for a pound sign"),
        ('\u{BD}', "; write \\\\ for \u{BD}"),
        ('\u{2192}', "; write ] for \u{2192}"),
        ('\u{201C}', "; write \\\""),
        (
            '\u{1B}',
            "; write the attribute by its code, \\u0080 to \\u009F",
        ),
        ('\u{E9}', ""),
    ];
    for (c, wanted) in rows {
        let given = hint_of(rt.alloc(), Detail::RowCode(1, 1, c), "")?;
        same_in(wanted, given.as_str(), wanted)?;
    }
    Ok(())
}

// The hint for a frame with this body that touches at the byte of an offset.
fn touching(alloc: Global, lead: Lead, body: &[u8], offset: usize) -> Result<String, Fail> {
    let mut bytes = Vec::new(alloc);
    bytes.extend_from_slice(body)?;
    let frame = Frame {
        id: FrameId::read("1a")?,
        price: Pence::new(0).ok_or("price")?,
        group: None,
        next: false,
        routes: [None; 10],
        lead,
        body: Body::of(bytes),
    };
    let fault = Fault {
        kind: FaultKind::Touches,
        frame: FrameId::read("1a")?,
        key: None,
        sought: None,
        script: KeyList::of(Vec::new(alloc)),
        start: Some(Start {
            at: 0,
            pending: false,
            offset,
        }),
        price: Pence::new(0).ok_or("price")?,
    };
    let judged = Judged {
        ceiling: Pence::new(0).ok_or("price")?,
        keyings: 0,
        has_rows: false,
        rank: None,
        group: None,
    };
    let words = audit_fault_words(alloc, &judged, &fault, Some(&frame))?;
    Ok(hint(alloc, &words)?)
}

#[test]
fn a_body_that_touches_has_its_cause(rt: HostRuntime) -> Result<(), Fail> {
    let many = [b'\n'; 22];
    let rows: [(Lead, &[u8], usize, &str); 6] = [
        (
            Lead::Clear,
            b"\x0CA",
            1,
            "; the body begins with \\u000C, which clears all 24 rows",
        ),
        (Lead::Clear, b"A\x0CB", 2, "; \\u000C clears all 24 rows"),
        (
            Lead::Keep,
            b"A",
            0,
            "; a body with lead = \"keep\" must begin with \\u001E\\u000A",
        ),
        (Lead::Clear, &many, 21, "; 23 rows are written, 22 are free"),
        (Lead::Clear, &many[1..], 20, ""),
        (
            Lead::Clear,
            b"\x1EA",
            1,
            "; \\u001E goes to row 0: write \\u001E\\u000A",
        ),
    ];
    for (lead, body, offset, wanted) in rows {
        let given = touching(rt.alloc(), lead, body, offset)?;
        same_in(wanted, given.as_str(), wanted)?;
    }
    Ok(())
}
