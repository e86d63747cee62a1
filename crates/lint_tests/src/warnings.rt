//! Warnings: what no caller reaches or sees as it was meant.

use crate::findings::{policy, prints};
use std::alloc::Global;
use std::test::Fail;

// The lines of texts whose first line is `entry = 1`, and how many errors and warnings there are.
fn all_print(alloc: Global, rows: &[(&str, &str, (usize, usize))]) -> Result<(), Fail> {
    for (rest, wanted, counts) in rows {
        let text = ["entry = 1\n", *rest].concat(alloc)?;
        let lines = wanted.replace(alloc, "@", "b.toml:")?;
        prints(alloc, &text, &policy(5, 9, "")?, lines.as_str(), *counts)?;
    }
    Ok(())
}

// The second base has a frame of group 7 besides, the third no frame that is open.
#[test]
fn without_an_entry_frame_the_frames_are_counted(rt: HostRuntime) -> Result<(), Fail> {
    let rows = [
        (
            "[[frame]]\nid = '2a'\nrows = []\n",
            "@1:9: error: ENTRYMISSING: the entry page 1 has no frame a\n\
             @1:9: warning: UNREACHED: no key leads to 1 frame from the entry page\n",
            (1, 1),
        ),
        (
            "[[frame]]\nid = '2a'\nrows = []\n[[frame]]\nid = '3a'\ngroup = 7\nrows = []\n[[frame]]\nid = '3b'\nrows = []\n",
            "@1:9: error: ENTRYMISSING: the entry page 1 has no frame a\n\
             @1:9: warning: UNREACHED: no key leads to 2 frames from the entry page\n\
             @6:6: warning: UNSOUGHT: no key of any frame leads to frame 3a, which belongs to group 7\n",
            (1, 2),
        ),
        (
            "",
            "@1:9: error: ENTRYMISSING: the entry page 1 has no frame a\n",
            (1, 0),
        ),
        (
            "[[frame]]\nid = '1a'\ngroup = 7\nrows = []\n[[frame]]\nid = '1b'\nrows = []\n",
            "@1:9: warning: UNREACHED: no key leads to 1 frame from the entry page\n\
             @3:6: warning: UNSOUGHT: no key of any frame leads to frame 1a, which belongs to group 7\n\
             @4:9: error: ENTRYCLOSED: frame 1a, the entry page, is closed to these callers; it belongs to group 7\n",
            (1, 2),
        ),
    ];
    all_print(rt.alloc(), &rows)
}

// A line feed of the file that keeps the column. None is warned of if it is an escape, if nothing follows in its column, or if that
// is the first.
#[test]
fn a_line_end_in_a_body_keeps_the_column(rt: HostRuntime) -> Result<(), Fail> {
    let alone =
        "LINEEND: a line of the body of frame 1a ends with a line feed alone, so the text goes on in the same column";
    let hint = "write \\u000D\\u000A at the end of each line";
    let line = format!(in rt.alloc(); "@5:6: warning: {alone}; {hint}\n")?;
    let third = format!(in rt.alloc(); "@7:1: warning: {alone}; {hint}\n")?;
    let rows = [
        (
            "[[frame]]\nid = '1a'\nbody = \"\"\"\nHELLO\nWORLD\n\"\"\"\n",
            line.as_str(),
            (0, 1),
        ),
        (
            "[[frame]]\nid = '1a'\nbody = '''\nHELLO\n\tWORLD'''\n",
            "",
            (0, 0),
        ),
        (
            "[[frame]]\nid = '1a'\nbody = \"\"\"\n\nHELLO\n\nWORLD\"\"\"\n",
            third.as_str(),
            (0, 1),
        ),
        (
            "[[frame]]\nid = '1a'\nbody = \"\"\"\nHELLO\\u000D\nWORLD\n\"\"\"\n",
            "",
            (0, 0),
        ),
        (
            "[[frame]]\nid = '1a'\nbody = \"HELLO\\nWORLD\"\n",
            "",
            (0, 0),
        ),
        (
            "[[frame]]\nid = '1a'\nbody = \"\"\"\nHELLO\\\nWORLD\n\"\"\"\n",
            "",
            (0, 0),
        ),
    ];
    all_print(rt.alloc(), &rows)
}

// CR LF of the file after text. None is warned of if one of the two is an escape, or if the return is in the first column.
#[test]
fn a_line_end_in_a_body_depends_on_the_file(rt: HostRuntime) -> Result<(), Fail> {
    let saved =
        "@5:8: warning: LINEEND: a line of the body of frame 1a ends with CR LF as the file does: saved with LF, the text goes on in the same column; write \\u000D\\u000A at the end of each line\n";
    let rows = [
        (
            "[[frame]]\nid = '1a'\nbody = \"\"\"\r\n\\tTEXT\r\nWORLD\r\nAGAIN\"\"\"\n",
            saved,
            (0, 1),
        ),
        (
            "[[frame]]\nid = '1a'\nbody = '''\r\n\r\n\r\nHELLO\r\n\r\n'''\n",
            "",
            (0, 0),
        ),
        (
            "[[frame]]\nid = '1a'\nbody = \"\"\"\nHELLO\\r\nWORLD\"\"\"\n",
            "",
            (0, 0),
        ),
        (
            "[[frame]]\nid = '1a'\nbody = \"HELLO\\r\\nWORLD\"\n",
            "",
            (0, 0),
        ),
    ];
    all_print(rt.alloc(), &rows)
}

// An escape in single quotation marks, and none in double ones or in a body.
#[test]
fn a_row_in_single_quotation_marks_has_no_escape(rt: HostRuntime) -> Result<(), Fail> {
    let rows = [
        (
            "[[frame]]\nid = '1a'\nrows = [ '\\u0081RED', \"\\u0082\", \"A\\\\u0083\", '''A\\u00''' ]\n",
            "@4:10: warning: ESCAPE: row 1 of frame 1a has \\u00 in single quotation marks, which is shown as it is; write the row in double quotation marks\n\
             @4:33: warning: ESCAPE: row 3 of frame 1a shows an escape as it is written; an escape is one \\, u and four digits, in double quotation marks\n\
             @4:45: warning: ESCAPE: row 4 of frame 1a has \\u00 in single quotation marks, which is shown as it is; write the row in double quotation marks\n",
            (0, 3),
        ),
        (
            "[[frame]]\nid = '1a'\nrows = ['\\u0', '\\U0081', '\\\\u 00']\n",
            "",
            (0, 0),
        ),
    ];
    all_print(rt.alloc(), &rows)
}

// The text below double height, of rows and not of a body.
#[test]
fn a_row_under_double_height_is_hidden(rt: HostRuntime) -> Result<(), Fail> {
    let rows = [
        (
            "[[frame]]\nid = '1a'\nrows = [\"\\u008DTITLE\", 'text', 'more']\n",
            "@4:24: warning: HIDDEN: row 2 of frame 1a is hidden by the double height of row 1; leave row 2 empty\n",
            (0, 1),
        ),
        (
            "[[frame]]\nid = '1a'\nbody = \"\\u008DTITLE\\u000D\\u000Atext\"\n",
            "",
            (0, 0),
        ),
    ];
    all_print(rt.alloc(), &rows)
}

// u00 and two digits after a backslash, a slash, a quotation mark or at a row's start; not after a letter, or in mosaics. A row
// has one such warning.
#[test]
fn a_row_that_shows_an_escape(rt: HostRuntime) -> Result<(), Fail> {
    let shows = "of frame 1a shows an escape as it is written; \
        an escape is one \\, u and four digits, in double quotation marks\n";
    let row = format!(in rt.alloc(); "@4:9: warning: ESCAPE: row 1 {shows}")?;
    let second = format!(in rt.alloc(); "@4:13: warning: ESCAPE: row 2 {shows}")?;
    let body = format!(in rt.alloc(); "@4:11: warning: ESCAPE: row 1 {shows}")?;
    let below = format!(in rt.alloc(); "@4:22: warning: ESCAPE: row 2 {shows}")?;
    let rows = [
        (
            "[[frame]]\nid = '1a'\nrows = [\"\\\\u0081RED\"]\n",
            row.as_str(),
            (0, 1),
        ),
        (
            "[[frame]]\nid = '1a'\nrows = ['', \"A /u008d /u0081\"]\n",
            second.as_str(),
            (0, 1),
        ),
        (
            "[[frame]]\nid = '1a'\nrows = ['u0081MOTOR']\n",
            row.as_str(),
            (0, 1),
        ),
        (
            "[[frame]]\nid = '1a'\nbody = \"\\\\u0081RED\"\n",
            body.as_str(),
            (0, 1),
        ),
        (
            "[[frame]]\nid = '1a'\nbody = '!\"u0081RED'\n",
            body.as_str(),
            (0, 1),
        ),
        (
            "[[frame]]\nid = '1a'\nbody = \"A\\u000D\\u000Au0081\"\n",
            below.as_str(),
            (0, 1),
        ),
        (
            "[[frame]]\nid = '1a'\nrows = ['Au0081', ' u0081', '/u00G1', '/U0081', \"\\u0091/u0081\"]\n",
            "",
            (0, 0),
        ),
    ];
    all_print(rt.alloc(), &rows)
}

// A line of a menu without a route, beside two that have theirs in the same column and colour.
#[test]
fn a_menu_offers_a_key_without_a_route(rt: HostRuntime) -> Result<(), Fail> {
    let offers = "offers key 7, which has no route; add route 7, or begin the row with a word\n";
    let third = format!(in rt.alloc(); "@5:28: warning: MENU: row 3 of frame 1a {offers}")?;
    let frame = "[[frame]]\nid = '1a'\nroutes = { 1 = 1, 2 = 1 }\n";
    let rows = [
        ("rows = ['1 Sand', '2 Sea', '7 Crew']\n", third.as_str(), 1),
        (
            "body = \"1 Sand\\r\\n2 Sea\\r\\n7 Crew\"\n",
            third.as_str(),
            1,
        ),
        (
            "body = \"1 Sand\\r\\n2 Sea\\r\\n7xCrew\\r\\t \"\n",
            third.as_str(),
            1,
        ),
        ("rows = ['1 Sand', '2 Sea', ' 7 Crew']\n", "", 0),
        ("rows = ['1 Sand', '2 Sea', '7']\n", "", 0),
        ("rows = ['1 Sand', '2 Sea', '77 Crew']\n", "", 0),
        ("rows = ['1 Sand', '3 Sea', '7 Crew']\n", "", 0),
        (
            "rows = ['1 Sand', '2 Sea', '', \"\\u00987 Crew\", \"\\u0093!7 Crew\"]\n",
            "",
            0,
        ),
        (
            "rows = [\"\\u00811 Sand\", \"\\u00812 Sea\", \"\\u00827 Crew\"]\n",
            "",
            0,
        ),
        (
            "rows = [\"\\u00811 Sand\", \"\\u00812 Sea\", \"\\u008DHIGH\", \"\\u00817 Crew\"]\n",
            "@5:54: warning: HIDDEN: row 4 of frame 1a is hidden by the double height of row 3; leave row 4 empty\n",
            1,
        ),
    ];
    for (shown, wanted, warnings) in &rows {
        let text = ["entry = 1\n", frame, *shown].concat(rt.alloc())?;
        let lines = wanted.replace(rt.alloc(), "@", "b.toml:")?;
        prints(
            rt.alloc(),
            &text,
            &policy(5, 9, "")?,
            lines.as_str(),
            (0, *warnings),
        )?;
    }
    Ok(())
}

// Closed frames to which no way leads: one of an open frame, of a closed one, and `next` count.
#[test]
fn a_closed_frame_that_no_way_seeks(rt: HostRuntime) -> Result<(), Fail> {
    let top = "[[frame]]\nid = '1a'\nroutes.7 = 7\nrows = []\n";
    let closed =
        "[[frame]]\nid = '7a'\ngroup = 3\nnext = true\nrows = []\n[[frame]]\nid = '7b'\ngroup = 3\nroutes = { 0 = 7 }\nrows = []\n";
    let more = "[[frame]]\nid = '8a'\ngroup = 3\nroutes = { 0 = 7 }\nrows = []\n";
    let text = ["entry = 1\n", top, closed, more].concat(rt.alloc())?;
    prints(
        rt.alloc(),
        &text,
        &policy(5, 9, "")?,
        "b.toml:4:8: error: CLOSED: key 7 of frame 1a leads to frame 7a, which is closed to these callers; it belongs to group 3 (keys 7)\n\
         b.toml:17:6: warning: UNSOUGHT: no key of any frame leads to frame 8a, which belongs to group 3\n",
        (1, 1),
    )
}
