//! What is printed of a text.

use checker::Policy;
use finding_forms::{Format, findings_text};
use frame_records::{Groups, Pence};
use lint::{Counts, counted_text, lint};
use std::alloc::Global;
use std::test::Fail;
use test_support::{same, same_in};

pub fn policy(ceiling: u16, keyings: u16, groups: &str) -> Result<Policy, Fail> {
    let groups = if groups.is_empty() {
        Ok(Groups::none())
    } else {
        Groups::read(groups)
    };
    match (Pence::new(ceiling), groups) {
        (Some(ceiling), Ok(groups)) => Ok(Policy {
            ceiling,
            keyings,
            groups,
        }),
        _ => Err(Fail::new("no policy")),
    }
}

// The lines of a text, and how many errors and warnings there are.
pub fn prints(
    alloc: Global,
    text: &str,
    policy: &Policy,
    lines: &str,
    counts: (usize, usize),
) -> Result<(), Fail> {
    let findings = lint(alloc, text.as_bytes(), policy)?;
    let printed = findings_text(
        alloc,
        Format::Line,
        b"b.toml",
        text.as_bytes(),
        findings.as_slice(),
    )?;
    same_in(text, str::from_utf8(printed.as_slice()), Ok(lines))?;
    let Counts { errors, warnings } = Counts::of(findings.as_slice());
    same_in(text, (errors, warnings), counts)
}

// An unknown key at the end of the top comes after what is written before it, though it is judged first.
#[test]
fn all_faults_of_a_text_are_printed_in_the_order_of_their_places(
    rt: HostRuntime,
) -> Result<(), Fail> {
    let text = "entry = -1\noutsides = [0]\n[[frame]]\nid = \"1a\"\nprice = 10000\nrows = []\n\
        [[frame]]\nid = \"2a\"\nrows = []\n[[frame]]\nid = \"2a\"\nrows = []\n";
    let lines = "b.toml:1:9: error: X6 Range: \"entry\" is -1, at least 0 is needed\n\
        b.toml:2:1: error: X3 UnknownKey: \"outsides\" is not a key of a base; did you mean \"outside\"?\n\
        b.toml:5:9: error: X6 Range: \"price\" of frame 1a is 10000, at most 9999 is allowed\n\
        b.toml:11:6: error: B1 Duplicate: frame 2a is defined already on line 8\n";
    prints(rt.alloc(), text, &policy(9_999, 9, "")?, lines, (4, 0))
}

// 1,500 outside pages below 0 are 1,000 findings, and one more for the 500 others; a frame's own fault is listed besides.
#[test]
fn beyond_1_000_faults_of_a_table_one_finding_has_their_number(
    rt: HostRuntime,
) -> Result<(), Fail> {
    let pages = "-1, ".repeat(rt.alloc(), 1_500)?;
    let text = format!(in rt.alloc(); "entry = 1\noutside = [{pages}]\n[[frame]]\nid = \"1a\"\n")?;
    let findings = lint(rt.alloc(), text.as_bytes(), &policy(5, 1, "")?)?;
    let printed = findings_text(
        rt.alloc(),
        Format::Line,
        b"b.toml",
        text.as_bytes(),
        findings.as_slice(),
    )?;
    let lines = str::from_utf8(printed.as_slice())?;
    let last: Vec<&str> = lines.lines().skip(999).collect(rt.alloc())?;
    same(
        last.as_slice(),
        &[
            "b.toml:2:4008: error: X6 Range: item 1,000 of \"outside\" is -1, at least 0 is needed",
            "b.toml:2:4012: error: X6 Range: 500 more faults at the top, not listed",
            "b.toml:4:6: error: X4 Absent: frame 1a has no \"body\" and no \"rows\"",
        ],
    )
}

const SHOP: &str =
    "entry = 1\n[[frame]]\nid = \"1a\"\nnext = true\nprice = 5\nrows = []\nroutes = { 3 = 4 }\n\
    [[frame]]\nid = \"1b\"\nrows = []\nroutes.0 = 1\n[[frame]]\nid = \"2a\"\nrows = []\n\
    [[frame]]\nid = \"3a\"\ngroup = 7\nrows = []\n";

// Frame 1b is reached by # alone, and frame 3a is open to members of group 7 only.
#[test]
fn an_audit_is_printed_with_the_frames_that_no_key_reaches(rt: HostRuntime) -> Result<(), Fail> {
    let missing =
        "b.toml:7:12: error: MISSING: key 3 of frame 1a leads to page 4, which has no frame a (keys 3); write frame 4a, or list 4 in outside\n\
        b.toml:13:6: warning: UNREACHED: no key leads to frame 2a from the entry page\n\
        b.toml:16:6: warning: UNSOUGHT: no key of any frame leads to frame 3a, which belongs to group 7\n";
    prints(rt.alloc(), SHOP, &policy(5, 1, "")?, missing, (1, 2))?;
    let closed =
        "b.toml:5:9: error: PRICE: frame 1a costs 5, the ceiling is 4 (at the entry page)\n\
        b.toml:7:12: error: MISSING: key 3 of frame 1a leads to page 4, which has no frame a (keys 3); write frame 4a, or list 4 in outside\n\
        b.toml:9:6: error: NORETURN: from frame 1b the entry page is 1 key away, at most 0 are allowed (keys #)\n\
        b.toml:13:6: warning: UNREACHED: no key leads to frame 2a from the entry page\n\
        b.toml:16:6: warning: UNREACHED: no key leads to frame 3a from the entry page\n";
    prints(rt.alloc(), SHOP, &policy(4, 0, "7")?, closed, (3, 2))
}

#[test]
fn a_text_that_is_not_toml_is_one_error(rt: HostRuntime) -> Result<(), Fail> {
    let findings = lint(rt.alloc(), b"entry = 1\noutside = [\n", &policy(5, 1, "")?)?;
    same(
        Counts::of(findings.as_slice()),
        Counts {
            errors: 1,
            warnings: 0,
        },
    )
}

#[test]
fn a_right_base_prints_nothing(rt: HostRuntime) -> Result<(), Fail> {
    let text = "entry = 1\n[[frame]]\nid = \"1a\"\nrows = [\"HELLO\"]\n";
    prints(rt.alloc(), text, &policy(0, 0, "")?, "", (0, 0))
}

#[test]
fn counts_are_printed_if_there_are_some(rt: HostRuntime) -> Result<(), Fail> {
    let rows = [
        (0, 0, ""),
        (1, 0, "1 error\n"),
        (2, 1, "2 errors, 1 warning\n"),
        (0, 3, "3 warnings\n"),
    ];
    for (errors, warnings, wanted) in rows {
        let text = counted_text(rt.alloc(), &Counts { errors, warnings })?;
        same_in(wanted, str::from_utf8(text.as_slice()), Ok(wanted))?;
    }
    Ok(())
}

#[test]
fn a_line_has_no_control_character(rt: HostRuntime) -> Result<(), Fail> {
    let rows: [(&[u8], &str); 3] = [
        (b"a\nb\x1B[31m", "a\\u{a}b\\u{1b}[31m:1:9: error: "),
        (
            b"caf\xC3\xA9\x7F\xC2\x85",
            "caf\u{E9}\\u{7f}\\u{85}:1:9: error: ",
        ),
        (b"\xFF.toml", "\u{FFFD}.toml:1:9: error: "),
    ];
    for (path, front) in rows {
        let findings = lint(rt.alloc(), b"entry = 1\n", &policy(5, 1, "")?)?;
        let printed = findings_text(
            rt.alloc(),
            Format::Line,
            path,
            b"entry = 1\n",
            findings.as_slice(),
        )?;
        let printed = str::from_utf8(printed.as_slice())?;
        same_in(front, printed.starts_with(front), true)?;
        same_in(front, printed.lines().count(), 1)?;
    }
    Ok(())
}

// What is written as the page of the last route, and as an item of `outside`, decides the hint.
#[test]
fn hints_go_by_the_value_as_it_is_written(rt: HostRuntime) -> Result<(), Fail> {
    let text =
        "entry = 1\noutside = [\"5a\", 7]\n[[frame]]\nid = \"1a\"\nroutes = { 9 = \"5a\" }\nrows = []\n";
    let lines =
        "b.toml:2:12: error: X5 WrongKind: item 1 of \"outside\" is a string, a whole number is needed; a page number has no letter: write 5\n\
        b.toml:5:12: error: X5 WrongKind: route 9 of frame 1a is a string, a whole number is needed; a page number has no letter: write 5\n";
    prints(rt.alloc(), text, &policy(9_999, 9, "")?, lines, (2, 0))
}
