//! Checks of one base of three frames, and of the largest base. More verdicts that the program prints are in `tests/cases`.

use crate::bases::base_of;
use crate::policies::policy;
use audit_report::verdict_text;
use cert_text::cert_read;
use checker::{ChangeVerdict, Verdict, check, check_bytes, check_change, check_counted};
use page_ids::PageNo;
use std::alloc::{AllocError, Global};
use std::test::Fail;
use test_support::{CERT, DEMO, same, same_in};

#[test]
fn two_texts_are_checked(rt: HostRuntime) -> Result<(), Fail> {
    let policy = policy(5, 1)?;
    let verdict = check_bytes(rt.alloc(), DEMO.as_bytes(), CERT.as_bytes(), &policy);
    same(verdict == Ok(Verdict::Cleared), true)
}

// What is in a text, and what takes its place.
type Edit = (&'static str, &'static str);

const SAME: Edit = ("entry", "entry");

// A change of the base and one of the certificate, the line of the verdict, and how much a check takes: comparisons, and bytes
// that are painted.
#[derive(Clone, Copy)]
struct Taken {
    base: Edit,
    cert: Edit,
    line: &'static str,
    taken: (u64, u64),
}

// Worked out by hand. Of three entries a binary search compares 2, 1 and 2 for the first, second and third, and 2 for any
// other; of two it compares 2 and 1, and 2, 2 and 1 before, between and after them. The bodies have 11, 12 and 10 bytes. The
// whole check compares:
//   the entry frame: 2
//   row 123a: its frame 2; route 0 the rows, 2, and the outside page, 1; route 1 1: 6
//   row 1231a: its frame 1; route 0 2; next 2: 5
//   row 1231b: its frame 2; route 0 2: 4
const TAKEN: [Taken; 12] = [
    Taken {
        base: SAME,
        cert: SAME,
        line: "CLEARED\n",
        taken: (17, 33),
    },
    // The first of three outside pages takes 2, not 1.
    Taken {
        base: ("outside = [0]", "outside = [0, 5, 7]"),
        cert: SAME,
        line: "CLEARED\n",
        taken: (18, 33),
    },
    Taken {
        base: SAME,
        cert: ("ceiling 5", "ceiling 6"),
        line: "REFUSED K2 CeilingAbove\n",
        taken: (0, 0),
    },
    Taken {
        base: SAME,
        cert: ("rows 3\n123a 0 s80\n1231a 1 s80\n", "rows 2\n1231a 1 s80\n"),
        line: "REFUSED K4 EntryNotCovered\n",
        taken: (2, 0),
    },
    // The entry frame, the first two rows, and 2 for the missing frame.
    Taken {
        base: ("1231b", "1232a"),
        cert: SAME,
        line: "REFUSED K5 NoFrame 1231b\n",
        taken: (15, 23),
    },
    // The entry frame, the first row, and the second row's frame.
    Taken {
        base: ("price = 5", "price = 6"),
        cert: SAME,
        line: "REFUSED K7 Price 1231a\n",
        taken: (9, 11),
    },
    // The same, and the second row's body of 3 bytes, of which the first is at fault.
    Taken {
        base: ("rows = [\"PART ONE\"]", "lead = \"keep\"\nbody = \"ABC\""),
        cert: SAME,
        line: "REFUSED K9 Touches 1231a 0\n",
        taken: (9, 14),
    },
    // The entry frame, and the first row's frame and body.
    Taken {
        base: SAME,
        cert: ("123a 0 s80", "123a 0 s81"),
        line: "REFUSED K10 CursorDiffers 123a\n",
        taken: (4, 11),
    },
    // The entry frame, the first row, and the second with route 9: the rows, 2, and the outside page.
    Taken {
        base: (
            "PART ONE\"]\nroutes = { 0 = 123 }",
            "PART ONE\"]\nroutes = { 0 = 123, 9 = 555 }",
        ),
        cert: SAME,
        line: "REFUSED K11 RouteNotCovered 1231a 9\n",
        taken: (16, 23),
    },
    // Two rows: the entry frame 2; row 123a 2, 2 and 1, and 1; row 1231a 1, 2, and for next 1.
    Taken {
        base: SAME,
        cert: (
            "rows 3\n123a 0 s80\n1231a 1 s80\n1231b 1 s48\n",
            "rows 2\n123a 0 s80\n1231a 1 s80\n",
        ),
        line: "REFUSED K12 NextNotCovered 1231a\n",
        taken: (12, 23),
    },
    // The third row's route 0 seeks among the rows 1 for frame 1231a, whose rank isn't lower.
    Taken {
        base: (
            "PART TWO\"\nroutes = { 0 = 123 }",
            "PART TWO\"\nroutes = { 0 = 1231 }",
        ),
        cert: SAME,
        line: "REFUSED K14 NoWayDown 1231b\n",
        taken: (16, 33),
    },
    // The third row's route 0 leads to the outside page, after the rows, 2.
    Taken {
        base: (
            "PART TWO\"\nroutes = { 0 = 123 }",
            "PART TWO\"\nroutes = { 0 = 0 }",
        ),
        cert: SAME,
        line: "REFUSED K14 NoWayDown 1231b\n",
        taken: (18, 33),
    },
];

// Whether a check of two texts gives this line, and what it took.
fn took(alloc: Global, base: &str, cert: &str, line: &str) -> Result<(bool, (u64, u64)), Fail> {
    let policy = policy(5, 1)?;
    let base = base_of(alloc, base)?;
    let cert = cert_read(alloc, cert.as_bytes())?;
    let (verdict, count) = check_counted(&base, &policy, &cert);
    let text = verdict_text(alloc, &verdict)?;
    let is_same = check(&base, &policy, &cert) == verdict;
    Ok((
        is_same && text.as_slice() == line.as_bytes(),
        (count.probes, count.steps),
    ))
}

#[test]
fn what_a_check_took_is_counted(rt: HostRuntime) -> Result<(), Fail> {
    for wanted in TAKEN {
        let (old, new) = wanted.base;
        let base = DEMO.replacen(rt.alloc(), old, new, 1)?;
        let (old, new) = wanted.cert;
        let cert = CERT.replacen(rt.alloc(), old, new, 1)?;
        let got = took(rt.alloc(), base.as_str(), cert.as_str(), wanted.line)?;
        same_in(wanted.line, got, (true, wanted.taken))?;
    }
    Ok(())
}

// The greatest number of frames, each on a page of its own and with a route to the first, and their certificate.
fn largest(alloc: Global) -> Result<(String, String), AllocError> {
    let mut base = String::new(alloc);
    let mut cert = String::new(alloc);
    base.push_str("entry=0\nframe=[{id=\"0a\",body=\"\"}")?;
    cert.push_str("PBC1\nentry 0\nceiling 0\nkeyings 1\nrows 65535\n0a 0 s40\n")?;
    for number in 1..65_535u32 {
        if let Some(page) = PageNo::new(999_000_000 + number) {
            let text = page.text();
            base.push_str(",{id=\"")?;
            base.push_str(text.as_str())?;
            base.push_str("a\",body=\"\",routes={0=0}}")?;
            cert.push_str(text.as_str())?;
            cert.push_str("a 1 s40\n")?;
        }
    }
    base.push_str("]\n")?;
    cert.push_str("end\n")?;
    Ok((base, cert))
}

#[test]
fn two_texts_of_65_535_frames_are_checked(rt: HostRuntime) -> Result<(), Fail> {
    let policy = policy(0, 1)?;
    let (base, cert) = largest(rt.alloc())?;
    let verdict = check_bytes(rt.alloc(), base.as_bytes(), cert.as_bytes(), &policy);
    same(
        (cert.len(), verdict == Ok(Verdict::Cleared)),
        (1_114_135, true),
    )
}

// An edition changes to itself.
#[test]
fn a_change_is_cleared_where_each_old_row_has_a_new_one(rt: HostRuntime) -> Result<(), Fail> {
    let policy = policy(50, 3)?;
    let cert = cert_read(rt.alloc(), CERT.as_bytes())?;
    let base = base_of(rt.alloc(), DEMO)?;
    let verdict = check_change(&base, &cert, &base, &cert, &policy);
    same(verdict == ChangeVerdict::Cleared, true)
}
