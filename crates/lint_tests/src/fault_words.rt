//! The words of an audit's faults, of frames that no walk reaches, and of counts.

use crate::printed::printed;
use abstract_paint::Start;
use fault_scripts::{Fault, FaultKind};
use frame_records::{GroupNo, Pence};
use lint_words::{Judged, audit_fault_words, none_reached_words, push_counted, unreached_words};
use page_ids::{FrameId, keys_read};
use std::alloc::Global;
use std::test::Fail;
use test_support::same_in;

// A fault as it is judged, and its words. The last key of the script is the one that seeks, if a frame is sought.
#[derive(Clone, Copy)]
struct Case {
    kind: FaultKind,
    frame: &'static str,
    sought: &'static str,
    script: &'static str,
    start: (u16, usize),
    has_rows: bool,
    rank: Option<u16>,
    keyings: u16,
    words: &'static str,
}

// A frame of page 331 that costs 55 where 50 are allowed. Where a frame isn't open it belongs to group 42.
const CASE: Case = Case {
    kind: FaultKind::Price,
    frame: "331a",
    sought: "",
    script: "",
    start: (0, 0),
    has_rows: false,
    rank: None,
    keyings: 3,
    words: "PRICE: frame 331a costs 55, the ceiling is 50 (at the entry page)",
};

const CASES: [Case; 13] = [
    CASE,
    Case {
        frame: "33163a",
        script: "63",
        words: "PRICE: frame 33163a costs 55, the ceiling is 50 (keys 63)",
        ..CASE
    },
    Case {
        kind: FaultKind::EntryMissing,
        words: "ENTRYMISSING: the entry page 331 has no frame a",
        ..CASE
    },
    Case {
        kind: FaultKind::EntryClosed,
        words: "ENTRYCLOSED: frame 331a, the entry page, is closed to these callers; it belongs to group 42",
        ..CASE
    },
    Case {
        kind: FaultKind::Touches,
        script: "*#",
        start: (959, 1_234),
        words: "TOUCHES: byte 1,234 of the body of frame 331a writes into a service row, from start 959 (keys *#)",
        ..CASE
    },
    Case {
        kind: FaultKind::Touches,
        has_rows: true,
        words: "TOUCHES: row 22 of frame 331a has double height, which writes into the last row (at the entry page)",
        ..CASE
    },
    Case {
        kind: FaultKind::Missing,
        frame: "3316a",
        sought: "33168a",
        script: "63",
        words: "MISSING: key 3 of frame 3316a leads to page 33168, which has no frame a (keys 63); write frame 33168a, or list 33168 in outside",
        ..CASE
    },
    Case {
        kind: FaultKind::Missing,
        frame: "33123a",
        sought: "33123b",
        script: "23#",
        words: "MISSING: key # of frame 33123a leads to frame 33123b, which the base lacks (keys 23#); write frame 33123b, or leave next out",
        ..CASE
    },
    Case {
        kind: FaultKind::Closed,
        sought: "3319a",
        script: "9",
        words: "CLOSED: key 9 of frame 331a leads to frame 3319a, which is closed to these callers; it belongs to group 42 (keys 9)",
        ..CASE
    },
    Case {
        kind: FaultKind::NoReturn,
        words: "NORETURN: no keys lead from frame 331a back to the entry page (at the entry page)",
        ..CASE
    },
    Case {
        kind: FaultKind::NoReturn,
        script: "54",
        rank: Some(4),
        words: "NORETURN: from frame 331a the entry page is 4 keys away, at most 3 are allowed (keys 54)",
        ..CASE
    },
    Case {
        kind: FaultKind::NoReturn,
        script: "54",
        rank: Some(1),
        keyings: 0,
        words: "NORETURN: from frame 331a the entry page is 1 key away, at most 0 are allowed (keys 54)",
        ..CASE
    },
    Case {
        kind: FaultKind::NoReturn,
        script: "54",
        rank: Some(65_535),
        keyings: 1,
        words: "NORETURN: from frame 331a the entry page is 65,535 keys away, at most 1 is allowed (keys 54)",
        ..CASE
    },
];

fn fault_of(alloc: Global, case: &Case) -> Result<Fault, Fail> {
    let script = keys_read(alloc, case.script)?;
    let sought = FrameId::read(case.sought).ok();
    let key = script.as_slice().last().copied();
    let (at, offset) = case.start;
    Ok(Fault {
        kind: case.kind,
        frame: FrameId::read(case.frame)?,
        key,
        sought,
        script,
        start: Some(Start {
            at,
            pending: false,
            offset,
        }),
        price: Pence::new(55).ok_or("price")?,
    })
}

fn judged_of(case: &Case) -> Result<Judged, Fail> {
    Ok(Judged {
        ceiling: Pence::new(50).ok_or("price")?,
        keyings: case.keyings,
        has_rows: case.has_rows,
        rank: case.rank,
        group: GroupNo::new(42),
    })
}

// The words of a fault as it is judged.
fn judged_words(alloc: Global, judged: &Judged, fault: &Fault) -> Result<String, Fail> {
    Ok(printed(alloc, &audit_fault_words(alloc, judged, fault, None)?)?)
}

// The words of a case's fault.
fn words_of(alloc: Global, case: &Case) -> Result<String, Fail> {
    let fault = fault_of(alloc, case)?;
    match judged_of(case) {
        Ok(judged) => judged_words(alloc, &judged, &fault),
        Err(fail) => Err(fail),
    }
}

#[test]
fn each_kind_of_fault_has_its_words(rt: HostRuntime) -> Result<(), Fail> {
    for case in CASES {
        let words = words_of(rt.alloc(), &case)?;
        same_in(case.words, words.as_str(), case.words)?;
    }
    Ok(())
}

#[test]
fn unreached_frames_and_counts_have_their_words(rt: HostRuntime) -> Result<(), Fail> {
    let counts = [
        (1, "UNREACHED: no key leads to 1 frame from the entry page"),
        (
            1_200,
            "UNREACHED: no key leads to 1,200 frames from the entry page",
        ),
    ];
    for (frames, wanted) in counts {
        let given = none_reached_words(rt.alloc(), frames)?;
        same_in(wanted, printed(rt.alloc(), &given)?.as_str(), wanted)?;
    }
    let words = "UNREACHED: no key leads to frame 3319a from the entry page";
    let given = unreached_words(rt.alloc(), FrameId::read("3319a")?, None)?;
    same_in(words, printed(rt.alloc(), &given)?.as_str(), words)?;
    let counts = [
        (0, 0, ""),
        (1, 0, "1 error"),
        (0, 1, "1 warning"),
        (2, 1, "2 errors, 1 warning"),
        (1, 65_534, "1 error, 65,534 warnings"),
        (1_000_000, 999, "1,000,000 errors, 999 warnings"),
    ];
    for (errors, warnings, words) in counts {
        let mut out = Vec::new(rt.alloc());
        push_counted(&mut out, errors, warnings)?;
        same_in(words, out.as_slice(), words.as_bytes())?;
    }
    Ok(())
}
