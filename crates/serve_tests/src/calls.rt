//! Calls of an edition in memory.

use crate::line::{CallerKeys, CallerTerminal, Notes, OneEdition, Wire};
use edition_checks::ServedFault;
use editions::EditionFile;
use one_call::{CallFault, ServeFault, parts_are_safe, parts_are_seen, serve};
use std::alloc::Global;
use std::test::Fail;
use terminal_codes::Terminal;
use test_support::{CERT, DEMO, FakeSink, FakeSource, same, same_in};

const POLICY: &str = "ceiling = 5\nkeyings = 1\n";

// A call: what the caller's terminal took, how many answers had come before each read, and how it ended.
#[derive(Drop)]
struct Called {
    taken: Vec<u8>,
    before: Vec<usize>,
    end: Result<(), CallFault>,
}

fn edition<'a>(current: &'a str, base: &'a str, policy: &'a str) -> OneEdition<'a> {
    OneEdition {
        current,
        base,
        cert: CERT,
        policy,
    }
}

fn dial(alloc: Global, mut folder: OneEdition, bytes: &[u8], room: usize) -> Called {
    let wire = Wire::new();
    let mut source = CallerKeys {
        wire: &wire,
        bytes,
        before: Vec::new(alloc),
        failed: false,
    };
    let mut sink = CallerTerminal {
        wire: &wire,
        taken: Vec::new(alloc),
        room,
        flushes: 0,
        failed: false,
    };
    let end = serve(
        alloc,
        &mut folder,
        &mut source,
        &mut sink,
        &mut Notes::new(alloc),
    );
    Called {
        taken: sink.taken,
        before: source.before,
        end,
    }
}

// A row of a terminal that took these bytes.
fn row(taken: &[u8], row: usize) -> [u8; 40] {
    let mut terminal = Terminal::new();
    terminal.run(taken);
    let mut codes = [0; 40];
    let cells = terminal.cells();
    for column in 0..40 {
        codes[column] = cells
            .get(row.saturating_mul(40).saturating_add(column))
            .copied()
            .unwrap_or(0);
    }
    codes
}

// The codes of a row's text, with blanks after it.
fn codes_of(words: &str) -> [u8; 40] {
    let mut codes = [b' '; 40];
    for (at, code) in words.as_bytes().iter().enumerate() {
        if at < 40 {
            codes[at] = *code;
        }
    }
    codes
}

const ROWS_23: [(&[u8], &str); 10] = [
    (b"", ""),
    (b"7", "KEY NOT IN USE"),
    (b"7*0", "*0"),
    (b"7*0**", "KEY NOT IN USE"),
    (b"71", ""),
    (b"1*#", ""),
    (b"*1234", "*1234"),
    (b"*1234#", "PAGES CANNOT BE KEYED HERE"),
    (b"7*00", ""),
    (b"*90#", "GOODBYE"),
];

#[test]
fn row_23_has_the_command_or_the_last_words(rt: HostRuntime) -> Result<(), Fail> {
    let alloc = rt.alloc();
    for (bytes, words) in ROWS_23 {
        let call = dial(alloc, edition("7\n", DEMO, POLICY), bytes, usize::MAX);
        same_in(bytes, row(call.taken.as_slice(), 23), codes_of(words))?;
        same_in(bytes, call.end.is_ok(), true)?;
    }
    Ok(())
}

// How many answers had come before each read.
const BEFORE: [(&[u8], &[usize]); 5] = [
    // the entry frame comes before the first read
    (b"", &[1]),
    (b"17*00", &[1, 2, 3, 4, 5, 6]),
    // what is no key has no answer
    (b"a\xff\xfd\x237", &[1, 1, 1, 1, 1, 2]),
    // nothing is read after the end of the call
    (b"*90#1", &[1, 2, 3, 4]),
    (b"01", &[1]),
];

#[test]
fn each_answer_goes_out_before_the_next_byte_is_read(rt: HostRuntime) -> Result<(), Fail> {
    let alloc = rt.alloc();
    for (bytes, before) in BEFORE {
        let call = dial(alloc, edition("7\n", DEMO, POLICY), bytes, usize::MAX);
        same_in(bytes, call.before.as_slice(), before)?;
        same_in(bytes, call.end.is_ok(), true)?;
    }
    Ok(())
}

// What is keyed, and rows 0 and 1 then.
const ROWS_0: [(&[u8], &str, &str); 5] = [
    (b"", "                               123a   0p", "WELCOME"),
    (b"1", "                              1231a   5p", "PART ONE"),
    (
        b"1*00",
        "                              1231a   5p",
        "PART ONE",
    ),
    (
        b"1*#",
        "                               123a   0p",
        "WELCOME",
    ),
    (
        b"1#7*1",
        "                              1231b   0p",
        "PART TWO",
    ),
];

#[test]
fn row_0_has_the_id_and_the_price_of_the_last_frame(rt: HostRuntime) -> Result<(), Fail> {
    let alloc = rt.alloc();
    for (bytes, top, first) in ROWS_0 {
        let call = dial(alloc, edition("7\n", DEMO, POLICY), bytes, usize::MAX);
        same_in(bytes, row(call.taken.as_slice(), 0), codes_of(top))?;
        same_in(bytes, row(call.taken.as_slice(), 1), codes_of(first))?;
    }
    parts_are_seen();
    parts_are_safe();
    Ok(())
}

#[test]
fn line_that_breaks_has_a_beginning_of_the_call(rt: HostRuntime) -> Result<(), Fail> {
    let alloc = rt.alloc();
    let whole = dial(alloc, edition("7\n", DEMO, POLICY), b"17*#", usize::MAX);
    for room in 0..whole.taken.len() {
        let call = dial(alloc, edition("7\n", DEMO, POLICY), b"17*#", room);
        same(call.taken.as_slice(), &whole.taken.as_slice()[..room])?;
        match call.end {
            Err(CallFault::Line(ServeFault::Write)) => {}
            _ => return Err(Fail::from("no fault of the line")),
        }
    }
    Ok(())
}

// Why a call isn't begun.
fn why(end: &Result<(), CallFault>) -> &'static str {
    match end {
        Ok(()) => "a call",
        Err(CallFault::Unpublished) => "unpublished",
        Err(CallFault::Unnamed) => "unnamed",
        Err(CallFault::Folder) => "folder",
        Err(CallFault::Edition(_, ServedFault::Missing(file))) => file.name(),
        Err(CallFault::Edition(_, ServedFault::Unread(EditionFile::Policy))) => "policy unread",
        Err(CallFault::Edition(_, _)) => "unread",
        Err(CallFault::Refused(7, _)) => "refused",
        Err(CallFault::Refused(_, _)) => "another is refused",
        Err(CallFault::Line(_)) => "line",
        Err(CallFault::Memory) => "memory",
    }
}

const UNSERVED: [(&str, &str, &str, &str); 12] = [
    ("", DEMO, POLICY, "unpublished"),
    ("7", DEMO, POLICY, "unnamed"),
    ("07\n", DEMO, POLICY, "unnamed"),
    ("8\n", DEMO, POLICY, "base.toml"),
    ("7\n", "entry = x\n", POLICY, "unread"),
    ("7\n", DEMO, "", "policy.toml"),
    ("7\n", DEMO, "ceiling = 5\n", "policy unread"),
    ("7\n", DEMO, "ceiling = 4\nkeyings = 1\n", "refused"),
    ("7\n", "entry = 123\n", POLICY, "refused"),
    ("!", DEMO, POLICY, "folder"),
    ("7\n", "!", POLICY, "folder"),
    ("7\n", DEMO, "!", "folder"),
];

#[test]
fn what_is_not_cleared_is_not_served(rt: HostRuntime) -> Result<(), Fail> {
    let alloc = rt.alloc();
    for (current, base, policy, fault) in UNSERVED {
        let call = dial(alloc, edition(current, base, policy), b"1", usize::MAX);
        same_in(fault, why(&call.end), fault)?;
        same_in(fault, call.taken.len(), 0)?;
        same_in(fault, call.before.len(), 0)?;
    }
    Ok(())
}

#[test]
fn line_that_cannot_be_read_has_the_answers_before(rt: HostRuntime) -> Result<(), Fail> {
    let alloc = rt.alloc();
    let mut folder = edition("7\n", DEMO, POLICY);
    let mut source = FakeSource::of(b"1", 1);
    let mut sink = FakeSink::of(alloc, 7);
    let mut notes = Notes::new(alloc);
    let end = serve(alloc, &mut folder, &mut source, &mut sink, &mut notes);
    same(end.is_ok(), true)?;
    same(sink.flushed, sink.taken.len())?;
    same(notes.text.as_slice(), b"+7k".as_slice())?;
    let mut broken = FakeSource::broken(b"1", 1, 0);
    let mut other = FakeSink::of(alloc, 7);
    let end = serve(alloc, &mut folder, &mut broken, &mut other, &mut notes);
    same(matches!(end, Err(CallFault::Line(ServeFault::Read))), true)
}
