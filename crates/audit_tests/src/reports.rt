//! Printed lines, beside the words that the program's formats give; most of them are in `tests/cases`.

use audit_report::{RunFault, change_text, entry_text, fault_text, verdict_text, walk_text};
use cert_text::ReadFault;
use checker::{Cause, ChangeVerdict, Verdict};
use frame_records::Pence;
use page_ids::{Digit, FrameId, PageNo};
use session_machine::Reply;
use std::test::Fail;
use test_support::{same, same_in};

#[test]
fn a_verdict_is_one_line(rt: HostRuntime) -> Result<(), Fail> {
    let id = FrameId::read("1231b")?;
    let last = FrameId::read("999999999z")?;
    let digit = Digit::new(9).ok_or("digit")?;
    let verdict = Verdict::Refused(Cause::Touches(id, 882));
    let longest = Verdict::Refused(Cause::RouteNotCovered(last, digit));
    let change = ChangeVerdict::New(Cause::Price(id));
    let line = verdict_text(rt.alloc(), &verdict)?;
    let longest_line = verdict_text(rt.alloc(), &longest)?;
    let change_line = change_text(rt.alloc(), &change)?;
    same(
        (
            line.as_slice(),
            longest_line.as_slice(),
            change_line.as_slice(),
        ),
        (
            b"REFUSED K9 Touches 1231b 882\n".as_slice(),
            b"REFUSED K11 RouteNotCovered 999999999z 9\n".as_slice(),
            b"NEW REFUSED K7 Price 1231b\n".as_slice(),
        ),
    )
}

#[test]
fn a_walk_is_a_line_for_each_reply(rt: HostRuntime) -> Result<(), Fail> {
    let id = FrameId::read("1231a")?;
    let price = Pence::new(5).ok_or("price")?;
    let page = PageNo::read("0")?;
    let replies = [
        Reply::Shown(id, price),
        Reply::Again(id),
        Reply::NotOffered,
        Reply::Missing(id),
        Reply::Closed(id),
        Reply::Gone(page),
    ];
    let text = walk_text(rt.alloc(), replies.as_slice())?;
    let none = walk_text(rt.alloc(), &[])?;
    let lines = "SHOWN 1231a 5\nAGAIN 1231a\nNOTOFFERED\nMISSING 1231a\nCLOSED 1231a\nGONE 0\n";
    same((text.as_slice(), none.len()), (lines.as_bytes(), 0))
}

#[test]
fn a_walk_of_100_000_replies_is_printed(rt: HostRuntime) -> Result<(), Fail> {
    let mut replies = Vec::new(rt.alloc());
    replies.resize(100_000, Reply::NotOffered)?;
    let lines = "NOTOFFERED\n".repeat(rt.alloc(), 100_000)?;
    let text = walk_text(rt.alloc(), replies.as_slice())?;
    same(text.as_slice() == lines.as_str().as_bytes(), true)
}

#[test]
fn an_entry_that_is_not_found_is_one_line(rt: HostRuntime) -> Result<(), Fail> {
    let id = FrameId::read("0a")?;
    let missing = entry_text(rt.alloc(), id, false)?;
    let closed = entry_text(rt.alloc(), id, true)?;
    same(
        (missing.as_slice(), closed.as_slice()),
        (
            b"ENTRYMISSING 0a\n".as_slice(),
            b"ENTRYCLOSED 0a\n".as_slice(),
        ),
    )
}

// Those that the program never prints, and one that it does.
#[test]
fn a_fault_is_one_line(rt: HostRuntime) -> Result<(), Fail> {
    for (fault, line) in [
        (RunFault::Cert(ReadFault::Failed), "certificate: failed\n"),
        (
            RunFault::NewCert(ReadFault::Failed),
            "new certificate: failed\n",
        ),
        (RunFault::Write(3), "output: write failed after 3 bytes\n"),
        (RunFault::Memory, "memory refused\n"),
    ] {
        let text = fault_text(rt.alloc(), &fault)?;
        same_in(line, text.as_slice(), line.as_bytes())?;
    }
    Ok(())
}
