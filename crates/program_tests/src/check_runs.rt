//! The checks.

use crate::expected::{ALL, Answer, File, policy, sink, source, taken};
use audit_report::RunFault;
use cert_text::{LineCause, ReadFault};
use checker::Policy;
use pageaudit::{run_check, status_of};
use std::alloc::Global;
use std::test::Fail;
use test_support::{CERT, DEMO, same, same_in};

// What a check answers, how often it reads each file and flushes, how many bytes of the verdict are taken, and how many of the
// certificate are left.
type Checked = (Answer, [u32; 3], usize, usize);

fn checked(
    alloc: Global,
    files: [File<'_>; 2],
    step: usize,
    room: usize,
    policy: &Policy,
) -> Checked {
    let [base, cert] = files;
    let mut base = source(base.0, step, base.1);
    let mut cert = source(cert.0, step, cert.1);
    let mut out = sink(alloc, "CLEARED\n", room);
    let answer = run_check(alloc, &mut base, &mut cert, &mut out, policy);
    let calls = [base.calls, cert.calls, out.flushes];
    (answer, calls, taken(&out, "CLEARED\n"), cert.bytes.len())
}

// Both files come in pieces of 7 bytes: 270 bytes of the base and 81 of the certificate, and then their ends.
#[test]
fn a_verdict_is_written(rt: HostRuntime) -> Result<(), Fail> {
    let policy = policy(5, 1)?;
    let files = [(DEMO, ALL), (CERT, ALL)];
    let (answer, calls, taken, left) = checked(rt.alloc(), files, 7, ALL, &policy);
    let got = (status_of(&answer), calls, taken, left);
    same(got, (0, [40, 13, 1], 8, 0))
}

// Nothing is asked for after a bad base, a refused line, a read, write or flush that fails, and both ends. A certificate is
// read in pieces of 4,096 bytes.
#[test]
fn a_check_asks_for_no_more_than_it_needs(rt: HostRuntime) -> Result<(), Fail> {
    let policy = policy(5, 1)?;
    let long = "PBC3\n".repeat(rt.alloc(), 2_000)?;
    let rows: [(File<'_>, File<'_>, usize, (u8, [u32; 3], usize, usize)); 7] = [
        (("", ALL), (CERT, ALL), ALL, (3, [1, 0, 0], 0, 81)),
        ((DEMO, 0), (CERT, ALL), ALL, (3, [1, 0, 0], 0, 81)),
        ((DEMO, 100), (CERT, ALL), ALL, (3, [2, 0, 0], 0, 81)),
        ((DEMO, ALL), (CERT, 5), ALL, (3, [2, 2, 0], 0, 76)),
        (
            (DEMO, ALL),
            (long.as_str(), ALL),
            ALL,
            (3, [2, 1, 0], 0, 5_904),
        ),
        ((DEMO, ALL), (CERT, ALL), 3, (3, [2, 2, 0], 3, 0)),
        ((DEMO, ALL), (CERT, ALL), 8, (3, [2, 2, 1], 8, 0)),
    ];
    for (base, cert, room, wanted) in rows {
        let (answer, calls, taken, left) = checked(rt.alloc(), [base, cert], ALL, room, &policy);
        let got = (status_of(&answer), calls, taken, left);
        same_in((base.1, cert.1, room), got, wanted)?;
    }
    Ok(())
}

// A line at fault comes before the read that would fail.
#[test]
fn a_refused_line_comes_before_a_read_that_fails(rt: HostRuntime) -> Result<(), Fail> {
    let policy = policy(5, 1)?;
    let got = checked(rt.alloc(), [(DEMO, ALL), ("PBC3\n", 5)], ALL, ALL, &policy);
    let fault = RunFault::Cert(ReadFault::Line(1, LineCause::Magic));
    same(got, (Err(fault), [2, 1, 0], 0, 0))
}

// The first bytes of a text.
fn front(text: &str, count: usize) -> &str {
    text.get(..count).unwrap_or(text)
}

#[test]
fn a_certificate_that_is_cut_is_truncated_in_its_last_line(rt: HostRuntime) -> Result<(), Fail> {
    let policy = policy(5, 1)?;
    let mut line = 1u32;
    for (kept, byte) in CERT.as_bytes().iter().enumerate() {
        let files = [(DEMO, ALL), (front(CERT, kept), ALL)];
        for step in [1, 2, 3, 7, 4_096] {
            let (answer, ..) = checked(rt.alloc(), files, step, ALL, &policy);
            let wanted = RunFault::Cert(ReadFault::Line(line, LineCause::Truncated));
            same_in((kept, step), answer, Err(wanted))?;
        }
        line = line.saturating_add(u32::from(*byte == b'\n'));
    }
    Ok(())
}
