//! The audits.

use crate::expected::{ALL, Answer, expect, policy, sink, source, taken};
use audit_report::RunFault;
use checker::Policy;
use pageaudit::{Status, run_audit, run_audit_into, status_of};
use std::alloc::Global;
use std::test::Fail;
use test_support::{CERT, DEMO, FakeSink, FakeSource, same_in};

#[test]
fn a_safe_base_gets_its_certificate(rt: HostRuntime) -> Result<(), Fail> {
    let policy = policy(50, 3)?;
    let mut base = FakeSource::of(DEMO.as_bytes(), 7);
    let mut out = FakeSink::of(rt.alloc(), 1_000);
    let answer = run_audit(rt.alloc(), &mut base, &mut out, &policy);
    expect(answer, &out, Ok(Status::Clear), CERT)
}

// What an audit answers, how often it reads and flushes, and how many bytes of the certificate are taken.
type Audited = (Answer, u32, u32, usize);

fn audited(alloc: Global, base: &str, kept: usize, room: usize, policy: &Policy) -> Audited {
    let mut base = source(base, ALL, kept);
    let mut out = sink(alloc, CERT, room);
    let answer = run_audit(alloc, &mut base, &mut out, policy);
    (answer, base.calls, out.flushes, taken(&out, CERT))
}

#[test]
fn a_report_is_flushed_once_where_all_of_it_was_taken(rt: HostRuntime) -> Result<(), Fail> {
    let policy = policy(50, 3)?;
    for room in 0..82usize {
        let got = audited(rt.alloc(), DEMO, ALL, room, &policy);
        let fault = RunFault::Write(room as u64);
        same_in(room, got, (Err(fault), 2, u32::from(room == 81), room))?;
    }
    Ok(())
}

// Nothing is asked for after a bad base and a read that fails, and nothing is sent.
#[test]
fn an_audit_that_fails_asks_for_no_more(rt: HostRuntime) -> Result<(), Fail> {
    let policy = policy(50, 3)?;
    for (base, kept, calls) in [("", ALL, 1), (DEMO, 0, 1), (DEMO, 100, 2)] {
        let (answer, reads, flushes, taken) = audited(rt.alloc(), base, kept, ALL, &policy);
        let got = (status_of(&answer), reads, flushes, taken);
        same_in(kept, got, (3, calls, 0, 0))?;
    }
    Ok(())
}

// The status of an audit with a file of its own for a certificate, and how often that file and the output were flushed.
fn audited_into(alloc: Global, policy: &Policy) -> (u8, u32, u32) {
    let mut base = source(DEMO, ALL, ALL);
    let mut cert = sink(alloc, CERT, ALL);
    let mut out = sink(alloc, CERT, ALL);
    let answer = run_audit_into(alloc, &mut base, &mut cert, &mut out, policy);
    (status_of(&answer), cert.flushes, out.flushes)
}

// Under a ceiling of 0 the demo has faults, under one of 50 a certificate: only one of the two outputs is written.
#[test]
fn a_certificate_goes_into_its_own_file(rt: HostRuntime) -> Result<(), Fail> {
    for (ceiling, wanted) in [(50, (0, 1, 0)), (0, (1, 0, 1))] {
        let policy = policy(ceiling, 3)?;
        same_in(ceiling, audited_into(rt.alloc(), &policy), wanted)?;
    }
    Ok(())
}
