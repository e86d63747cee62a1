//! Changes of edition.

use crate::expected::{ALL, File, policy, sink, source, taken};
use checker::Policy;
use frame_records::Groups;
use pageaudit::{run_change, status_of};
use std::alloc::Global;
use std::test::Fail;
use test_support::{DEMO, same, same_in};

// DEMO's certificate for as many groups as a list may have.
const CERT_16: &str =
    "PBC2\nentry 123\nceiling 5\nkeyings 1\ngroups 1 2 3 4 5 6 7 8 9 10 11 12 13 14 15 16\nrows 3\n123a 0 s80\n1231a 1 s80\n1231b 1 s48\nend\n";

// The old base and its certificate, the new base and its certificate, of which one is replaced.
fn files(at: usize, file: File<'_>) -> [File<'_>; 4] {
    let (base, cert) = ((DEMO, ALL), (CERT_16, ALL));
    match at {
        0 => [file, cert, base, cert],
        1 => [base, file, base, cert],
        2 => [base, cert, file, cert],
        _ => [base, cert, base, file],
    }
}

// The status of a change, how often each file is read and the output flushed, how many bytes of the verdict are taken, and how
// many of both certificates are left.
type Changed = (u8, [u32; 5], usize, usize);

fn changed(
    alloc: Global,
    files: [File<'_>; 4],
    step: usize,
    room: usize,
    policy: &Policy,
) -> Changed {
    let [old, old_cert, new, new_cert] = files;
    let mut old = source(old.0, step, old.1);
    let mut old_cert = source(old_cert.0, step, old_cert.1);
    let mut new = source(new.0, step, new.1);
    let mut new_cert = source(new_cert.0, step, new_cert.1);
    let mut out = sink(alloc, "CLEARED\n", room);
    let answer = run_change(
        alloc,
        &mut old,
        &mut old_cert,
        &mut new,
        &mut new_cert,
        &mut out,
        policy,
    );
    let reads = [old.calls, old_cert.calls, new.calls, new_cert.calls];
    let [a, b, c, d] = reads;
    let left = old_cert.bytes.len().wrapping_add(new_cert.bytes.len());
    let calls = [a, b, c, d, out.flushes];
    (status_of(&answer), calls, taken(&out, "CLEARED\n"), left)
}

fn policy_16() -> Result<Policy, Fail> {
    let mut policy = policy(50, 3)?;
    policy.groups = Groups::read("1,2,3,4,5,6,7,8,9,10,11,12,13,14,15,16")?;
    Ok(policy)
}

// Each file comes in pieces of 7 bytes: 270 bytes of a base and 127 of a certificate, and then its end.
#[test]
fn a_change_that_keeps_all_is_cleared(rt: HostRuntime) -> Result<(), Fail> {
    let policy = policy_16()?;
    let got = changed(rt.alloc(), files(0, (DEMO, ALL)), 7, ALL, &policy);
    same(got, (0, [40, 20, 40, 20, 1], 8, 0))
}

// Nothing is asked for after a file at fault, a read, write or flush that fails, and an end. A certificate is read in pieces
// of 4,096 bytes.
#[test]
fn a_change_asks_for_no_more_than_it_needs(rt: HostRuntime) -> Result<(), Fail> {
    let policy = policy_16()?;
    let long = "PBC3\n".repeat(rt.alloc(), 2_000)?;
    let rows: [(usize, &str, usize, usize, Changed); 11] = [
        (0, "", ALL, ALL, (3, [1, 0, 0, 0, 0], 0, 254)),
        (0, DEMO, 3, ALL, (3, [2, 0, 0, 0, 0], 0, 254)),
        (1, CERT_16, 5, ALL, (3, [2, 2, 0, 0, 0], 0, 249)),
        (1, long.as_str(), ALL, ALL, (3, [2, 1, 0, 0, 0], 0, 6_031)),
        (2, "", ALL, ALL, (3, [2, 2, 1, 0, 0], 0, 127)),
        (2, DEMO, 0, ALL, (3, [2, 2, 1, 0, 0], 0, 127)),
        (2, DEMO, 3, ALL, (3, [2, 2, 2, 0, 0], 0, 127)),
        (3, CERT_16, 5, ALL, (3, [2, 2, 2, 2, 0], 0, 122)),
        (3, long.as_str(), ALL, ALL, (3, [2, 2, 2, 1, 0], 0, 5_904)),
        (3, CERT_16, ALL, 3, (3, [2, 2, 2, 2, 0], 3, 0)),
        (3, CERT_16, ALL, 8, (3, [2, 2, 2, 2, 1], 8, 0)),
    ];
    for (at, text, kept, room, wanted) in rows {
        let got = changed(rt.alloc(), files(at, (text, kept)), ALL, room, &policy);
        same_in((at, kept, room), got, wanted)?;
    }
    Ok(())
}
