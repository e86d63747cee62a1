//! Checks of one certificate over each kind of rows: a table, with a binary search, and a list, row by row.

use crate::bases::base_of;
use crate::policies::policy;
use audit_report::verdict_text;
use cert_table::{Certificate, Cover, RowList};
use cert_text::cert_read;
use checker::check;
use std::alloc::Global;
use std::test::Fail;
use test_support::{CERT, DEMO, same_in};

// What is in a text, and what takes its place.
type Edit = (&'static str, &'static str);

// A change of the base and one of the certificate, the ceiling and the keyings that are accepted, and the line of the verdict.
type Checked = (Edit, Edit, (u16, u16), &'static str);

const SAME: Edit = ("entry", "entry");

const ROWS: &str = "rows 3\n123a 0 s80\n1231a 1 s80\n1231b 1 s48\n";

const ALL: &str = "ceiling 5\nkeyings 1\nrows 3\n123a 0 s80\n1231a 1 s80\n1231b 1 s48\n";

const ROUTES: &str = "PART TWO\"\nroutes = { 0 = 123 }";

const VERDICTS: [Checked; 15] = [
    (SAME, SAME, (5, 1), "CLEARED\n"),
    (SAME, SAME, (4, 1), "REFUSED K2 CeilingAbove\n"),
    (SAME, SAME, (5, 0), "REFUSED K3 KeyingsAbove\n"),
    (
        SAME,
        (ALL, "ceiling 0\nkeyings 0\nrows 0\n"),
        (0, 0),
        "REFUSED K4 EntryNotCovered\n",
    ),
    (
        SAME,
        (ROWS, "rows 2\n123a 0 s80\n1231a 1 s80\n"),
        (5, 1),
        "REFUSED K12 NextNotCovered 1231a\n",
    ),
    (
        SAME,
        ("entry 123", "entry 124"),
        (5, 1),
        "REFUSED K1 EntryDiffers\n",
    ),
    (
        SAME,
        (
            ROWS,
            "rows 4\n123a 0 s80\n1231a 1 s80\n1231b 1 s48\n1231c 1 s80\n",
        ),
        (5, 1),
        "REFUSED K5 NoFrame 1231c\n",
    ),
    (
        ("\nlead", "\ngroup = 7\nlead"),
        SAME,
        (5, 1),
        "REFUSED K6 ClosedFrame 1231b\n",
    ),
    (
        SAME,
        ("ceiling 5", "ceiling 4"),
        (5, 1),
        "REFUSED K7 Price 1231a\n",
    ),
    (
        SAME,
        ("keyings 1", "keyings 0"),
        (5, 1),
        "REFUSED K8 RankAbove 1231a\n",
    ),
    (
        ("\\u001E\\u000APART TWO", "A"),
        SAME,
        (5, 1),
        "REFUSED K9 Touches 1231b 0\n",
    ),
    (
        SAME,
        ("123a 0 s80", "123a 0 s81"),
        (5, 1),
        "REFUSED K10 CursorDiffers 123a\n",
    ),
    (
        (ROUTES, "PART TWO\"\nroutes = { 0 = 123, 9 = 555 }"),
        SAME,
        (5, 1),
        "REFUSED K11 RouteNotCovered 1231b 9\n",
    ),
    (
        SAME,
        (
            ALL,
            "ceiling 5\nkeyings 0\nrows 3\n123a 0 s80\n1231a 0 s80\n1231b 0 s48\n",
        ),
        (5, 0),
        "REFUSED K13 RankZero 1231a\n",
    ),
    (
        (ROUTES, "PART TWO\"\nroutes = { 0 = 0 }"),
        SAME,
        (5, 1),
        "REFUSED K14 NoWayDown 1231b\n",
    ),
];

// The certificate with its rows in a list.
fn in_a_list(alloc: Global, cert: &Certificate) -> Result<Certificate<RowList>, Fail> {
    let cover = cert.cover();
    let mut rows = Vec::new(alloc);
    for i in 0..cover.len() {
        rows.push(*cover.row_at(i))?;
    }
    let built = Certificate::build(
        cert.entry(),
        cert.ceiling(),
        cert.keyings(),
        cert.groups().copy(),
        rows,
    );
    Ok(built.ok().ok_or("the rows make no certificate")?)
}

// The lines of both verdicts.
fn verdicts(
    alloc: Global,
    base: &str,
    cert: &str,
    limits: (u16, u16),
) -> Result<(Vec<u8>, Vec<u8>), Fail> {
    let policy = policy(limits.0, limits.1)?;
    let base = base_of(alloc, base)?;
    let table = cert_read(alloc, cert.as_bytes())?;
    let list = in_a_list(alloc, &table)?;
    let by_table = verdict_text(alloc, &check(&base, &policy, &table))?;
    let by_list = verdict_text(alloc, &check(&base, &policy, &list))?;
    Ok((by_table, by_list))
}

#[test]
fn a_list_of_rows_has_the_verdict_of_a_table(rt: HostRuntime) -> Result<(), Fail> {
    for ((from, to), (cert_from, cert_to), limits, line) in VERDICTS {
        let base = DEMO.replacen(rt.alloc(), from, to, 1)?;
        let cert = CERT.replacen(rt.alloc(), cert_from, cert_to, 1)?;
        let (by_table, by_list) = verdicts(rt.alloc(), base.as_str(), cert.as_str(), limits)?;
        same_in(line, by_table.as_slice(), line.as_bytes())?;
        same_in(line, by_list.as_slice(), line.as_bytes())?;
    }
    Ok(())
}
