//! What is reported of audited bases; the texts that the program prints are in `tests/cases`.

use crate::bases::base_of;
use crate::policies::policy;
use audit_report::report;
use cert_text::cert_read;
use fault_scripts::{Outcome, faults, faults_surveyed};
use finder::Survey;
use page_ids::PageNo;
use std::alloc::{AllocError, Global};
use std::test::Fail;
use test_support::{CERT, DEMO, same_in};

// The list of a base's faults alone.
#[test]
fn the_faults_alone_are_those_of_the_audit(rt: HostRuntime) -> Result<(), Fail> {
    let policy = policy(50, 3)?;
    let rows = [
        (DEMO, "FAULTS 0\n"),
        ("entry = 0\n", "FAULTS 1\nENTRYMISSING 0a\n"),
    ];
    for (text, lines) in rows {
        let base = base_of(rt.alloc(), text)?;
        let outcome = Outcome::Faulty(faults(rt.alloc(), &base, &policy)?);
        let got = report(rt.alloc(), &outcome)?;
        same_in(lines, got.as_slice(), lines.as_bytes())?;
    }
    Ok(())
}

// One survey gives the frames that are reached, of the three of the demo or of none, and the faults.
#[test]
fn a_survey_is_judged(rt: HostRuntime) -> Result<(), Fail> {
    let policy = policy(50, 3)?;
    for (text, faults, reached) in [(DEMO, 0, 3), ("entry = 0\n", 1, 0)] {
        let base = base_of(rt.alloc(), text)?;
        let survey = Survey::of(rt.alloc(), &base, &policy.groups)?;
        let found = faults_surveyed(rt.alloc(), &survey, &policy)?;
        let counts = (found.as_slice().len(), survey.found().as_slice().len());
        same_in(text, counts, (faults, reached))?;
    }
    Ok(())
}

// The text of a certificate of the greatest number of rows, 17 bytes each.
fn largest_cert(alloc: Global) -> Result<String, AllocError> {
    let mut text = String::new(alloc);
    text.push_str("PBC1\nentry 0\nceiling 0\nkeyings 0\nrows 65535\n")?;
    for number in 0..65_535u32 {
        if let Some(page) = PageNo::new(999_000_000 + number) {
            text.push_str(page.text().as_str())?;
            text.push_str("a 0 s80\n")?;
        }
    }
    text.push_str("end\n")?;
    Ok(text)
}

#[test]
fn a_certificate_is_reported_as_its_text(rt: HostRuntime) -> Result<(), Fail> {
    let largest = largest_cert(rt.alloc())?;
    for (text, bytes) in [(CERT, 81), (largest.as_str(), 1_114_143)] {
        let outcome = Outcome::Certified(cert_read(rt.alloc(), text.as_bytes())?);
        let got = report(rt.alloc(), &outcome)?;
        same_in(
            bytes,
            (got.len(), got.as_slice() == text.as_bytes()),
            (bytes, true),
        )?;
    }
    Ok(())
}
