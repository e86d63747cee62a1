//! Audits of large bases, and the replay of scripts. What the program prints of audits is in `tests/cases`.

use crate::bases::{base_of, chain};
use crate::policies::policy;
use audit_report::report;
use cert_table::{Certificate, Cover};
use checker::Policy;
use fault_scripts::{Outcome, audit, replay};
use frame_records::{Base, Groups, Pence};
use page_ids::{FrameId, PageNo, keys_read};
use session_machine::{OpenFault, Reply};
use std::alloc::Global;
use std::test::Fail;
use test_support::{DEMO, same, same_in};

fn certified(alloc: Global, base: &Base, policy: &Policy) -> Result<Certificate, Fail> {
    match audit(alloc, base, policy)? {
        Outcome::Certified(cert) => Ok(cert),
        Outcome::Faulty(_) => Err("faults".into()),
    }
}

#[test]
fn a_safe_base_of_65_535_frames_is_certified(rt: HostRuntime) -> Result<(), Fail> {
    let policy = policy(0, 1)?;
    let base = chain(rt.alloc(), 65_535, 1, PageNo::new(0))?;
    let cert = certified(rt.alloc(), &base, &policy)?;
    let parts = (
        cert.entry().get(),
        cert.ceiling().get(),
        cert.keyings(),
        cert.groups().len(),
        cert.cover().len(),
    );
    same(parts, (0, 0, 1, 0, 65_535))
}

// The last reply to keys, and the frame that is held.
type Replayed = (Reply, Option<FrameId>);

// The last reply to a caller of these groups.
fn replayed(alloc: Global, base: &Base, groups: &Groups, keys: &str) -> Result<Replayed, Fail> {
    let keys = keys_read(alloc, keys)?;
    let end = replay(alloc, base, groups, &keys)?;
    Ok((end.last, end.at))
}

// 1231b belongs to group 7.
#[test]
fn replay_gives_the_last_reply_and_the_place(rt: HostRuntime) -> Result<(), Fail> {
    let entry = FrameId::read("123a")?;
    let first = FrameId::read("1231a")?;
    let last = FrameId::read("1231b")?;
    let free = Pence::new(0).ok_or("price")?;
    let member = Groups::read("7")?;
    let nobody = Groups::none();
    let many = "10".repeat(rt.alloc(), 140_000)?;
    let rows: [(&Groups, &str, Replayed); 5] = [
        (&nobody, "", (Reply::Shown(entry, free), Some(entry))),
        (&nobody, "01", (Reply::NotOffered, None)),
        (&nobody, "1#", (Reply::Closed(last), Some(first))),
        (&member, "1#", (Reply::Shown(last, free), Some(last))),
        (
            &nobody,
            many.as_str(),
            (Reply::Shown(entry, free), Some(entry)),
        ),
    ];
    let text = DEMO.replacen(rt.alloc(), "lead", "group = 7\nlead", 1)?;
    let base = base_of(rt.alloc(), text.as_str())?;
    for (groups, keys, end) in rows {
        let got = replayed(rt.alloc(), &base, groups, keys)?;
        same_in(keys.len(), got, end)?;
    }
    Ok(())
}

#[test]
fn replay_needs_an_entry_frame(rt: HostRuntime) -> Result<(), Fail> {
    let keys = keys_read(rt.alloc(), "")?;
    let base = base_of(rt.alloc(), "entry = 0\n")?;
    let is_missing = replay(rt.alloc(), &base, &Groups::none(), &keys)
        == Err(OpenFault::EntryMissing);
    same(is_missing, true)
}

// What is reported of a base.
fn report_of(alloc: Global, base: &Base, policy: &Policy) -> Result<Vec<u8>, Fail> {
    let outcome = audit(alloc, base, policy)?;
    Ok(report(alloc, &outcome)?)
}

// The one fault of a chain is a missing frame after the last of 20,000.
#[test]
fn a_script_of_20_000_keys_is_printed_and_replays(rt: HostRuntime) -> Result<(), Fail> {
    let [last, missing] = [FrameId::read("19999a")?, FrameId::read("999999a")?];
    let policy = policy(0, 1)?;
    let way = "1".repeat(rt.alloc(), 19_999)?;
    let line = format!(in rt.alloc();
        "FAULTS 1\nMISSING 999999a AT 19999a KEY 5 SCRIPT {}5\n",
        way.as_str()
    )?;
    let base = chain(rt.alloc(), 20_000, 1, Some(missing.page))?;
    let text = report_of(rt.alloc(), &base, &policy)?;
    same(text.as_slice() == line.as_str().as_bytes(), true)?;
    let Outcome::Faulty(list) = audit(rt.alloc(), &base, &policy)? else {
        return Err("no faults".into());
    };
    let fault = list.as_slice().first().ok_or("a fault")?;
    let end = replay(rt.alloc(), &base, &Groups::none(), &fault.script)?;
    same((end.last, end.at), (Reply::Missing(missing), Some(last)))
}
