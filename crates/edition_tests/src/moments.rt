//! A candidate is made, and an edition read from a folder.

use crate::fake_folder::FakeFolder;
use base_text::base_read;
use checker::Policy;
use edition_checks::{
    Candidate, CandidateFault, Following, Served, ServedFault, make_candidate, may_follow,
    read_served, wider_of,
};
use editions::EditionFile;
use frame_records::{Groups, Pence};
use std::alloc::{AllocError, Global};
use std::test::Fail;
use test_support::{CERT, DEMO, same};

const POLICY: &[u8] = b"ceiling = 5\nkeyings = 1\n";

fn policy_of(ceiling: u16, keyings: u16) -> Result<Policy, Fail> {
    Ok(Policy {
        ceiling: Pence::new(ceiling).ok_or("a price")?,
        keyings,
        groups: Groups::none(),
    })
}

fn vec_of(alloc: Global, bytes: &[u8]) -> Result<Vec<u8>, AllocError> {
    let mut copy = Vec::new(alloc);
    copy.extend_from_slice(bytes)?;
    Ok(copy)
}

// A folder with edition 4, which has the base DEMO.
fn folder(alloc: Global, fails_at: usize) -> Result<FakeFolder, Fail> {
    let mut folder = FakeFolder {
        numbers: Vec::new(alloc),
        files: Vec::new(alloc),
        current: Some(4),
        writes: 0,
        fails_at,
    };
    folder.numbers.push(4)?;
    folder
        .files
        .push((EditionFile::Base, vec_of(alloc, DEMO.as_bytes())?))?;
    folder
        .files
        .push((EditionFile::Cert, vec_of(alloc, CERT.as_bytes())?))?;
    folder
        .files
        .push((EditionFile::Policy, vec_of(alloc, POLICY)?))?;
    Ok(folder)
}

fn demo(alloc: Global) -> Result<Candidate, Fail> {
    Ok(
        make_candidate(alloc, DEMO.as_bytes(), policy_of(5, 1)?)
            .ok()
            .ok_or("a candidate")?,
    )
}

fn served(alloc: Global) -> Result<Served, Fail> {
    let mut folder = folder(alloc, 0)?;
    Ok(read_served(alloc, &mut folder, 4).ok().ok_or("an edition")?)
}

#[test]
fn a_certificate_is_made_and_checked(rt: HostRuntime) -> Result<(), Fail> {
    same(demo(rt.alloc())?.cert_text.as_slice(), CERT.as_bytes())
}

#[test]
fn a_base_that_is_not_safe_is_no_candidate(rt: HostRuntime) -> Result<(), Fail> {
    let narrow = make_candidate(rt.alloc(), DEMO.as_bytes(), policy_of(4, 1)?);
    same(matches!(narrow, Err(CandidateFault::Faulty)), true)?;
    let no_base = make_candidate(rt.alloc(), b"entry = 01\n", policy_of(4, 1)?);
    same(matches!(no_base, Err(CandidateFault::NoBase)), true)
}

#[test]
fn an_edition_is_read_from_its_folder(rt: HostRuntime) -> Result<(), Fail> {
    let served = served(rt.alloc())?;
    let base = base_read(rt.alloc(), served.base_text.as_slice())?;
    same((served.number, served.policy.keyings), (4, 1))?;
    same(base.frames().len(), served.base.frames().len())?;
    same(served.policy_text.as_slice(), POLICY)
}

#[test]
fn what_an_edition_lacks_is_named(rt: HostRuntime) -> Result<(), Fail> {
    let mut folder = folder(rt.alloc(), 0)?;
    let other = read_served(rt.alloc(), &mut folder, 5);
    same(
        matches!(other, Err(ServedFault::Missing(EditionFile::Base))),
        true,
    )?;
    folder.files.truncate(2);
    let halved = read_served(rt.alloc(), &mut folder, 4);
    same(
        matches!(halved, Err(ServedFault::Missing(EditionFile::Policy))),
        true,
    )
}

#[test]
fn an_edition_may_follow_itself(rt: HostRuntime) -> Result<(), Fail> {
    let served = served(rt.alloc())?;
    let new = demo(rt.alloc())?;
    same(
        matches!(
            may_follow(&served, &new.base, &new.cert, &new.policy),
            Following::Cleared
        ),
        true,
    )
}

#[test]
fn the_wider_of_two_policies_has_the_greater_limits() -> Result<(), Fail> {
    let wider = wider_of(&policy_of(50, 1)?, &policy_of(5, 3)?);
    same((wider.ceiling.get(), wider.keyings), (50, 3))
}
