//! Runs of `publish` into a folder in memory.

use crate::memory_store::{MemoryStore, copied};
use editions::current_in;
use publishing::{Publish, PublishFault, PublishStatus, run_publish, status_of_publish};
use std::alloc::Global;
use std::test::Fail;
use test_support::{CERT, DEMO, FakeSink, FakeSource, same, same_in};

const POLICY: &[u8] = b"ceiling = 5\nkeyings = 1\n";

fn asked<'a>() -> Publish<'a> {
    Publish {
        base_path: "base.toml",
        policy_path: "live/policy.toml",
        dry_run: false,
        new_callers: false,
        deny_warnings: false,
    }
}

fn store(alloc: Global) -> Result<MemoryStore, Fail> {
    let mut store = MemoryStore::new(alloc);
    store.policy = Some(copied(alloc, POLICY)?);
    Ok(store)
}

// A run on a base's text; what it answers, and what it prints.
fn published(
    alloc: Global,
    store: &mut MemoryStore,
    base: &str,
    asked: &Publish<'_>,
) -> (Result<PublishStatus, PublishFault>, Vec<u8>) {
    let mut base = FakeSource::of(base.as_bytes(), 1_000);
    let mut out = FakeSink::of(alloc, 1_000);
    let run = run_publish(alloc, store, &mut base, &mut out, asked);
    let FakeSink { taken, .. } = out;
    (run, taken)
}

// The number that `current` names.
fn current(store: &MemoryStore) -> Option<u32> {
    match &store.current {
        Some(text) => current_in(text.as_slice()),
        None => None,
    }
}

// The demo with another text.
fn changed(alloc: Global) -> Result<String, Fail> {
    Ok(DEMO.replace(alloc, "PART ONE", "PART 1")?)
}

// The demo without its last frame.
fn shorter(alloc: Global) -> Result<String, Fail> {
    let (front, _) = DEMO
        .split_once("\n[[frame]]\nid = \"1231b\"")
        .ok_or("the last frame")?;
    Ok(front.replace(alloc, "next = true\n", "")?)
}

#[test]
fn a_base_is_published_and_then_served_already(rt: HostRuntime) -> Result<(), Fail> {
    let mut store = store(rt.alloc())?;
    let (run, said) = published(rt.alloc(), &mut store, DEMO, &asked());
    same(run, Ok(PublishStatus::Published(1)))?;
    same_in(
        "said",
        said.as_slice(),
        b"edition 1: 3 frames\nCLEARED\n".as_slice(),
    )?;
    let edition = store.edition(1).ok_or("an edition")?;
    same(edition.base.as_slice(), DEMO.as_bytes())?;
    same(edition.cert.as_slice(), CERT.as_bytes())?;
    same(edition.policy.as_slice(), POLICY)?;
    same(edition.follows.as_slice(), b"-\n".as_slice())?;
    let (again, said) = published(rt.alloc(), &mut store, DEMO, &asked());
    same(again, Ok(PublishStatus::AlreadyServed(1)))?;
    same(said.as_slice(), b"edition 1 is served already\n".as_slice())?;
    same((store.editions.len(), status_of_publish(&again)), (1, 0))
}

#[test]
fn the_next_edition_follows_the_one_that_is_served(rt: HostRuntime) -> Result<(), Fail> {
    let mut store = store(rt.alloc())?;
    let _ = published(rt.alloc(), &mut store, DEMO, &asked());
    let text = changed(rt.alloc())?;
    let (run, said) = published(rt.alloc(), &mut store, text.as_str(), &asked());
    same(run, Ok(PublishStatus::Published(2)))?;
    same(
        said.as_slice(),
        b"edition 2: 3 frames, 1 changed\nCLEARED\n".as_slice(),
    )?;
    let edition = store.edition(2).ok_or("an edition")?;
    same(edition.follows.as_slice(), b"1\n".as_slice())?;
    same(current(&store), Some(2))
}

const LOST: &[u8] =
    b"1231b PART TWO: callers may be there; keep it, or publish with --new-callers\n\
REFUSED E2 NoLongerCovered 1231b\n";

#[test]
fn a_refused_change_is_for_new_callers_alone(rt: HostRuntime) -> Result<(), Fail> {
    let mut store = store(rt.alloc())?;
    let _ = published(rt.alloc(), &mut store, DEMO, &asked());
    let text = shorter(rt.alloc())?;
    let (run, said) = published(rt.alloc(), &mut store, text.as_str(), &asked());
    same(
        (run, status_of_publish(&run)),
        (Ok(PublishStatus::Refused), 1),
    )?;
    same_in("said", said.as_slice(), LOST)?;
    let new_callers = Publish {
        new_callers: true,
        ..asked()
    };
    let (run, _) = published(rt.alloc(), &mut store, text.as_str(), &new_callers);
    same(run, Ok(PublishStatus::Published(2)))?;
    let edition = store.edition(2).ok_or("an edition")?;
    same(edition.follows.as_slice(), b"-\n".as_slice())
}

#[test]
fn a_dry_run_writes_nothing(rt: HostRuntime) -> Result<(), Fail> {
    let mut store = store(rt.alloc())?;
    let dry = Publish {
        dry_run: true,
        ..asked()
    };
    let (run, _) = published(rt.alloc(), &mut store, DEMO, &dry);
    same((run, store.writes), (Ok(PublishStatus::Passed(1)), 0))
}

#[test]
fn findings_stop_a_publish(rt: HostRuntime) -> Result<(), Fail> {
    let mut store = store(rt.alloc())?;
    store.policy = Some(copied(rt.alloc(), b"ceiling = 4\nkeyings = 1\n")?);
    let (run, _) = published(rt.alloc(), &mut store, DEMO, &asked());
    same(matches!(run, Ok(PublishStatus::Faulty(_))), true)?;
    same((status_of_publish(&run), store.editions.len()), (1, 0))
}

#[test]
fn a_policy_without_a_limit_is_named_with_its_place(rt: HostRuntime) -> Result<(), Fail> {
    let mut store = store(rt.alloc())?;
    store.policy = Some(copied(rt.alloc(), b"ceiling = 5\n")?);
    let (run, said) = published(rt.alloc(), &mut store, DEMO, &asked());
    same(status_of_publish(&run), 3)?;
    same_in(
        "said",
        said.as_slice(),
        b"live/policy.toml:1:1: error: missing key; keyings is a whole number, 0 to 65535\nceiling = 5\n^\n".as_slice(),
    )
}

// Two publishes, the write of a number failing; what is right whatever fails.
fn stopped(alloc: Global, fails_at: usize, is_done: bool) -> Result<(), Fail> {
    let mut store = store(alloc)?;
    let text = changed(alloc)?;
    store.fails_at = fails_at;
    store.is_done = is_done;
    let (first, _) = published(alloc, &mut store, DEMO, &asked());
    let (second, _) = published(alloc, &mut store, text.as_str(), &asked());
    same(first.is_err() || second.is_err(), fails_at <= 6)?;
    if let Some(number) = current(&store) {
        same(store.edition(number).is_some(), true)?;
    }
    store.fails_at = 0;
    let (run, _) = published(alloc, &mut store, text.as_str(), &asked());
    same((status_of_publish(&run), store.parts), (0, 0))?;
    let number = current(&store).ok_or("an edition")?;
    let edition = store.edition(number).ok_or("an edition")?;
    same(edition.base.as_slice(), text.as_bytes())
}

#[test]
fn whatever_write_fails_the_next_publish_succeeds(rt: HostRuntime) -> Result<(), Fail> {
    for fails_at in 1..8 {
        stopped(rt.alloc(), fails_at, false)?;
        stopped(rt.alloc(), fails_at, true)?;
    }
    Ok(())
}

#[test]
fn an_edition_that_a_stop_left_is_made_current(rt: HostRuntime) -> Result<(), Fail> {
    let mut store = store(rt.alloc())?;
    let text = changed(rt.alloc())?;
    let _ = published(rt.alloc(), &mut store, DEMO, &asked());
    store.fails_at = store.writes.saturating_add(3);
    let (stopped, _) = published(rt.alloc(), &mut store, text.as_str(), &asked());
    same(
        (stopped, current(&store)),
        (Err(PublishFault::Folder), Some(1)),
    )?;
    let (run, _) = published(rt.alloc(), &mut store, text.as_str(), &asked());
    same(
        (run, current(&store)),
        (Ok(PublishStatus::AlreadyServed(2)), Some(2)),
    )
}
