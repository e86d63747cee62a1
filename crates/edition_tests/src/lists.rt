//! Runs of `editions` on a folder in memory.

use crate::memory_store::{MemoryStore, copied};
use base_differences::base_summary;
use edition_lists::{
    EditionsFault, EditionsStatus, FolderFault, run_list, run_verify, status_of_editions,
};
use editions::EditionFile;
use publishing::{Publish, run_publish};
use std::alloc::Global;
use std::test::Fail;
use test_support::{DEMO, FakeSink, FakeSource, same, same_in};

const POLICY: &[u8] = b"ceiling = 5\nkeyings = 1\n";

// Publishes the demo, and then a change of it as often as asked.
fn published(alloc: Global, changes: usize) -> Result<MemoryStore, Fail> {
    let mut store = MemoryStore::new(alloc);
    store.policy = Some(copied(alloc, POLICY)?);
    for change in 0..=changes {
        let words = format!(in alloc; "PART {change}")?;
        let text = DEMO.replace(alloc, "PART ONE", words.as_str())?;
        let mut base = FakeSource::of(text.as_bytes(), 1_000);
        let mut out = FakeSink::of(alloc, 1_000);
        let asked = Publish {
            base_path: "base.toml",
            policy_path: "live/policy.toml",
            dry_run: false,
            new_callers: false,
            deny_warnings: false,
        };
        same(
            run_publish(alloc, &mut store, &mut base, &mut out, &asked).is_ok(),
            true,
        )?;
    }
    Ok(store)
}

type Run = Result<EditionsStatus, EditionsFault>;

fn listed(alloc: Global, store: &mut MemoryStore) -> (Run, Vec<u8>) {
    let mut out = FakeSink::of(alloc, 1_000);
    let run = run_list(alloc, store, &mut out);
    let FakeSink { taken, .. } = out;
    (run, taken)
}

fn verified(alloc: Global, store: &mut MemoryStore) -> (Run, Vec<u8>) {
    let mut out = FakeSink::of(alloc, 1_000);
    let run = run_verify(alloc, store, &mut out, "live");
    let FakeSink { taken, .. } = out;
    (run, taken)
}

// The whole answer of a verification that refuses a folder.
fn refused(alloc: Global, store: &mut MemoryStore, said: &str) -> Result<(), Fail> {
    let (run, taken) = verified(alloc, store);
    same_in("said", taken.as_slice(), said.as_bytes())?;
    same(
        (run, status_of_editions(&run)),
        (Ok(EditionsStatus::Refused), 1),
    )
}

const LIST: &[u8] = b"\
edition 1           follows -  3 frames\n\
edition 2           follows 1  3 frames, 1 changed\n\
edition 3  served   follows 2  3 frames, 1 changed\n";

#[test]
fn each_edition_has_a_line(rt: HostRuntime) -> Result<(), Fail> {
    let mut store = published(rt.alloc(), 2)?;
    let (run, said) = listed(rt.alloc(), &mut store);
    same_in("said", said.as_slice(), LIST)?;
    same(
        (run, status_of_editions(&run)),
        (Ok(EditionsStatus::Listed), 0),
    )
}

#[test]
fn editions_that_were_published_are_verified(rt: HostRuntime) -> Result<(), Fail> {
    let mut store = published(rt.alloc(), 2)?;
    let writes = store.writes;
    let (run, said) = verified(rt.alloc(), &mut store);
    same_in(
        "said",
        said.as_slice(),
        b"3 editions; edition 3 is served\nCLEARED\n".as_slice(),
    )?;
    same(
        (run, status_of_editions(&run)),
        (Ok(EditionsStatus::Cleared), 0),
    )?;
    same(store.writes, writes)
}

#[test]
fn nothing_is_published_in_a_new_folder(rt: HostRuntime) -> Result<(), Fail> {
    let mut store = MemoryStore::new(rt.alloc());
    let (run, said) = listed(rt.alloc(), &mut store);
    same(run, Ok(EditionsStatus::Listed))?;
    same(said.as_slice(), b"nothing is published\n".as_slice())?;
    let (run, said) = verified(rt.alloc(), &mut store);
    same(run, Ok(EditionsStatus::Cleared))?;
    same(
        said.as_slice(),
        b"0 editions; none is served\nCLEARED\n".as_slice(),
    )
}

#[test]
fn an_edition_that_a_stop_left_is_no_fault(rt: HostRuntime) -> Result<(), Fail> {
    let mut store = published(rt.alloc(), 1)?;
    store.current = Some(copied(rt.alloc(), b"1\n")?);
    let (run, said) = verified(rt.alloc(), &mut store);
    same_in(
        "said",
        said.as_slice(),
        b"edition 2 follows 1, and isn't served yet\n2 editions; edition 1 is served\nCLEARED\n".as_slice(),
    )?;
    same(run, Ok(EditionsStatus::Cleared))?;
    let (_, said) = listed(rt.alloc(), &mut store);
    same(
        said.as_slice()
            .ends_with(b"edition 2  not yet  follows 1  3 frames, 1 changed\n"),
        true,
    )
}

#[test]
fn a_current_that_was_passed_is_refused(rt: HostRuntime) -> Result<(), Fail> {
    let mut store = published(rt.alloc(), 2)?;
    store.current = Some(copied(rt.alloc(), b"1\n")?);
    refused(
        rt.alloc(),
        &mut store,
        "edition 2 follows 1, and is after the one that is served\n\
edition 3 follows 2, and is after the one that is served\n3 editions; edition 1 is served\nREFUSED\n",
    )?;
    store.current = None;
    let (run, _) = verified(rt.alloc(), &mut store);
    same(run, Ok(EditionsStatus::Refused))
}

#[test]
fn a_current_that_names_nothing_is_refused(rt: HostRuntime) -> Result<(), Fail> {
    let mut store = published(rt.alloc(), 0)?;
    store.current = Some(copied(rt.alloc(), b"9\n")?);
    refused(
        rt.alloc(),
        &mut store,
        "live/current: edition 9 isn't there\n1 edition; edition 9 is served\nREFUSED\n",
    )?;
    store.current = Some(copied(rt.alloc(), b"1")?);
    refused(
        rt.alloc(),
        &mut store,
        "live/current: has to hold an edition's number and a line end\n1 edition\nREFUSED\n",
    )?;
    let (run, _) = listed(rt.alloc(), &mut store);
    same(run, Err(EditionsFault::Folder(FolderFault::Current)))
}

#[test]
fn a_number_that_is_missing_is_named(rt: HostRuntime) -> Result<(), Fail> {
    let mut store = published(rt.alloc(), 2)?;
    if store.editions.len() > 1 {
        let _ = store.editions.remove(1);
    }
    refused(
        rt.alloc(),
        &mut store,
        "edition 3 follows 2, which isn't there\n2 editions; edition 3 is served\nREFUSED\n",
    )?;
    let (run, said) = listed(rt.alloc(), &mut store);
    same(run, Ok(EditionsStatus::Listed))?;
    same(
        said.as_slice().ends_with(
            b"edition 3  served   follows 2  3 frames, edition 2 isn't there\n",
        ),
        true,
    )
}

#[test]
fn an_edition_that_comes_between_is_named(rt: HostRuntime) -> Result<(), Fail> {
    let mut store = published(rt.alloc(), 2)?;
    let (_, edition) = store.editions.get_mut(2).ok_or("an edition")?;
    edition.follows = copied(rt.alloc(), b"1\n")?;
    edition.sums = editions::sums_text(
        rt.alloc(),
        edition.base.as_slice(),
        edition.cert.as_slice(),
        edition.policy.as_slice(),
        edition.follows.as_slice(),
    )?;
    refused(
        rt.alloc(),
        &mut store,
        "edition 3 follows 1, but edition 2 comes between them\n3 editions; edition 3 is served\nREFUSED\n",
    )?;
    // in the list it is compared with the first
    let (_, said) = listed(rt.alloc(), &mut store);
    same(
        said.as_slice()
            .ends_with(b"edition 3  served   follows 1  3 frames, 1 changed\n"),
        true,
    )
}

// Each file of the second edition, with another text that reads as well.
const EDITED: [(EditionFile, &str, &str); 4] = [
    (EditionFile::Base, "PART 1", "PART X"),
    (EditionFile::Policy, "keyings = 1", "keyings = 2"),
    (EditionFile::Follows, "1\n", "-\n"),
    (EditionFile::Cert, "ceiling 5", "ceiling 4"),
];

fn edited(alloc: Global, text: &[u8], old: &str, new: &str) -> Result<Vec<u8>, Fail> {
    let text = str::from_utf8(text)?;
    let text = text.replace(alloc, old, new)?;
    Ok(copied(alloc, text.as_bytes())?)
}

#[test]
fn a_file_that_was_edited_is_named(rt: HostRuntime) -> Result<(), Fail> {
    for (file, old, new) in EDITED {
        let mut store = published(rt.alloc(), 1)?;
        let (_, edition) = store.editions.get_mut(1).ok_or("an edition")?;
        let text = match file {
            EditionFile::Base => &mut edition.base,
            EditionFile::Policy => &mut edition.policy,
            EditionFile::Follows => &mut edition.follows,
            _ => &mut edition.cert,
        };
        *text = edited(rt.alloc(), text.as_slice(), old, new)?;
        let name = file.name();
        let said = format!(in rt.alloc();
            "live/editions/2/{name}: it was changed: its sum isn't the one in SHA256SUMS\n2 editions; edition 2 is served\nREFUSED\n"
        )?;
        refused(rt.alloc(), &mut store, said.as_str())?;
    }
    Ok(())
}

#[test]
fn a_file_that_does_not_read_is_named(rt: HostRuntime) -> Result<(), Fail> {
    let mut store = published(rt.alloc(), 0)?;
    let (_, edition) = store.editions.get_mut(0).ok_or("an edition")?;
    edition.cert.truncate(5);
    refused(
        rt.alloc(),
        &mut store,
        "live/editions/1/base.cert: it isn't what was published\n1 edition; edition 1 is served\nREFUSED\n",
    )?;
    let (run, _) = listed(rt.alloc(), &mut store);
    same(
        run,
        Err(EditionsFault::Folder(FolderFault::Unread(1, EditionFile::Cert))),
    )?;
    same(status_of_editions(&run), 3)
}

#[test]
fn a_base_is_summed_up(rt: HostRuntime) -> Result<(), Fail> {
    let demo = base_text::base_read(rt.alloc(), DEMO.as_bytes())?;
    same(
        base_summary(rt.alloc(), None, &demo)?.as_slice(),
        b"3 frames".as_slice(),
    )?;
    same(
        base_summary(rt.alloc(), Some(&demo), &demo)?.as_slice(),
        b"3 frames".as_slice(),
    )
}
