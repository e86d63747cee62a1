//! What a run answered, asked for and wrote, beside what it should have.

ghost use Rattle.std.specs.Prelude.{◌≡◌, false};

use audit_report::RunFault;
use checker::Policy;
use frame_records::{Groups, Pence};
use pageaudit::Status;
use std::alloc::Global;
use std::test::Fail;
use test_support::{FakeSink, FakeSource, same_in};

pub type Answer = Result<Status, RunFault>;

// For a reader that gives all that it is asked for, and for one, and a writer, that doesn't fail.
pub const ALL: usize = usize::MAX;

// A text, and after how many bytes its reader fails.
pub type File<'a> = (&'a str, usize);

// A reader that gives at most this many bytes of a text a call, and fails after this many of all.
pub fn source(text: &str, step: usize, kept: usize) -> FakeSource<'_>
    ensures { result.failed ≡ false }
{
    if kept <= text.len() {
        FakeSource::broken(text.as_bytes(), step, kept)
    } else {
        FakeSource::of(text.as_bytes(), step)
    }
}

// A writer of a text that fails after this many bytes; after all of them it fails at its flush.
pub fn sink(alloc: Global, text: &str, room: usize) -> FakeSink
    ensures { result.failed ≡ false }
{
    if room < text.len() {
        FakeSink::full(alloc, 1_000, room)
    } else if room == text.len() {
        FakeSink::unflushed(alloc, 1_000)
    } else {
        FakeSink::of(alloc, 1_000)
    }
}

// How many bytes of a text were taken, if no others were.
pub fn taken(out: &FakeSink, text: &str) -> usize {
    let taken = out.taken.as_slice();
    if text.as_bytes().starts_with(taken) {
        taken.len()
    } else {
        ALL
    }
}

// Compares what a run answered, and the text that was taken of it and then flushed once.
pub fn expect(answer: Answer, out: &FakeSink, wanted: Answer, text: &str) -> Result<(), Fail> {
    if answer != wanted {
        let why = format_args!("{text}: {answer:?} in place of {wanted:?}");
        return Err(Fail::new(why));
    }
    let got = (out.taken.as_slice(), out.flushes, out.flushed);
    same_in(text, got, (text.as_bytes(), 1, text.len()))
}

// The policy of a caller outside every group.
pub fn policy(ceiling: u16, keyings: u16) -> Result<Policy, Fail> {
    let ceiling = Pence::new(ceiling).ok_or("ceiling")?;
    Ok(Policy {
        ceiling,
        keyings,
        groups: Groups::none(),
    })
}
