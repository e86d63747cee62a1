//! What is measured, and how long it takes.

use crate::edition::{Edition, certificate, read_base};
use anyhow::{Result, bail};
use base_text::base_read;
use checker::Policy;
use lint::lint;
use std::alloc::Global;
use std::time::{CpuClock, Duration};

/// A piece of work: what it makes is dropped in it.
#[derive(Clone, Copy)]
pub enum Work<'a> {
    /// `toml` alone makes the tree of a text.
    Tree(&'a [u8]),
    /// `base_read` of a text.
    Read(&'a [u8]),
    /// The base of a text is read from memory: a walk of no keys.
    Walk(&'a [u8]),
    /// The base of a text is read and audited, and its certificate is written.
    Audit(&'a [u8], &'a Policy),
    /// Every fault of a text is found: this many.
    Lint(&'a [u8], &'a Policy, usize),
    /// Both texts are read and checked.
    Check(&'a Edition),
    /// Twice both texts are read, and the change between these editions is checked.
    Change(&'a Edition),
}

impl Work<'_> {
    // Does it, and says whether its result is right.
    fn is_done(&self, alloc: Global) -> bool {
        match self {
            Work::Tree(text) => toml::table_from_slice(alloc, text).is_ok(),
            Work::Read(text) => base_read(alloc, text).is_ok(),
            Work::Walk(text) => read_base(alloc, *text).is_some(),
            Work::Audit(text, policy) => certificate(alloc, text, policy).is_some(),
            Work::Lint(text, policy, count) => match lint(alloc, text, policy) {
                Ok(findings) => findings.len() == *count,
                Err(_) => false,
            },
            Work::Check(edition) => edition.count(alloc).is_some(),
            Work::Change(edition) => edition.clears_change(alloc),
        }
    }

    /// The processor time that it takes.
    pub fn time(&self, rt: &HostRuntime) -> Result<Duration> {
        let start = rt.thread_cpu_time()?;
        let is_done = self.is_done(rt.alloc());
        let time = rt.thread_cpu_time()?.saturating_sub(start);
        if !is_done {
            bail!("what is measured has a wrong result");
        }
        Ok(time)
    }
}

/// The least time that each of as many pieces of work takes, in this many runs in turns.
pub fn least_times<const N: usize>(
    rt: &HostRuntime,
    runs: u32,
    works: &[Work],
) -> Result<[Duration; N]> {
    let mut least = [Duration::MAX; N];
    for _ in 0..runs {
        for (time, work) in least.iter_mut().zip(works.iter()) {
            *time = work.time(rt)?.min(*time);
        }
    }
    Ok(least)
}
