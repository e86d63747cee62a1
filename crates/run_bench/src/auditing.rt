//! Reading, auditing and finding every fault against `toml` alone, and the faults of a long chain.

use crate::edition::{audited, policy, whole_base};
use crate::figure::{Figure, report};
use crate::memory::{forget_peak, peak};
use crate::shape::{LONG_ROWS, Mark, Shape};
use crate::size::Size;
use crate::work::{Work, least_times};
use anyhow::{Result, bail};
use checker::Policy;
use frame_records::Base;
use std::alloc::Global;
use std::time::{CpuClock, Duration};

const RUNS: u32 = 5;

const OF_AUDIT: &str = "percent of the time of the audit";

// The shapes in the order of the memory that they take: what one leaves with the allocator hides nothing of the next.
const SHAPES: [Shape; 4] = [Shape::Bodies, Shape::Tree, Shape::Scattered, Shape::Chain];

// The frames of the chain whose scripts have 200 million keys together.
const CHAIN: u32 = 20_000;

// The greatest memory of a piece of work, in kilobytes.
fn peak_of(rt: &HostRuntime, work: &Work) -> Result<u128> {
    forget_peak(rt)?;
    work.time(rt)?;
    Ok(u128::from(peak(rt)?))
}

// What a text takes, and how much more than `toml` alone that is.
fn measure_text(rt: &HostRuntime, shape: Shape, text: &[u8], policy: &Policy) -> Result<()> {
    let works = [
        Work::Tree(text),
        Work::Read(text),
        Work::Audit(text, policy),
        Work::Lint(text, policy, 0),
    ];
    let [tree, read, audit, _] = &works;
    let tree_peak = peak_of(rt, tree)?;
    let read_peak = peak_of(rt, read)?;
    let audit_peak = peak_of(rt, audit)?;
    let [tree, read, audit, lint] = least_times::<4>(rt, RUNS, &works)?;
    let (of_time, of_memory) = ("percent of the time of TOML alone", "percent of its memory");
    let figures = [
        Figure::millis("TOML alone", tree),
        Figure::kilobytes("TOML alone", tree_peak),
        Figure::share("base_read", read, tree, of_time),
        Figure::percent("base_read", read_peak, tree_peak, of_memory),
        Figure::share("audit", audit, tree, of_time),
        Figure::percent("audit", audit_peak, tree_peak, of_memory),
        Figure::share("lint", lint, audit, OF_AUDIT),
    ];
    report(rt, shape.name(), &figures)
}

fn measure_shape(rt: &HostRuntime, shape: Shape, size: Size) -> Result<()> {
    let Some(policy) = policy(16, Mark::None) else {
        bail!("no policy");
    };
    let text = shape.text_of(rt.alloc(), size, Mark::None)?;
    measure_text(rt, shape, text.as_slice(), &policy)
}

// Finding a row that is too long in each of many frames of a tree, against the audit of the tree without them.
fn measure_long_rows(rt: &HostRuntime, size: Size) -> Result<()> {
    let Some(policy) = policy(16, Mark::None) else {
        bail!("no policy");
    };
    let right = Shape::Tree.text_of(rt.alloc(), size, Mark::None)?;
    let wrong = Shape::Tree.text_of(rt.alloc(), size, Mark::LongRow)?;
    let rows = LONG_ROWS.min(size.of(Shape::Tree.most()));
    let works = [
        Work::Audit(right.as_slice(), &policy),
        Work::Lint(wrong.as_slice(), &policy, rows as usize),
    ];
    let [audit, lint] = least_times::<2>(rt, RUNS, &works)?;
    let figures = [
        Figure::of("long rows", u128::from(rows), "rows"),
        Figure::share("lint", lint, audit, OF_AUDIT),
    ];
    report(rt, "long rows in a tree", &figures)
}

// A chain of frames, each with a price.
fn chain(alloc: Global, frames: u32) -> Option<Base> {
    let text = Shape::Chain.text(alloc, frames, Mark::Price).ok()?;
    whole_base(alloc, text.as_slice())
}

fn lines(text: &[u8]) -> usize {
    text.iter().filter(|byte| **byte == b'\n').count()
}

// Auditing a base each of whose frames is too dear and writing its faults; the length of the text too.
fn faults_time(rt: &HostRuntime, base: &Base, policy: &Policy) -> Result<(Duration, usize)> {
    let start = rt.thread_cpu_time()?;
    let printed = audited(rt.alloc(), base, policy).unwrap_or(Vec::new(rt.alloc()));
    let time = rt.thread_cpu_time()?.saturating_sub(start);
    if lines(printed.as_slice()) != base.frames().len().saturating_add(1) {
        bail!("not each frame is reported");
    }
    Ok((time, printed.len()))
}

fn measure_faults(rt: &HostRuntime, base: &Base) -> Result<()> {
    let Some(policy) = policy(0, Mark::Price) else {
        bail!("no policy");
    };
    forget_peak(rt)?;
    let (time, length) = faults_time(rt, base, &policy)?;
    let (memory, length) = (u128::from(peak(rt)?).saturating_mul(1024), length as u128);
    let figures = [
        Figure::of("faults", base.frames().len() as u128, "frames"),
        Figure::of("text", length, "bytes"),
        Figure::millis("audit", time),
        Figure::percent("memory", memory, length, "percent of the text"),
    ];
    report(rt, "chain of faults", &figures)
}

/// Measures each shape, and the faults of a chain.
pub fn measure(rt: &HostRuntime, size: Size) -> Result<()> {
    for shape in SHAPES {
        measure_shape(rt, shape, size)?;
    }
    measure_long_rows(rt, size)?;
    match chain(rt.alloc(), size.of(CHAIN)) {
        Some(base) => measure_faults(rt, &base),
        None => bail!("no base"),
    }
}
