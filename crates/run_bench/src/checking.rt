//! Walks, checks and changes against `toml` alone, a check's time for each row, and what groups cost.

use crate::edition::Edition;
use crate::figure::{Figure, report};
use crate::shape::{Mark, Shape};
use crate::size::Size;
use crate::work::{Work, least_times};
use anyhow::{Result, bail};
use std::alloc::{AllocError, Global};

const RUNS: u32 = 3;

const SHAPES: [Shape; 4] = [Shape::Tree, Shape::Scattered, Shape::Chain, Shape::Bodies];

// The edition of a text.
fn edition(alloc: Global, text: Result<Vec<u8>, AllocError>, mark: Mark) -> Result<Edition> {
    match Edition::of(alloc, text?, mark) {
        Some(edition) => Ok(edition),
        None => bail!("the base is not certified"),
    }
}

// The four times of an edition, and what the check compared and painted.
fn measure_edition(rt: &HostRuntime, shape: Shape, edition: &Edition) -> Result<()> {
    let text = edition.text.as_slice();
    let works = [
        Work::Tree(text),
        Work::Walk(text),
        Work::Check(edition),
        Work::Change(edition),
    ];
    let [tree, walk, check, change] = least_times::<4>(rt, RUNS, &works)?;
    let Some(count) = edition.count(rt.alloc()) else {
        bail!("the certificate is refused");
    };
    let of_toml = "percent of TOML alone";
    let figures = [
        Figure::millis("TOML alone", tree),
        Figure::millis("walk", walk),
        Figure::share("walk", walk, tree, of_toml),
        Figure::millis("check", check),
        Figure::share("check", check, tree, of_toml),
        Figure::of("check", count.probes.into(), "probes"),
        Figure::of("check", count.steps.into(), "steps"),
        Figure::millis("change", change),
        Figure::share(
            "change",
            change,
            check.saturating_add(check),
            "percent of two checks",
        ),
    ];
    report(rt, shape.name(), &figures)
}

fn measure_shape(rt: &HostRuntime, shape: Shape, size: Size) -> Result<()> {
    let text = shape.text_of(rt.alloc(), size, Mark::None);
    let edition = edition(rt.alloc(), text, Mark::None)?;
    measure_edition(rt, shape, &edition)
}

// The nanoseconds of a check for each row.
fn row_time(rt: &HostRuntime, shape: Shape, frames: u32) -> Result<u128> {
    let text = shape.text(rt.alloc(), frames, Mark::None);
    let edition = edition(rt.alloc(), text, Mark::None)?;
    let [check] = least_times::<1>(rt, RUNS, &[Work::Check(&edition)])?;
    Ok(check.as_nanos() / u128::from(frames.max(1)))
}

// How much more a row takes among many than among few.
fn measure_growth(rt: &HostRuntime, shape: Shape, size: Size) -> Result<()> {
    let frames = size.of(shape.most());
    let few = row_time(rt, shape, frames / 8)?;
    let many = row_time(rt, shape, frames)?;
    let figures = [
        Figure::of("a row of an eighth", few, "ns"),
        Figure::of("a row of all", many, "ns"),
        Figure::percent("a row of all", many, few, "percent of a row of an eighth"),
    ];
    report(rt, shape.name(), &figures)
}

// The check and the audit for a caller of 16 groups, against those for a caller outside every group.
fn compare(rt: &HostRuntime, shape: Shape, plain: &Edition, grouped: &Edition) -> Result<()> {
    let works = [
        Work::Check(plain),
        Work::Audit(plain.text.as_slice(), &plain.policy),
        Work::Check(grouped),
        Work::Audit(grouped.text.as_slice(), &grouped.policy),
    ];
    let [check, audit, group_check, group_audit] = least_times::<4>(rt, RUNS + 1, &works)?;
    let of_plain = "percent of that without groups";
    let figures = [
        Figure::share("check for 16 groups", group_check, check, of_plain),
        Figure::share("audit for 16 groups", group_audit, audit, of_plain),
    ];
    report(rt, shape.name(), &figures)
}

fn marked(rt: &HostRuntime, shape: Shape, size: Size, mark: Mark) -> Result<Edition> {
    let text = shape.text(rt.alloc(), size.of(shape.most()) / 4, mark);
    edition(rt.alloc(), text, mark)
}

fn measure_groups(rt: &HostRuntime, shape: Shape, size: Size) -> Result<()> {
    let plain = marked(rt, shape, size, Mark::Price)?;
    let grouped = marked(rt, shape, size, Mark::Group)?;
    compare(rt, shape, &plain, &grouped)
}

/// Measures each shape, how the time of a row grows, and groups.
pub fn measure(rt: &HostRuntime, size: Size) -> Result<()> {
    for shape in SHAPES {
        measure_shape(rt, shape, size)?;
    }
    for shape in [Shape::Tree, Shape::Scattered, Shape::Chain] {
        measure_growth(rt, shape, size)?;
    }
    for shape in SHAPES {
        measure_groups(rt, shape, size)?;
    }
    Ok(())
}
