//! Finding the frames of a base of 65,535 frames, against one pass of look-ups of its routes in an `IndexMap`.

use anyhow::{Result, bail};
use finder::find;
use frame_records::{Base, Body, Frame, Groups, Lead, Pence};
use indexmap::IndexMap;
use page_ids::{FrameId, PageNo};
use std::alloc::Global;
use std::time::{CpuClock, Duration};

const FRAMES: u32 = 65_535;

const FIRST_PAGE: u32 = 100_000;

const RUNS: u32 = 5;

type Places = IndexMap<FrameId, u32>;

// The page of a number, which counts round.
fn page_of(number: u32) -> Result<PageNo> {
    match PageNo::new(FIRST_PAGE + number % FRAMES) {
        Some(page) => Ok(page),
        None => bail!("no such page"),
    }
}

// How the ten routes of a frame lie.
#[derive(Clone, Copy)]
enum Routes {
    // To ten frames in a row: five keys lead from any frame to any other.
    InARow,
    // To ten scattered frames; here too five keys do.
    Scattered,
    // Each to the next frame.
    Chain,
    // To ten frames that no other frame leads to, as far as there are any, and else to the entry frame.
    Tree,
}

// The frame to which a frame's route of this digit leads.
fn target(routes: Routes, number: u32, digit: u32) -> u32 {
    let child = number.wrapping_mul(10).wrapping_add(digit.wrapping_add(1));
    match routes {
        Routes::InARow => child % FRAMES,
        Routes::Scattered => (child % FRAMES).wrapping_mul(40_507) % FRAMES,
        Routes::Chain => number.wrapping_add(1) % FRAMES,
        Routes::Tree => { if child < FRAMES { child } else { 0 } }
    }
}

// The page to which a frame's route of this digit leads.
fn route(routes: Routes, number: u32, digit: u32) -> Option<PageNo> {
    PageNo::new(FIRST_PAGE + target(routes, number, digit) % FRAMES)
}

// A frame with ten routes.
fn frame_of(alloc: Global, routes: Routes, number: u32) -> Result<Frame> {
    let Some(price) = Pence::new(5) else {
        bail!("no such price");
    };
    Ok(Frame {
        id: FrameId::first(page_of(number)?),
        price,
        group: None,
        next: false,
        routes: [
            route(routes, number, 0),
            route(routes, number, 1),
            route(routes, number, 2),
            route(routes, number, 3),
            route(routes, number, 4),
            route(routes, number, 5),
            route(routes, number, 6),
            route(routes, number, 7),
            route(routes, number, 8),
            route(routes, number, 9),
        ],
        lead: Lead::Clear,
        body: Body::of(Vec::new(alloc)),
    })
}

fn large_base(alloc: Global, routes: Routes) -> Result<Base> {
    let mut frames = Vec::new(alloc);
    for number in 0..FRAMES {
        frames.push(frame_of(alloc, routes, number)?)?;
    }
    match Base::build(page_of(0)?, Vec::new(alloc), frames) {
        Ok(base) => Ok(base),
        Err(_) => bail!("no base"),
    }
}

fn places_of(alloc: Global, base: &Base) -> Result<Places> {
    let mut places = IndexMap::new(alloc);
    for (place, frame) in base.frames().iter().enumerate() {
        places.insert(frame.id, place as u32)?;
    }
    Ok(places)
}

// How many routes of a frame lead to a frame.
fn routes_found(frame: &Frame, places: &Places) -> usize {
    let pages = frame.routes.iter().flatten();
    pages
        .filter(|page| places.get(&FrameId::first(**page)).is_some())
        .count()
}

fn all_routes_found(base: &Base, places: &Places) -> usize {
    let mut count = 0usize;
    for frame in base.frames() {
        count = count.wrapping_add(routes_found(frame, places));
    }
    count
}

fn lookup_time(rt: &HostRuntime, base: &Base) -> Result<Duration> {
    let places = places_of(rt.alloc(), base)?;
    let start = rt.thread_cpu_time()?;
    let count = all_routes_found(base, &places);
    let time = rt.thread_cpu_time()?.saturating_sub(start);
    if count != 655_350 {
        bail!("a route leads nowhere");
    }
    Ok(time)
}

fn find_time(rt: &HostRuntime, base: &Base) -> Result<Duration> {
    let start = rt.thread_cpu_time()?;
    let found = find(rt.alloc(), base, &Groups::none())?;
    let time = rt.thread_cpu_time()?.saturating_sub(start);
    if found.as_slice().len() != 65_535 {
        bail!("a frame is not found");
    }
    Ok(time)
}

// The least times of some runs in turn: of the look-ups, and of `find`.
fn least_times(rt: &HostRuntime, base: &Base) -> Result<(Duration, Duration)> {
    let mut lookups = lookup_time(rt, base)?;
    let mut finding = find_time(rt, base)?;
    for turn in 1..RUNS {
        lookups = lookup_time(rt, base)?.min(lookups);
        finding = find_time(rt, base)?.min(finding);
    }
    Ok((lookups, finding))
}

fn measure_routes(rt: &HostRuntime, name: &str, routes: Routes) -> Result<()> {
    let base = large_base(rt.alloc(), routes)?;
    let (lookups, finding) = least_times(rt, &base)?;
    let lookups = lookups.as_micros().max(1);
    let finding = finding.as_micros();
    eprintln!(rt;
        "routes {name}: look-ups {lookups} us, find {finding} us, {} percent",
        finding * 100 / lookups
    )?;
    Ok(())
}

/// Bases whose routes lead to frames in a row, to scattered ones, each to the next frame alone, and in a tree.
pub fn measure(rt: &HostRuntime) -> Result<()> {
    measure_routes(rt, "in a row", Routes::InARow)?;
    measure_routes(rt, "scattered", Routes::Scattered)?;
    measure_routes(rt, "in a chain", Routes::Chain)?;
    measure_routes(rt, "in a tree", Routes::Tree)
}
