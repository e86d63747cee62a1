//! How fast bodies are painted, beside painting byte by byte, and how fast plain bytes are passed over, beside a copy.
//!
//! Both forms have to answer alike on each kind of body.

use crate::by_bytes::paint_by_bytes;
use crate::size::Size;
use abstract_paint::{Painted, paint, plain_run};
use anyhow::{Result, bail};
use frame_records::Lead;
use std::time::{CpuClock, Duration};

const BODY: usize = 4_096;

const BODIES: u32 = 4_096;

const RUNS: usize = 9;

// What a body has; all but the first kind begin each page with home and one row down.
#[derive(Debug, Clone, Copy)]
enum Kind {
    // Plain bytes alone, of which the 881st touches.
    Plain,
    // Letters to the end of row 22.
    Pages,
    // Rows of 40 codes, each with its end.
    Rows,
    // In each eight bytes an attribute after an escape, and six letters.
    Escapes,
    // Moves alone.
    Moves,
}

// How a body is painted.
#[derive(Debug, Clone, Copy)]
enum Form {
    // By runs of plain bytes.
    Runs,
    // Byte by byte.
    Bytes,
}

// How long a page is.
fn page_length(kind: Kind) -> usize {
    match kind {
        Kind::Plain | Kind::Moves => BODY,
        Kind::Pages => 882,
        Kind::Rows => 464,
        Kind::Escapes => 1_002,
    }
}

fn letter(place: usize) -> u8 {
    0x41 + (place % 26) as u8
}

// The byte at a place of a page, home and one row down left out.
fn page_byte(kind: Kind, place: usize) -> u8 {
    match (kind, place % 8, place % 42) {
        (Kind::Moves, eighth, _) => [0x08, 0x09, 0x0a, 0x0b][eighth % 4],
        (Kind::Escapes, 0, _) => 0x1b,
        (Kind::Rows, _, 40) => 0x0d,
        (Kind::Rows, _, 41) => 0x0a,
        _ => letter(place),
    }
}

fn byte_at(kind: Kind, place: usize) -> u8 {
    match (kind, place) {
        (Kind::Plain, _) => letter(place),
        (_, 0) => 0x1e,
        (_, 1) => 0x0a,
        _ => page_byte(kind, place.saturating_sub(2)),
    }
}

// This many bodies.
fn bodies(rt: &HostRuntime, kind: Kind, count: u32) -> Result<Vec<u8>> {
    let page = page_length(kind).max(1);
    let mut bytes = Vec::new(rt.alloc());
    for _ in 0..count {
        for place in 0..BODY {
            bytes.push(byte_at(kind, place % page))?;
        }
    }
    Ok(bytes)
}

// How many bytes were looked at.
fn judged(body: &[u8], painted: Painted) -> usize {
    match painted {
        Painted::Clean(_) => body.len(),
        Painted::Touches(offset) => offset.saturating_add(1),
    }
}

// The bytes judged in all bodies.
fn paint_all(form: Form, bytes: &[u8]) -> usize {
    let mut all = 0usize;
    for body in bytes.chunks(BODY) {
        let painted = match form {
            Form::Runs => paint(Lead::Clear, body),
            Form::Bytes => paint_by_bytes(Lead::Clear, body),
        };
        all = all.saturating_add(judged(body, painted));
    }
    all
}

fn paint_time(rt: &HostRuntime, form: Form, bytes: &[u8]) -> Result<(Duration, usize)> {
    let start = rt.thread_cpu_time()?;
    let all = paint_all(form, bytes);
    Ok((rt.thread_cpu_time()?.saturating_sub(start), all))
}

// Millions of bytes in a second.
fn speed(bytes: usize, time: Duration) -> u128 {
    bytes as u128 * 1_000 / time.as_nanos().max(1)
}

// How many hundredths of the second speed the first is.
fn percent(speed: u128, other: u128) -> u128 {
    speed.saturating_mul(100) / other.max(1)
}

fn measure_kind(rt: &HostRuntime, kind: Kind, count: u32) -> Result<()> {
    let bytes = bodies(rt, kind, count)?;
    let (mut by_runs, all) = paint_time(rt, Form::Runs, &bytes)?;
    let (mut by_bytes, all_bytes) = paint_time(rt, Form::Bytes, &bytes)?;
    for _ in 1..RUNS {
        by_runs = paint_time(rt, Form::Runs, &bytes)?.0.min(by_runs);
        by_bytes = paint_time(rt, Form::Bytes, &bytes)?.0.min(by_bytes);
    }
    if all != all_bytes {
        bail!("the forms differ");
    }
    let (fast, plain) = (speed(all, by_runs), speed(all, by_bytes));
    eprintln!(rt;
        "{kind:?}: paint {fast} MB/s, byte by byte {plain} MB/s, {} percent",
        percent(fast, plain)
    )?;
    Ok(())
}

fn run_time(rt: &HostRuntime, bytes: &[u8]) -> Result<Duration> {
    let start = rt.thread_cpu_time()?;
    let run = plain_run(bytes);
    let time = rt.thread_cpu_time()?.saturating_sub(start);
    if run != bytes.len() {
        bail!("a plain byte is not counted");
    }
    Ok(time)
}

fn copy_time(rt: &HostRuntime, bytes: &[u8], copy: &mut [u8]) -> Result<Duration> {
    if copy.len() != bytes.len() {
        bail!("there is other room than needed");
    }
    let start = rt.thread_cpu_time()?;
    copy.copy_from_slice(bytes);
    Ok(rt.thread_cpu_time()?.saturating_sub(start))
}

// Plain bytes passed over, beside a copy of them into room that is there.
fn measure_run(rt: &HostRuntime, count: u32) -> Result<()> {
    let bytes = bodies(rt, Kind::Plain, count)?;
    let mut copy = bodies(rt, Kind::Moves, count)?;
    let mut copying = copy_time(rt, &bytes, &mut copy)?;
    let mut running = run_time(rt, &bytes)?;
    for _ in 1..RUNS {
        copying = copy_time(rt, &bytes, &mut copy)?.min(copying);
        running = run_time(rt, &bytes)?.min(running);
    }
    if copy != bytes {
        bail!("the copy differs");
    }
    let (run, plain_copy) = (speed(bytes.len(), running), speed(bytes.len(), copying));
    eprintln!(rt;
        "plain_run {run} MB/s, a copy {plain_copy} MB/s, {} percent",
        percent(run, plain_copy)
    )?;
    Ok(())
}

/// Measures both, of bodies with 16,777,216 bytes in all or of a sixteenth.
pub fn measure(rt: &HostRuntime, size: Size) -> Result<()> {
    let count = size.of(BODIES);
    measure_run(rt, count)?;
    for kind in [
        Kind::Plain,
        Kind::Pages,
        Kind::Rows,
        Kind::Escapes,
        Kind::Moves,
    ] {
        measure_kind(rt, kind, count)?;
    }
    Ok(())
}
