//! How long audits, checks, walks and changes of safe base texts take, against `toml` alone on the base's text.
//!
//! `run_bench audit` measures reading, auditing and lint in four shapes, lint of many rows that are too long, and a long
//! chain's faults. `run_bench check` measures checks, walks and changes in these shapes, a check's time for each row of an
//! eighth of the frames and of all, and checks and audits for a caller of 16 groups. After these words `full` measures
//! bases of full size, else a sixteenth. `run_bench find` measures the finder alone, and `run_bench paint` painting. Without
//! any word all are measured, with a sixteenth, to show in seconds that each result is right. The figures go to standard
//! error: the least processor times of some runs in turns. `ok` is printed if each result was right. `run_bench show FILE`
//! only makes the screens of all frames of a base as texts, for `tools/speeds`, which measures the program's commands, and
//! `run_bench call NAME WORD..` one call that takes memory, for the tests that refuse it.
#![tactic(auto)]

mod auditing;
mod by_bytes;
mod calls;
mod checking;
mod edition;
mod figure;
mod finding;
mod memory;
mod painting;
mod shape;
mod showing;
mod size;
mod work;

use anyhow::{Result, bail};
use size::Size;
use std::env;

fn run_all(rt: &HostRuntime) -> Result<()> {
    auditing::measure(rt, Size::Part)?;
    checking::measure(rt, Size::Part)?;
    finding::measure(rt)?;
    painting::measure(rt, Size::Part)
}

fn run(rt: &HostRuntime, words: &[String]) -> Result<()> {
    let Some(word) = words.get(1) else {
        return run_all(rt);
    };
    let is_full = words.get(2).is_some_and(|word| word.as_str() == "full");
    let size = if is_full { Size::Full } else { Size::Part };
    match word.as_str() {
        "audit" => auditing::measure(rt, size),
        "check" => checking::measure(rt, size),
        "find" => finding::measure(rt),
        "paint" => painting::measure(rt, Size::Full),
        "show" => showing::show(rt, words.get(2).map_or("", |path| path.as_str())),
        _ => bail!("the words are audit|check [full], find, paint, show FILE or call NAME"),
    }
}

fn main(rt: HostRuntime) -> Result<()> {
    let words: Vec<String> = env::args(&rt)?.collect(rt.alloc())?;
    if words.get(1).is_some_and(|word| word.as_str() == "call") {
        return calls::call(&rt, words.get(2..).unwrap_or(&[]));
    }
    run(&rt, words.as_slice())?;
    println!(rt; "ok")?;
    Ok(())
}
