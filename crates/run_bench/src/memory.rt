//! The greatest memory of the process, as Linux reports it.

use anyhow::{Result, bail};
use std::fs;

// The kilobytes of a status that has a line as `VmHWM:  1024 kB`.
fn kilobytes(status: &str) -> Option<u64> {
    let (_, line) = status.split_once("VmHWM:")?;
    line.split_ascii_whitespace().next()?.parse::<u64>().ok()
}

/// The greatest memory in kilobytes since the start, or since it was forgotten.
pub fn peak(rt: &HostRuntime) -> Result<u64> {
    let status = fs::read_to_string(rt, "/proc/self/status")?;
    match kilobytes(status.as_str()) {
        Some(number) => Ok(number),
        None => bail!("no peak memory is reported"),
    }
}

/// Forgets the greatest memory so far: what the process has now counts from here.
pub fn forget_peak(rt: &HostRuntime) -> Result<()> {
    Ok(fs::write(rt, "/proc/self/clear_refs", "5")?)
}
