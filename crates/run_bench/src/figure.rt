//! What is printed.

use anyhow::Result;
use std::time::Duration;

/// A number with what it is of and its unit.
#[derive(Clone, Copy)]
pub struct Figure {
    what: &'static str,
    number: u128,
    unit: &'static str,
}

impl Figure {
    /// A number of a unit.
    pub fn of(what: &'static str, number: u128, unit: &'static str) -> Figure {
        Figure { what, number, unit }
    }

    /// Kilobytes.
    pub fn kilobytes(what: &'static str, number: u128) -> Figure {
        Figure::of(what, number, "kB")
    }

    /// A time in thousandths of a second.
    pub fn millis(what: &'static str, time: Duration) -> Figure {
        Figure::of(what, time.as_millis(), "ms")
    }

    /// How many hundredths of a whole a part is; `unit` says of what, as `percent of the text`.
    pub fn percent(what: &'static str, part: u128, whole: u128, unit: &'static str) -> Figure {
        Figure::of(what, part.saturating_mul(100) / whole.max(1), unit)
    }

    /// The same of two times.
    pub fn share(
        what: &'static str,
        part: Duration,
        whole: Duration,
        unit: &'static str,
    ) -> Figure {
        Figure::percent(what, part.as_nanos(), whole.as_nanos(), unit)
    }
}

/// Prints figures of one thing to standard error, a line for each.
pub fn report(rt: &HostRuntime, of: &str, figures: &[Figure]) -> Result<()> {
    for figure in figures {
        eprintln!(rt; "{of}: {} {} {}", figure.what, figure.number, figure.unit)?;
    }
    Ok(())
}
