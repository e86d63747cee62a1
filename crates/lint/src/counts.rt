ghost use Rattle.std.specs.Prelude.{◌≡◌, IfOk};
ghost use Rattle.lint.specs.Findings.{count_of, counted_text};

use crate::finding::{Finding, Level};
use lint_words::push_counted;
use std::alloc::{AllocError, Global};

/// How many findings there are of each level.
#[derive(Debug, Clone, Copy, PartialEq, Eq)]
pub struct Counts {
    pub errors: usize,
    pub warnings: usize,
}

fn count_of(level: Level, findings: &[Finding]) -> usize
    ensures { result ≡ count_of level findings.now }
{
    findings
        .iter()
        .filter(|finding| finding.level == level)
        .count()
}

impl Counts {
    pub fn of(findings: &[Finding]) -> Counts
        ensures errors { result.errors ≡ count_of Level.Error findings.now }
        ensures warnings { result.warnings ≡ count_of Level.Warning findings.now }
    {
        Counts {
            errors: count_of(Level::Error, findings),
            warnings: count_of(Level::Warning, findings),
        }
    }
}

/// The numbers of findings in words and a line feed, as `3 errors, 1 warning`; nothing if there are none.
pub fn counted_text(alloc: Global, counts: &Counts) -> Result<Vec<u8>, AllocError>
    ensures { IfOk result (λ text. text.items ≡ counted_text counts.now) }
{
    let mut text = Vec::new(alloc);
    if counts.errors > 0 || counts.warnings > 0 {
        push_counted(&mut text, counts.errors, counts.warnings)?;
        text.extend_from_slice(b"\n")?;
    }
    Ok(text)
}
