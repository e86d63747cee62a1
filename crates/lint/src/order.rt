ghost use Rattle.lint.specs.Findings.{AreInOrder};
ghost use Rattle.std.specs.Prelude.{OnOk};

use crate::finding::Finding;
use std::alloc::AllocError;

// Puts findings in the order of where they begin. Those that begin at one place stay in the order in which they were judged.
pub fn put_in_order(findings: &mut Vec<Finding>) -> Result<(), AllocError>
    ensures { OnOk result (AreInOrder findings.old.items findings.new.items) }
{
    findings.sort_by_key(|finding| finding.span.begin)
}
