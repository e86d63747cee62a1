//! The fix of one finding.

use crate::rounds::widest;
use lint::lint;
use slip_fixes::certain_fix;
use std::test::Fail;
use test_support::same;

#[test]
fn fix_is_a_part_of_the_span(rt: HostRuntime) -> Result<(), Fail> {
    let text = b"entry = 1\n[[frame]]\nid = \"1a\"\nrows = []\nroutes = { 1 = \"820\" }\n";
    let findings = lint(rt.alloc(), text, &widest())?;
    let finding = findings.as_slice().first().ok_or("a finding")?;
    let fix = certain_fix(rt.alloc(), text, finding)?.ok_or("a fix")?;
    same((fix.begin, fix.end), (55, 60))?;
    same(fix.text.as_slice(), b"820")
}
