ghost use Rattle.std.specs.Prelude.{◌≡◌, ◌<◌, ◌≤◌, ◌+◌, IfOk, OnOk, length};
ghost use Rattle.finder.specs.Finds.{IsFinding};
ghost use Rattle.fault_scripts.specs.Loops.{IsAuditedSoFar};

use crate::reporter::Reporter;
use crate::table::GatheredRows;
use abstract_paint::paint;
use checker::Policy;
use finder::Survey;
use std::alloc::{AllocError, Global};

// Judges the discovered frames: reports their faults, and gathers the rows of a certificate.
#[derive(Drop)]
pub struct Judge {
    pub reporter: Reporter,
    pub table: GatheredRows,
}

impl Judge {
    // Judges the discovered frame at an index, which is painted once.
    fn frame(
        &mut self,
        alloc: Global,
        survey: &Survey,
        policy: &Policy,
        index: u32,
    ) -> Result<(), AllocError>
        requires within { index < length survey.now.found }
        requires groups { survey.now.groups ≡ policy.now.groups }
        requires judged { IsAuditedSoFar survey.now.base policy.now survey.now.found index self.old }
        ensures { OnOk result (IsAuditedSoFar survey.now.base policy.now survey.now.found (index + 1) self.new) }
    {
        let discovered = survey.discovered_at(index);
        let frame = survey.frame(index as usize);
        let painted = paint(frame.lead, frame.body.as_slice());
        self.reporter
            .judge(alloc, survey, policy, index, frame, painted)?;
        self.table
            .add(discovered.id, discovered.rank, frame.price, painted)?;
        Ok(())
    }
}

// Judges all discovered frames, in order.
pub fn judge_all(alloc: Global, survey: &Survey, policy: &Policy) -> Result<Judge, AllocError>
    requires few { length survey.now.found ≤ 65535 }
    requires groups { survey.now.groups ≡ policy.now.groups }
    requires finding { IsFinding policy.now.groups survey.now.base survey.now.found }
    ensures { IfOk result (IsAuditedSoFar survey.now.base policy.now survey.now.found (length survey.now.found)) }
{
    let count = survey.found().as_slice().len() as u32;
    let mut judge = Judge {
        reporter: Reporter::new(alloc),
        table: GatheredRows::new(alloc),
    };
    for index in 0..count {
        judge.frame(alloc, survey, policy, index)?;
    }
    Ok(judge)
}
