ghost use Rattle.std.specs.Prelude.{◌≡◌, ◌<◌, ◌*◌, ◌+◌, ◌++◌, [], None, Some, OnOk, length, option_map};
ghost use Rattle.std.specs.Option.{option_to_list};
ghost use Rattle.abstract_paint.specs.Paint.{paint_of};
ghost use Rattle.finder.specs.Finds.{ScriptsExtend, script};
ghost use Rattle.finder.specs.Survey.{IsFrameAt};
ghost use Rattle.fault_scripts.specs.Loops.{fault_of, HasScript, CanLead, IsReporting};

use crate::frame_fault::{FrameFault, over_price, return_fault, touch_start, way_fault};
use abstract_paint::Painted;
use base_faults::Fault;
use checker::Policy;
use finder::{Found, Survey, script_to};
use frame_records::Frame;
use page_ids::{FrameId, Key, Way};
use std::alloc::{AllocError, Global};

// Reports the faults of the discovered frames, one frame after another. The keys that lead to a frame are looked for when its
// first fault is reported, and go on from those of its parent if these are kept.
#[derive(Drop)]
pub struct Reporter {
    // The keys to the frame at this index.
    pub at: Option<u32>,
    pub keys: Vec<Key>,
    pub faults: Vec<Fault>,
}

// The keys that lead to the frame at an index, looked for anew.
fn rebuild_script(
    alloc: Global,
    found: &Found,
    index: u32,
    keys: &mut Vec<Key>,
) -> Result<(), AllocError>
    requires { index < length found.now }
    ensures { OnOk result (keys.new.items ≡ script found.now index) }
{
    let script = script_to(alloc, found, index)?;
    keys.clear();
    keys.extend_from_slice(script.as_slice())?;
    Ok(())
}

// The keys that lead to the frame at an index, if the kept ones lead to another.
fn extend_script(
    alloc: Global,
    found: &Found,
    index: u32,
    at: Option<u32>,
    keys: &mut Vec<Key>,
) -> Result<(), AllocError>
    requires { CanLead found.now index at keys.old.items }
    ensures { OnOk result (keys.new.items ≡ script found.now index) }
{
    match found.parent_of(index) {
        Some((parent, key)) if at == Some(parent) => {
            keys.push(key)?;
            Ok(())
        }
        _ => rebuild_script(alloc, found, index, keys),
    }
}

impl Reporter {
    // Nothing is reported yet.
    pub fn new(alloc: Global) -> Reporter
        ensures at { result.at ≡ None }
        ensures none { result.faults.items ≡ [] }
    {
        Reporter {
            at: None,
            keys: Vec::new(alloc),
            faults: Vec::new(alloc),
        }
    }

    // Makes the kept keys those that lead to the frame at an index.
    fn seek_to(&mut self, alloc: Global, found: &Found, index: u32) -> Result<(), AllocError>
        requires { CanLead found.now index self.old.at self.old.keys.items }
        ensures at { OnOk result (self.new.at ≡ Some index) }
        ensures keys { OnOk result (self.new.keys.items ≡ script found.now index) }
        ensures faults { self.new.faults.items ≡ self.old.faults.items }
    {
        if self.at == Some(index) {
            return Ok(());
        }
        extend_script(alloc, found, index, self.at, &mut self.keys)?;
        self.at = Some(index);
        Ok(())
    }

    // Reports the fault of the frame at an index, if there is one.
    fn report(
        &mut self,
        alloc: Global,
        survey: &Survey,
        index: u32,
        id: FrameId,
        wrong: Option<FrameFault>,
    ) -> Result<(), AllocError>
        requires within { index < length survey.now.found }
        requires extends { ScriptsExtend survey.now.found }
        requires script { HasScript survey.now.found self.old.at self.old.keys.items }
        ensures script { OnOk result (HasScript survey.now.found self.new.at self.new.keys.items) }
        ensures reported { OnOk result (self.new.faults.items ≡ self.old.faults.items ++
            option_to_list (option_map (fault_of id (script survey.now.found index)) wrong)) }
    {
        let Some(wrong) = wrong else {
            return Ok(());
        };
        self.seek_to(alloc, survey.found(), index)?;
        let fault = wrong.fault(alloc, id, self.keys.as_slice())?;
        self.faults.push(fault)?;
        Ok(())
    }

    // Reports the faults of the frame at an index: Price, Touches, Missing and Closed by way, NoReturn.
    pub fn judge(
        &mut self,
        alloc: Global,
        survey: &Survey,
        policy: &Policy,
        index: u32,
        frame: &Frame,
        painted: Painted,
    ) -> Result<(), AllocError>
        requires within { index < length survey.now.found }
        requires frame { IsFrameAt survey.now index frame.now }
        requires painted { painted ≡ paint_of frame.now.lead frame.now.body }
        requires groups { survey.now.groups ≡ policy.now.groups }
        requires reporting { IsReporting survey.now.base policy.now survey.now.found (index * 14) self.old }
        ensures { OnOk result (IsReporting survey.now.base policy.now survey.now.found ((index + 1) * 14) self.new) }
    {
        let discovered = survey.discovered_at(index);
        let id = discovered.id;
        self.report(
            alloc,
            survey,
            index,
            id,
            over_price(policy.ceiling, frame.price),
        )?;
        self.report(alloc, survey, index, id, touch_start(frame, painted))?;
        for place in 0..Way::COUNT {
            let way = Way::at(place);
            let wrong = way_fault(&way, survey.follow(index as usize, &way));
            self.report(alloc, survey, index, id, wrong)?;
        }
        self.report(
            alloc,
            survey,
            index,
            id,
            return_fault(policy.keyings, discovered.rank),
        )?;
        Ok(())
    }
}
