ghost use Rattle.std.specs.Prelude.{◌≡◌, ◌++◌, IfOk, OnOk};
ghost use Rattle.std.specs.Result.{result_ok};
ghost use Rattle.base_text.specs.Details.{faults_of, nothing_kept, with_one, with_all};
ghost use Rattle.base_text.specs.Drafts.{listed_faults};
ghost use Rattle.base_text.specs.Loops.{first_fault};

use crate::detail::{Detail, TextFault};
use crate::fault::{BaseFault, fault_in};
use page_ids::FrameId;
use std::alloc::{AllocError, Global};
use std::marker::Model;

// What is wrong with one table, in order: how much it is, and the first of it. So a large text that is wrong throughout
// doesn't take more memory than one that is right.
#[derive(Debug, Drop)]
pub struct Details {
    most: usize,
    first: Vec<Detail>,
    count: usize,
}

impl Model for Details {
    ghost use Rattle.base_text.specs.Details.{KeptView};

    ghost Value = { KeptView };

    ghost view = { λ d. record { most = d.most; first = d.first.items; count = d.count } };
}

impl Details {
    // Nothing yet. Of what is added at most one more than `most` is kept.
    pub fn keeping(alloc: Global, most: usize) -> Details
        ensures { result ≡ nothing_kept most }
    {
        Details {
            most,
            first: Vec::new(alloc),
            count: 0,
        }
    }

    pub fn add(&mut self, detail: Detail) -> Result<(), AllocError>
        ensures { OnOk result (self.new ≡ with_one self.old detail) }
    {
        if self.first.len() <= self.most {
            self.first.push(detail)?;
        }
        self.count = self.count.saturating_add(1);
        Ok(())
    }

    // What was read, if nothing is wrong; what is wrong is added.
    pub fn keep<T>(&mut self, read: Result<T, Detail>) -> Result<Option<T>, AllocError>
        ensures value { IfOk result (λ value. value ≡ result_ok read) }
        ensures faults { OnOk result (self.new ≡ with_all self.old (faults_of read)) }
    {
        match read {
            Ok(value) => Ok(Some(value)),
            Err(detail) => {
                self.add(detail)?;
                Ok(None)
            }
        }
    }

    // What was kept.
    pub fn first(&self) -> &[Detail]
        ensures { result.now ≡ self.now.first }
    {
        self.first.as_slice()
    }

    // The fault that `base_read` answers for them, in the frame of an index or at the top.
    pub fn fault(&self, frame: Option<u32>) -> Option<BaseFault>
        ensures { result ≡ first_fault frame self.now.first }
    {
        match self.first.as_slice() {
            [] => None,
            [first, ..] => Some(fault_in(frame, first.cause())),
        }
    }

    // Appends them as faults of the frame of an index and an id, or of the top.
    pub fn list(
        self,
        frame: Option<usize>,
        id: &Option<FrameId>,
        faults: &mut Vec<TextFault>,
    ) -> Result<(), AllocError>
        ensures { OnOk result (faults.new.items ≡ faults.old.items ++ listed_faults frame id.now self) }
    {
        let Details { most, first, count } = self;
        let mut left = most;
        for detail in first {
            let unlisted = if left == 0 {
                count.saturating_sub(most)
            } else {
                0
            };
            faults.push(TextFault {
                frame,
                id: *id,
                detail,
                unlisted,
            })?;
            left = left.saturating_sub(1);
        }
        Ok(())
    }
}
