//! What callers accept.

use checker::Policy;
use frame_records::{Groups, Pence};
use std::test::Fail;

// The policy of a caller outside every group.
pub fn policy(ceiling: u16, keyings: u16) -> Result<Policy, Fail> {
    let ceiling = Pence::new(ceiling).ok_or("ceiling")?;
    Ok(Policy {
        ceiling,
        keyings,
        groups: Groups::none(),
    })
}
