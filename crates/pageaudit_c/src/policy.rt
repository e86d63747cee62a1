ghost use Rattle.std.specs.Prelude.{◌≡◌};
ghost use Rattle.pageaudit_c.specs.Calls.{groups_of, IsPolicyRead, asked};

use checker::Policy;
use frame_records::{GroupFault, Groups, Pence};

// The groups of a text; none of the empty text.
pub fn groups_of(text: &[u8]) -> Result<Groups, GroupFault>
    ensures { result ≡ groups_of text.now }
{
    match text {
        [] => Ok(Groups::none()),
        _ => Groups::read_split(text, b','),
    }
}

// The policy that is passed, if it is one.
pub fn policy_of(ceiling: u32, keyings: u32, groups: &[u8]) -> Option<Policy>
    ensures { IsPolicyRead (asked ceiling keyings groups.now) result }
{
    Some(Policy {
        ceiling: Pence::new(u16::try_from(ceiling).ok()?)?,
        keyings: u16::try_from(keyings).ok()?,
        groups: groups_of(groups).ok()?,
    })
}
