//! The policy of a text.

ghost use Rattle.std.specs.Prelude.{◌≡◌, IfOk, Ok};
ghost use Rattle.toml.specs.View.{table_view};
ghost use Rattle.policy_text.specs.Policies.{members_policy, IsPolicyOfText, widest_text, policy_in, widest};

use crate::fault::{PolicyFault, PolicyField};
use crate::keys::{member, unknown_key};
use crate::limits::MOST_POLICY_TEXT;
use crate::values::{read_groups, required_number};
use base_text::tree;
use cert_table::MOST_RANK;
use checker::Policy;
use frame_records::{MOST_PENCE, Pence};
use std::alloc::{AllocError, Global};
use toml::Table;

// The values of a table, in the order of the keys; an unknown key comes before them.
fn policy_of(table: &Table) -> Result<Policy, PolicyFault>
    ensures { result ≡ members_policy (table_view table.now) }
{
    if unknown_key(table).is_some() {
        return Err(PolicyFault::UnknownKey);
    }
    let ceiling = required_number(PolicyField::Ceiling, MOST_PENCE, member(table, "ceiling"))?;
    let keyings = required_number(PolicyField::Keyings, MOST_RANK, member(table, "keyings"))?;
    let groups = read_groups(member(table, "groups"))?;
    Ok(Policy {
        ceiling: Pence::of(ceiling),
        keyings,
        groups,
    })
}

/// The policy that a text means, or its first fault.
pub fn policy_read(alloc: Global, text: &[u8]) -> Result<Policy, PolicyFault>
    ensures { IsPolicyOfText text.now result }
{
    if text.len() > MOST_POLICY_TEXT {
        return Err(PolicyFault::TooLong);
    }
    match tree(alloc, text) {
        Ok(Ok(table)) => policy_of(&table),
        Ok(Err(_)) => Err(PolicyFault::NotToml),
        Err(_) => Err(PolicyFault::Memory),
    }
}

/// The text of the policy of the widest limits, of callers in no group.
pub fn widest_text(alloc: Global) -> Result<Vec<u8>, AllocError>
    ensures { IfOk result (λ text. text.items ≡ widest_text) }
{
    let mut text = Vec::new(alloc);
    text.extend_from_slice(b"ceiling = 9999\nkeyings = 65535\n")?;
    Ok(text)
}

/// That text means that policy.
pub fn widest_is_read()
    ensures { policy_in widest_text ≡ Ok widest }
{}
