//! The value of each key of a policy.

ghost use Rattle.std.specs.Prelude.{◌≡◌, ◌≤◌, [], Ok, Err, IfOk, MatchResult};
ghost use Rattle.toml.specs.View.{view, items_view};
ghost use Rattle.base_text.specs.Loops.{data_seen};
ghost use Rattle.policy_text.specs.Policies.{policy_number, required_number, item_number, item_added, policy_groups, groups_value};

use crate::fault::{PolicyFault, PolicyField};
use frame_records::{GroupNo, Groups, MOST_GROUPS};
use toml::Value;

// A whole number up to a limit.
fn number(field: PolicyField, most: u16, value: &Value) -> Result<u16, PolicyFault>
    ensures value { result ≡ policy_number field most (view value.now) }
    ensures within { IfOk result (λ n. n ≤ most) }
{
    match value {
        Value::Integer(number) => match u16::try_from(*number) {
            Ok(small) if small <= most => Ok(small),
            _ => Err(PolicyFault::Range(field)),
        },
        _ => Err(PolicyFault::WrongKind(field)),
    }
}

// The same of a key that has to be there.
pub fn required_number(
    field: PolicyField,
    most: u16,
    value: Option<&Value>,
) -> Result<u16, PolicyFault>
    ensures value { result ≡ required_number field most (data_seen value.entry) }
    ensures within { IfOk result (λ n. n ≤ most) }
{
    match value {
        Some(value) => number(field, most, value),
        None => Err(PolicyFault::Absent(field)),
    }
}

// The number of a group, by the number of its item.
fn item_number(index: usize, value: &Value) -> Result<u16, PolicyFault>
    ensures value { result ≡ item_number index (view value.now) }
    ensures some { IfOk result (λ n. 1 ≤ n) }
{
    match value {
        Value::Integer(number) => match u16::try_from(*number) {
            Ok(small) if 1 <= small => Ok(small),
            _ => Err(PolicyFault::ItemRange(index)),
        },
        _ => Err(PolicyFault::WrongItem(index)),
    }
}

// Puts the group of an item after the others.
fn add_item(groups: &mut Groups, index: usize, value: &Value) -> Result<(), PolicyFault>
    ensures { MatchResult result (λ _. item_added index groups.old (view value.now) ≡ Ok groups.new)
        (λ e. item_added index groups.old (view value.now) ≡ Err e) }
{
    let number = item_number(index, value)?;
    if groups.len() >= MOST_GROUPS {
        return Err(PolicyFault::TooManyGroups);
    }
    if groups.push(GroupNo::of(number)) {
        Ok(())
    } else {
        Err(PolicyFault::Order(index))
    }
}

// The groups of items.
fn groups_of(values: &[Value]) -> Result<Groups, PolicyFault>
    ensures { result ≡ policy_groups 1 [] (items_view values.now) }
{
    let mut groups = Groups::none();
    for (i, value) in values.iter().enumerate() {
        add_item(&mut groups, i + 1, value)?;
    }
    Ok(groups)
}

pub fn read_groups(value: Option<&Value>) -> Result<Groups, PolicyFault>
    ensures { result ≡ groups_value (data_seen value.entry) }
{
    match value {
        Some(Value::Array(values)) => groups_of(values.as_slice()),
        Some(_) => Err(PolicyFault::WrongKind(PolicyField::Groups)),
        None => Ok(Groups::none()),
    }
}
