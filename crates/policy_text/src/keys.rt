//! The keys of a policy's table.

ghost use Rattle.std.specs.Prelude.{◌≡◌};
ghost use Rattle.std.specs.Option.{option_copied};
ghost use Rattle.toml.specs.Data.{get_member};
ghost use Rattle.toml.specs.View.{table_view};
ghost use Rattle.base_text.specs.Loops.{data_seen};
ghost use Rattle.policy_text.specs.Policies.{is_policy_key, unknown_key};

use toml::{Table, Value};

fn is_policy_key(key: &str) -> bool
    ensures { result ≡ is_policy_key key.now }
{
    key == "ceiling" || key == "keyings" || key == "groups"
}

// The first key that a policy doesn't have, in the order of the keys' bytes.
pub fn unknown_key(table: &Table) -> Option<&str>
    ensures { option_copied result ≡ unknown_key (table_view table.now) }
{
    for (key, _) in table.iter() {
        if !is_policy_key(key.as_str()) {
            return Some(key.as_str());
        }
    }
    None
}

// The value at a key, if the table has the key.
pub fn member<'a>(table: &'a Table, key: &str) -> Option<&'a Value>
    ensures { data_seen result ≡ get_member key.now (table_view table.now) }
{
    table.get(key)
}
