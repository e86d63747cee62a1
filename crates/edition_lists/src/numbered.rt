//! Words about a number.

ghost use Rattle.std.specs.Prelude.{◌≡◌, ◌++◌, OnOk, decimal};

use page_ids::push_number;
use std::alloc::AllocError;

/// Writes words, a number, and words after it.
pub fn push_numbered(
    out: &mut Vec<u8>,
    before: &[u8],
    number: u32,
    after: &[u8],
) -> Result<(), AllocError>
    ensures { OnOk result (out.new.items ≡ out.old.items ++ (before.now ++ (decimal number ++ after.now))) }
{
    out.extend_from_slice(before)?;
    push_number(out, u64::from(number))?;
    out.extend_from_slice(after)
}
