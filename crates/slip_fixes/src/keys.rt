//! Keys that are one step from another.

ghost use Rattle.std.specs.Prelude.{◌≡◌, IfOk};
ghost use Rattle.slip_fixes.specs.NearKeys.{begin_alike, has_capitals, is_step_away, first_near, near_field};

use base_text::Field;
use lint_words::FIELDS;
use std::alloc::{AllocError, Global};
use strsim::osa_distance;

// Whether both begin with the same letter, small or capital.
fn begin_alike(one: &[u8], other: &[u8]) -> bool
    ensures { result ≡ begin_alike one.now other.now }
{
    match (one.split_first(), other.split_first()) {
        (Some((one, _)), Some((other, _))) => one.eq_ignore_ascii_case(other),
        _ => false,
    }
}

// Whether the key is this name with capital letters.
fn has_capitals(key: &[u8], name: &[u8]) -> bool
    ensures { result ≡ has_capitals key.now name.now }
{
    key != name && key.eq_ignore_ascii_case(name)
}

// Whether one step makes the key this name: a character more, less or another, or two swapped, but for the first; or small letters do.
fn is_step_away(alloc: Global, key: &str, name: &str) -> Result<bool, AllocError>
    ensures { IfOk result (λ is. is ≡ is_step_away key.now name.now) }
{
    let steps = osa_distance(alloc, key, name)?;
    let is_step = steps == 1 && begin_alike(key.as_bytes(), name.as_bytes());
    Ok(has_capitals(key.as_bytes(), name.as_bytes()) || is_step)
}

// The first of these keys that is one step away.
fn first_near(alloc: Global, key: &str, fields: &[Field]) -> Result<Option<Field>, AllocError>
    ensures { IfOk result (λ field. field ≡ first_near key.now fields.now) }
{
    let mut rest = fields;
    while let Some((field, others)) = rest.split_first() {
        if is_step_away(alloc, key, field.name())? {
            return Ok(Some(*field));
        }
        rest = others;
    }
    Ok(None)
}

/// The key of a base or a frame that is one step away.
pub fn near_field(alloc: Global, key: &str) -> Result<Option<Field>, AllocError>
    ensures { IfOk result (λ field. field ≡ near_field key.now) }
{
    first_near(alloc, key, FIELDS)
}
