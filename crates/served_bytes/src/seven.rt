//! Bytes for a line of seven bits.

ghost use Rattle.std.specs.Prelude.{◌≡◌, ◌++◌, OnOk};
ghost use Rattle.served_bytes.specs.Seven.{seven, in_seven};

use std::alloc::AllocError;

// One byte.
fn push_seven(out: &mut Vec<u8>, byte: u8) -> Result<(), AllocError>
    ensures { OnOk result (out.new.items ≡ out.old.items ++ seven byte) }
{
    match byte {
        0x00..=0x7f => out.push(byte)?,
        0x80..=0x9f => out.extend_from_slice(&[0x1b, byte - 0x40])?,
        _ => out.extend_from_slice(&[0x00, byte - 0x80])?,
    }
    Ok(())
}

// All bytes, in order.
pub fn push_in_seven(out: &mut Vec<u8>, bytes: &[u8]) -> Result<(), AllocError>
    ensures { OnOk result (out.new.items ≡ out.old.items ++ in_seven bytes.now) }
{
    for byte in bytes {
        push_seven(out, *byte)?;
    }
    Ok(())
}
