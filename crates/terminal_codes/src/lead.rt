//! What the centre sends before the body of a frame.

ghost use Rattle.std.specs.Prelude.{◌≡◌};
ghost use Rattle.terminal_codes.specs.Bodies.{lead_codes};

use frame_records::Lead;

/// The bytes that the centre sends before the body: clear, home and one row down, or nothing.
pub fn lead_bytes(lead: Lead) -> &'static [u8]
    ensures { result.now ≡ lead_codes lead }
{
    match lead {
        Lead::Clear => &[0x0c, 0x1e, 0x0a],
        Lead::Keep => &[],
    }
}
