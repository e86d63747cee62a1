ghost use Rattle.std.specs.Prelude.{◌≡◌};
ghost use Rattle.frame_screens.specs.Laws.{LooksSame};
ghost use Rattle.frame_screens.specs.Screens.{new_terminal, with_frame, with_frames, records};
ghost use Rattle.frame_screens.specs.Loops.{clears, since_clear};

use crate::list::FrameList;
use frame_records::{Base, Frame, Lead};
use page_ids::FrameId;
use terminal_codes::{Terminal, lead_bytes};

/// Sends a frame to a terminal: its lead, and then its body.
pub fn send(terminal: &mut Terminal, frame: &Frame)
    ensures { terminal.new ≡ with_frame terminal.old frame.now }
{
    terminal.run(lead_bytes(frame.lead));
    terminal.run(frame.body.as_slice());
}

// Whether the base has the frame, and its lead clears the screen.
fn clears(base: &Base, id: FrameId) -> bool
    ensures { result ≡ clears base.now id }
{
    base.find(id).is_some_and(|frame| frame.lead == Lead::Clear)
}

// The frames from the last that clears on; all if none does.
fn since_clear<'a>(base: &Base, frames: &'a [FrameId]) -> &'a [FrameId]
    ensures { result.now ≡ since_clear base.now frames.now }
{
    match frames.iter().rposition(|id| clears(base, *id)) {
        Some(place) => &frames[place..],
        None => frames,
    }
}

// A terminal that looks as a new one does after the frames; its cursor may be visible or not. Only the last frame that clears and
// those after it are sent. A frame that the base lacks sends nothing.
pub fn terminal_after(base: &Base, frames: &FrameList) -> Terminal
    ensures { LooksSame result (with_frames new_terminal (records base.now frames.now)) }
{
    let mut terminal = Terminal::new();
    for id in since_clear(base, frames.as_slice()) {
        if let Some(frame) = base.find(*id) {
            send(&mut terminal, frame);
        }
    }
    terminal
}
