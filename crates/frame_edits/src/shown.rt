//! Whether a frame shows a screen already.

ghost use Rattle.std.specs.Prelude.{◌≡◌};
ghost use Rattle.screen_files.specs.Laws as laws;
ghost use Rattle.frame_edits.specs.Merging as spec;

use frame_records::{Base, Lead};
use screen_files::ScreenFrame;
use terminal_codes::{Terminal, lead_bytes};

// Rows 1 to 22 of a screen, between blank rows.
fn rows_alone(codes: &[u8; 960]) -> [u8; 960]
    ensures { result ≡ laws.rows_alone codes.now }
{
    let mut cells = [b' '; 960];
    cells[40..920].copy_from_slice(&codes[40..920]);
    cells
}

// Whether a terminal shows these rows after a body that was sent to a cleared screen.
fn shows_rows(body: &[u8], codes: &[u8; 960]) -> bool
    ensures { result ≡ spec.shows_rows body.now codes.now }
{
    let mut terminal = Terminal::new();
    terminal.run(lead_bytes(Lead::Clear));
    terminal.run(body);
    terminal.cells() == &rows_alone(codes)
}

/// Whether the base's frame of this one's id shows its screen, if its lead clears.
pub fn is_shown(base: &Base, frame: &ScreenFrame) -> bool
    ensures { result ≡ spec.is_shown base.now frame.now }
{
    match base.find(frame.id) {
        Some(old) => shows_rows(old.body.as_slice(), &frame.codes),
        None => false,
    }
}
