//! A law of frames that stay: a fact about definitions, which this function carries and which needs no code.

ghost use Rattle.frame_edits.specs.Laws.{SameFramesShow};

/// A frame that stays, since it shows the screen, shows it on every terminal; the rows that are written of a screen show it too.
pub fn same_frames_show()
    ensures { SameFramesShow }
{}
