ghost use Rattle.frame_screens.specs.Laws.{HeadlineIsSeen, FramesDecide, WaysLeadThere};

use checker::{cleared_is_good, good_is_safe};

/// If the check of a base is Cleared, then after every list of keys the screen, before the centre's rows are painted, has in
/// rows 0 and 23 what was there before, or blanks if a frame cleared it; on a new terminal they are blank. Row 22 gets no double
/// height.
pub fn headline_is_seen()
    ensures { HeadlineIsSeen }
{
    cleared_is_good();
    good_is_safe();
}

/// Leads and bodies alone decide the screen after a list of frames, and those before a frame that clears decide nothing.
pub fn frames_decide()
    ensures { FramesDecide }
{}

/// A frame is the last on the way to it. If a key reaches it, its keys leave the caller there, and the frames of a session of
/// these keys are the way.
pub fn ways_lead_there()
    ensures { WaysLeadThere }
{}
