ghost use Rattle.audit_report.specs.Listing.{AllAreListed, FramesAreLines};

/// Each frame that a caller reaches has its record in the base and so a line FRAME. The lines UNREACHED are those of all other
/// frames of the base, the closed ones too.
pub fn lists_every_frame()
    ensures { AllAreListed }
{}

/// In each form of a list, a frame whose id ends in a letter, as every frame's does, is one line.
pub fn frames_are_lines()
    ensures { FramesAreLines }
{}
