//! Laws of the terminal: facts about its definitions, which these functions carry and which need no code.

ghost use Rattle.terminal_codes.specs.Bodies.{StartsDecide};
ghost use Rattle.terminal_codes.specs.Writes.{CellsAreWrites, CellsHoldCodes, CaretDecides};

/// The cells of a terminal after any bytes are those before with what was written stored in order, and no other cell changes.
pub fn cells_are_writes()
    ensures { CellsAreWrites }
{}

/// After any bytes the cells of a terminal hold only characters and mosaics (20 to 7F) and attributes (80 to 9F), if they did
/// before, as those of a new one do.
pub fn cells_hold_codes()
    ensures { CellsHoldCodes }
{}

/// In any two terminals of one position and pending escape, bytes write the same and end in the same place.
pub fn caret_decides()
    ensures { CaretDecides }
{}

/// Where some terminal touches, or ends, one of the 1,920 carets does, and the other way round.
pub fn starts_decide()
    ensures { StartsDecide }
{}
