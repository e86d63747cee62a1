//! Laws of painting: facts about its definitions, which these functions carry and which need no code.

ghost use Rattle.abstract_paint.specs.Paint.{CodesGoOn, CodeTouches, EndsAreOne, EndsAreOnScreen, StandsIsTest, ScreenIsStoodFor, PaintIsExact};
ghost use Rattle.abstract_paint.specs.Plain.{PlainGoesOn, PlainReaches};
ghost use Rattle.abstract_paint.specs.Start.{StartsAreOne};

/// At most one cursor stands for the ends of a frame.
pub fn ends_are_one()
    ensures { EndsAreOne }
{}

/// A cursor that stands for the ends of a frame has its column or spot on the screen.
pub fn ends_are_on_screen()
    ensures { EndsAreOnScreen }
{}

/// `AbsCursor::stands` answers what it means.
pub fn stands_is_test()
    ensures { StandsIsTest }
{}

/// A cursor stands for some position and flag if and only if its place is on the screen: a column over 39 or a spot over
/// 959 stands for none.
pub fn screen_is_stood_for()
    ensures { ScreenIsStoodFor }
{}

/// Painting ends in a clean cursor if and only if the frame is clean and ends where the cursor is, and in an offset if and only if
/// that is the first that touches.
pub fn paint_is_exact()
    ensures { PaintIsExact }
{}

/// Codes 20 to 7F and 80 to 9F from a spot, none of which counts as written in a service row, only move the spot on.
pub fn codes_go_on()
    ensures { CodesGoOn }
{}

/// Such a code, if it counts as written in a service row, touches.
pub fn code_touches()
    ensures { CodeTouches }
{}

/// Plain bytes from a spot, as many as fit up to the end of row 22, only move the spot on.
pub fn plain_goes_on()
    ensures { PlainGoesOn }
{}

/// If there are more plain bytes than fit, the first that doesn't fit touches.
pub fn plain_reaches()
    ensures { PlainReaches }
{}

/// At most one answer to what the least start of a frame is, none included, is right.
pub fn starts_are_one()
    ensures { StartsAreOne }
{}
