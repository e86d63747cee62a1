//! Laws of forms: facts about their definitions, which these functions carry and which need no code.

ghost use Rattle.screen_forms.specs.Laws.{LinksAreScreens, LinksKeepScreens, SheetsAreScreens, SheetsKeepScreens};

/// The letters of a screen are read as that screen.
pub fn links_keep_screens()
    ensures { LinksKeepScreens }
{}

/// What the letters of an address hold is 960 codes that cells can hold.
pub fn links_are_screens()
    ensures { LinksAreScreens }
{}

/// The TTI file of a screen is read as rows 0 to 22 of that screen, with an id by its teletext page number: of the same letter, and of
/// the same page if that is one of 100 to 899.
pub fn sheets_keep_screens()
    ensures { SheetsKeepScreens }
{}

/// What the pages of TTI hold is 960 codes that cells can hold.
pub fn sheets_are_screens()
    ensures { SheetsAreScreens }
{}
