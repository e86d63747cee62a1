//! Laws of saved screens: facts about their definitions, which these functions carry and which need no code.

ghost use Rattle.screen_files.specs.Laws.{Ep1KeepsScreens, FilesAreScreens, FramesShowScreens};

/// A terminal that received the lead and the body of a frame made of a screen has in rows 1 to 22 the very codes of the screen.
pub fn frames_show_screens()
    ensures { FramesShowScreens }
{}

/// Each file that is a screen, and each screen of a capture, gives 960 codes that cells can hold, so the law above speaks of it.
pub fn files_are_screens()
    ensures { FilesAreScreens }
{}

/// The EP1 file of a screen is read as that screen, if one of its cells is a space: without any, 80 would be one.
pub fn ep1_keeps_screens()
    ensures { Ep1KeepsScreens }
{}
