//! Laws of the texts that are made of screens: facts about their definitions, which these functions carry and which need no code.

ghost use Rattle.import_laws.specs.Bases.{ImportsAreBases};
ghost use Rattle.import_laws.specs.Filed.{FilesAreFiled};
ghost use Rattle.import_laws.specs.Imported.{ImportsAreRead};
ghost use Rattle.import_laws.specs.Shown.{ImportsShowScreens};

/// TOML reads the text of a base that is made of frames as just the members of those frames.
pub fn imports_are_read()
    ensures { ImportsAreRead }
{}

/// The text of a base that is made of frames means the base of just those frames.
pub fn imports_are_bases()
    ensures { ImportsAreBases }
{}

/// Each screen of which such a text is made is shown by its frame, which is clean unless row 22 has a double height; export of it
/// gives the same rows 1 to 22.
pub fn imports_show_screens()
    ensures { ImportsShowScreens }
{}

/// Each frame that a file gives has an id, a price within the limit, and 960 codes that cells can hold, so the laws above speak of it.
pub fn files_are_filed()
    ensures { FilesAreFiled }
{}
