//! Laws: facts about the definitions, which these functions carry and which need no code.

ghost use Rattle.screens.specs.Laws.{EachRowDecides, PlainBefore, CharactersChangeGlyphs, GroundShows, GlyphsAreOfTables};
ghost use Rattle.screens.specs.Laws.{ColumnsShow, NoSpaceEnds, TextIsItsLines, CharactersAreSafe, SvgReadsBack, PictureReadsBack, OutlinesAreRounded};

/// The looks of a row are decided by its own codes, or if the row above covers it by those of that row.
pub fn each_row_decides()
    ensures { EachRowDecides }
{}

/// Before the first attribute of a row all is white on black, single, and each cell has its own code's character.
pub fn plain_before()
    ensures { PlainBefore }
{}

/// A character or mosaic in place of another changes no colour, flash, concealment or height, and no look but that of its own
/// cell, of its lower half, and of held mosaics, which attributes show.
pub fn characters_change_glyphs()
    ensures { CharactersChangeGlyphs }
{}

/// A concealed or blank cell shows only its background.
pub fn ground_shows()
    ensures { GroundShows }
{}

/// Each cell of a screen holds a character of the table, or a mosaic with one to six blocks.
pub fn glyphs_are_of_tables()
    ensures { GlyphsAreOfTables }
{}

/// Column c of the line of a row is what cell c shows, and no space ends a line.
pub fn lines_show()
    ensures columns { ColumnsShow }
    ensures ends { NoSpaceEnds }
{}

/// The text of each screen, cut at its newlines, is the lines of its 24 rows.
pub fn text_is_its_lines()
    ensures { TextIsItsLines }
{}

/// Whatever characters a base shows, written for markup they open and close nothing, and mean themselves.
pub fn characters_are_safe()
    ensures { CharactersAreSafe }
{}

/// A picture of an HTML file, read as markup, has the tags that the form writes and no others, with the cells' characters between them.
pub fn svg_reads_back()
    ensures { SvgReadsBack }
{}

/// A picture alone, read as markup, has the tags that the form writes and no others, with its id and its text between them.
pub fn picture_reads_back()
    ensures { PictureReadsBack }
{}

/// The outline of each letter, read back, is its dots, rounded: at single height and in both halves of double height a unit of the
/// cell is inside if and only if the table has it, and no other unit is.
pub fn outlines_are_rounded()
    ensures { OutlinesAreRounded }
{}
