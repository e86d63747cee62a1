//! Laws: facts about the definitions, which these functions carry and which need no code.

ghost use Rattle.ansi_line.specs.Laws.{AnsiReadsBack, AnsiFits, AnsiTextsAgree, ScreenReadsBack};

/// A text in the form `ansi`, read by the rules of SGR, shows the looks of its screen in 24 rows of at most 40 cells, and leaves nothing
/// set. Two screens have the same text if and only if a terminal shows them as the same cells.
pub fn ansi_reads_back()
    ensures shows { AnsiReadsBack }
    ensures fits { AnsiFits }
    ensures same { AnsiTextsAgree }
{}

/// A screen of a call, read likewise after those before it, shows the looks of its cells, and leaves nothing set.
pub fn screen_reads_back()
    ensures { ScreenReadsBack }
{}
