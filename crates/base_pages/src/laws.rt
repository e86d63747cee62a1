ghost use Rattle.base_pages.specs.Laws.{CertifiedWaysLead, FileHasItsTags, FileSaysWhatIsShown, LinksLead};

/// Read as markup, the file of a base has the tags of its form and no others: what a base holds adds no tag and no attribute.
pub fn file_has_its_tags()
    ensures { FileHasItsTags }
{}

/// Read as markup, the file has a section for each frame that is shown, in order, with its id, the text that `show` prints of it, that
/// with what it conceals if it conceals something, its price, its group, the line of the base's file that writes it, its ways, what
/// lint says of its faults, and the audit's lines about it.
pub fn file_says_what_is_shown()
    ensures { FileSaysWhatIsShown }
{}

/// A section has a link with a key to that of another frame if and only if the frame's way of this key leads there for the callers
/// and the file has it. The file has the target of each link.
pub fn links_lead()
    ensures { LinksLead }
{}

/// If a base is certified, no way of a section that callers reach is marked as missing or closed.
pub fn certified_ways_lead()
    ensures { CertifiedWaysLead }
{}
