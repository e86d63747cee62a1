ghost use Rattle.text_edits.specs.Edits.{RestIsKept};

/// A text and what it is edited to are the same pieces, with the old texts of the spans between them, or the new ones.
pub fn rest_is_kept()
    ensures { RestIsKept }
{}
