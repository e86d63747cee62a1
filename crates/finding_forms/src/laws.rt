ghost use Rattle.finding_forms.specs.Laws.{FindingsAreWholeLines};

/// In every form but `full` what is printed of findings is a line for each of them, and but for `json` without a control character,
/// whatever is in the text and the path.
pub fn findings_are_whole_lines()
    ensures { FindingsAreWholeLines }
{}
