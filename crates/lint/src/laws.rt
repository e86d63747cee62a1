ghost use Rattle.lint.specs.Laws.{LintFollowsBaseRead, NoErrorIsSafe, LintWarnsOfUnreached, LintSpansLieIn};

/// The findings of a text follow what `base_read` answers for it, unless it is out of memory. If that is a base, they are
/// those of its audit, and none is of the text. If it is a fault, they are of the text, and the first in the order of
/// judging is of that fault.
pub fn lint_follows_base_read()
    ensures { LintFollowsBaseRead }
{}

/// No finding of a text is an error if and only if the text means a base that the audit certifies, which is to say that
/// every session is safe within the policy.
pub fn no_error_is_safe()
    ensures { NoErrorIsSafe }
{}

/// The warnings are one for each frame that is open to the caller and that no walk from the entry frame reaches, if the
/// entry frame is found; else one with the number of all frames that are open to the caller, if there is one. Besides these
/// there are those of what frames show.
pub fn lint_warns_of_unreached()
    ensures { LintWarnsOfUnreached }
{}

/// The span of every finding begins and ends in the text.
pub fn spans_lie_in_the_text()
    ensures { LintSpansLieIn }
{}
