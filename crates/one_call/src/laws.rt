ghost use Rattle.one_call.specs.Safety.{PartsAreSeen, PartsAreSafe};

/// Whatever a terminal was, after the bytes of a call its rows 1 to 22, position, pending escape and cursor are those of a new terminal
/// after the frames of the replies to the keys that were heard, each from the edition that was served then; in the first edition this
/// is the terminal of `show`. Row 0 is the last frame's; row 23 has the command so far, or else the words of the last reply.
pub fn parts_are_seen()
    ensures { PartsAreSeen }
{}

/// The same of editions that were cleared, each also against the one before it, and what is promised of them: no reply was Missing or
/// Closed; what was shown costs at most the ceiling of the edition's policy, and doesn't paint over the service rows; and unless the
/// caller left, the entry frame can be regained within the policy's keyings.
pub fn parts_are_safe()
    ensures { PartsAreSafe }
{}
