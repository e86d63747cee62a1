ghost use Rattle.session_machine.specs.Runs.{RunsInTurn, PartsInTurn, RemembersFew, LeftStays, ShowsWhatIsFound};

/// Two lists of keys in turn answer and lead as their concatenation does.
pub fn runs_in_turn()
    ensures { RunsInTurn }
{}

/// Two lists of parts, each a base and the keys that are pressed while it is served, in turn answer and lead as their
/// concatenation does; if both bases are the same, as the keys of both do.
pub fn parts_in_turn()
    ensures { PartsInTurn }
{}

/// After any list of keys, at most three frames are remembered.
pub fn remembers_few()
    ensures { RemembersFew }
{}

/// A caller who has left stays away, and each key is NotOffered.
pub fn left_stays()
    ensures { LeftStays }
{}

/// What a key shows was sought and found at that price, and `Again` answers the present frame.
pub fn shows_what_is_found()
    ensures { ShowsWhatIsFound }
{}
