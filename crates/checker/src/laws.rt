ghost use Rattle.checker.specs.Change.{LostIsLeast, ChangesAreSafe};
ghost use Rattle.checker.specs.Laws.{GoodIsSafe, GoodKeepsRows, ClearedIsGood, RefusedIsFirst, RowsAreClean};

/// A good certificate makes every session safe, and keeps the present and each remembered frame among its rows.
pub fn good_is_safe()
    ensures safe { GoodIsSafe }
    ensures rows { GoodKeepsRows }
{}

/// A certificate is cleared if and only if it is good.
pub fn cleared_is_good()
    ensures { ClearedIsGood }
{}

/// A frame that is given as at most 22 rows is clean if and only if the 22nd of them, if there is one, has no double height
/// (8D), under either lead.
pub fn rows_are_clean()
    ensures { RowsAreClean }
{}

/// A certificate is refused for a cause if and only if that cause's condition is the first that fails: K9 with the offset of
/// the first byte whose write, from some state of the terminal, counts as one in a service row, K10 by the ends that occur.
pub fn refused_is_first()
    ensures { RefusedIsFirst }
{}

/// If a change is refused because an id is no longer covered, the id is the smallest of those that have a row in the old
/// certificate and none in the new one.
pub fn lost_is_least()
    ensures { LostIsLeast }
{}

/// While editions follow each other, each cleared against the one before it, the headline holds of a caller whose frames have rows
/// in the first certificate, as those of a caller who opens a session of the first edition do: nothing that is sought is missing
/// or closed, what is shown costs at most that edition's ceiling and is clean, and also right after each change the caller left or
/// regains the entry frame within that edition's keyings.
pub fn changes_are_safe()
    ensures { ChangesAreSafe }
{}
