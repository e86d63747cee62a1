//! What a new edition follows.

ghost use Rattle.std.specs.Prelude.{Some};
ghost use Rattle.publishing.specs.Loops.{IfFollows};
ghost use Rattle.publishing.specs.Publishing.{FollowsServed};

use checker::ChangeVerdict;
use edition_checks::{Candidate, Following, Served, may_follow};

/// What a new edition follows, or why it isn't published.
#[derive(Clone, Copy)]
pub enum MayFollow {
    /// The edition of this number, or none.
    Follows(Option<u32>),
    /// The policy is for callers of other groups than the edition's of this number.
    OtherGroups(u32),
    /// The change from the edition that is served is refused.
    Refused(ChangeVerdict),
}

fn judge_change_from(served: &Served, new: &Candidate, new_callers: bool) -> MayFollow
    ensures { IfFollows result (FollowsServed (Some served.now) new.now new_callers) }
{
    match may_follow(served, &new.base, &new.cert, &new.policy) {
        Following::Cleared => MayFollow::Follows(Some(served.number)),
        Following::OtherGroups => MayFollow::OtherGroups(served.number),
        Following::Refused(_) if new_callers => MayFollow::Follows(None),
        Following::Refused(verdict) => MayFollow::Refused(verdict),
    }
}

/// What an edition follows: the one that is served, if the change from it is cleared; nothing if none is served, or if the change is
/// refused and the edition is for new callers alone. Other groups are refused for them too.
pub fn judge_following(served: &Option<Served>, new: &Candidate, new_callers: bool) -> MayFollow
    ensures { IfFollows result (FollowsServed served.now new.now new_callers) }
{
    match served {
        Some(served) => judge_change_from(served, new, new_callers),
        None => MayFollow::Follows(None),
    }
}
