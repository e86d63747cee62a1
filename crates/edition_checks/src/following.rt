//! Whether an edition may follow the one that is served.

ghost use Rattle.std.specs.Prelude.{◌≡◌, true, None};
ghost use Rattle.editions.specs.Chains.{wider_of, IsClearedAgainst};
ghost use Rattle.edition_checks.specs.Served.{served_view};

use crate::served::Served;
use cert_table::Certificate;
use checker::{ChangeVerdict, Policy, check_change};
use frame_records::{Base, Pence};

/// What the check of a change from the edition that is served answers.
#[derive(Clone, Copy)]
pub enum Following {
    /// Callers may stay inside.
    Cleared,
    /// The policies are for callers of other groups: that is another folder.
    OtherGroups,
    /// The change is refused.
    Refused(ChangeVerdict),
}

/// The greater ceiling and the greater keyings of two policies, for the callers of the second.
pub fn wider_of(one: &Policy, other: &Policy) -> Policy
    ensures { result ≡ wider_of one.now other.now }
{
    Policy {
        ceiling: Pence::of(one.ceiling.get().max(other.ceiling.get())),
        keyings: one.keyings.max(other.keyings),
        groups: other.groups.copy(),
    }
}

fn have_same_groups(served: &Served, policy: &Policy) -> bool
    ensures { result ≡ true → policy.now.groups ≡ served.now.policy.groups }
{
    policy.groups.are_same(&served.policy.groups)
}

/// Checks the change from the edition that is served to one of this base, certificate and policy, by the wider of the two policies.
pub fn may_follow(served: &Served, base: &Base, cert: &Certificate, policy: &Policy) -> Following
    ensures { result ≡ Following.Cleared → IsClearedAgainst (served_view None served.now)
        (record { base = base.now; cert = cert.now; policy = policy.now; follows = None }) }
{
    if !have_same_groups(served, policy) {
        return Following::OtherGroups;
    }
    let wider = wider_of(&served.policy, policy);
    match check_change(&served.base, &served.cert, base, cert, &wider) {
        ChangeVerdict::Cleared => Following::Cleared,
        verdict => Following::Refused(verdict),
    }
}
