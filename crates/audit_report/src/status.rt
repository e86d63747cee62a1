//! Whether what was judged is clear.

ghost use Rattle.std.specs.Prelude.{◌≡◌};
ghost use Rattle.audit_report.specs.declared.status.Status.TheVariants.{Clear};
ghost use Rattle.audit_report.specs.Statuses.{status_of_outcome, status_of_verdict, status_of_change};

use checker::{ChangeVerdict, Verdict};
use fault_scripts::Outcome;

/// The result of a judgment.
#[derive(Debug, Clone, Copy, PartialEq, Eq)]
pub enum Status {
    /// Certified, cleared, a walk, or a list.
    Clear,
    /// Faults, a refusal, or an entry frame that is missing or closed.
    Faulty,
}

impl Status {
    /// Clear if and only if there is a certificate.
    pub fn of_outcome(outcome: &Outcome) -> Status
        ensures { result ≡ status_of_outcome outcome.now }
    {
        match outcome {
            Outcome::Certified(_) => Status::Clear,
            Outcome::Faulty(_) => Status::Faulty,
        }
    }

    /// Clear for Cleared, and Faulty for everything else.
    pub fn of_verdict(verdict: &Verdict) -> Status
        ensures { result ≡ status_of_verdict verdict.now }
    {
        match verdict {
            Verdict::Cleared => Status::Clear,
            Verdict::Refused(_) => Status::Faulty,
        }
    }

    /// Clear for Cleared, and Faulty for everything else.
    pub fn of_change(verdict: &ChangeVerdict) -> Status
        ensures status { result ≡ status_of_change verdict.now }
        ensures clear { result ≡ Clear → verdict.now ≡ ChangeVerdict.Cleared }
    {
        match verdict {
            ChangeVerdict::Cleared => Status::Clear,
            _ => Status::Faulty,
        }
    }
}
