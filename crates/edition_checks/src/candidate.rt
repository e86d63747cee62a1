//! An edition that the check clears, before it is published.

ghost use Rattle.std.specs.Prelude.{IfOk};
ghost use Rattle.edition_checks.specs.Candidates.{IsCandidate};

use cert_table::Certificate;
use cert_text::cert_write;
use checker::{Cause, InputFault, Policy, Verdict, base_of, cert_of, check};
use fault_scripts::{Outcome, audit};
use frame_records::Base;
use std::alloc::Global;

/// A base with a certificate that the check clears by a policy.
#[derive(Drop)]
pub struct Candidate {
    pub base: Base,
    pub cert: Certificate,
    /// The certificate's text.
    pub cert_text: Vec<u8>,
    pub policy: Policy,
}

/// Why there is none.
#[derive(Clone, Copy)]
pub enum CandidateFault {
    /// The text is no base.
    NoBase,
    /// The base isn't safe within the policy.
    Faulty,
    /// The certificate's text doesn't read as one. No audit writes such a text.
    NoCert,
    /// The check refuses the certificate. No audit makes such a one.
    Refused(Cause),
    /// A growth was refused.
    Memory,
}

// The text of the certificate that the audit makes.
fn audited(alloc: Global, base: &Base, policy: &Policy) -> Result<Vec<u8>, CandidateFault> {
    match audit(alloc, base, policy) {
        Ok(Outcome::Certified(cert)) => {
            cert_write(alloc, &cert).map_err(|_| CandidateFault::Memory)
        }
        Ok(Outcome::Faulty(_)) => Err(CandidateFault::Faulty),
        Err(_) => Err(CandidateFault::Memory),
    }
}

/// Audits the base of a text and checks the certificate's own text, read back. It is the check that counts: that of a text which
/// another audit wrote would count as much.
pub fn make_candidate(
    alloc: Global,
    text: &[u8],
    policy: Policy,
) -> Result<Candidate, CandidateFault>
    ensures { IfOk result (IsCandidate text.now policy) }
{
    let base = match base_of(alloc, text) {
        Ok(base) => base,
        Err(InputFault::Memory) => return Err(CandidateFault::Memory),
        Err(_) => return Err(CandidateFault::NoBase),
    };
    let cert_text = audited(alloc, &base, &policy)?;
    let cert = match cert_of(alloc, cert_text.as_slice()) {
        Ok(cert) => cert,
        Err(InputFault::Memory) => return Err(CandidateFault::Memory),
        Err(_) => return Err(CandidateFault::NoCert),
    };
    match check(&base, &policy, &cert) {
        Verdict::Cleared => Ok(Candidate {
            base,
            cert,
            cert_text,
            policy,
        }),
        Verdict::Refused(cause) => Err(CandidateFault::Refused(cause)),
    }
}
