ghost use Rattle.std.specs.Prelude.{◌≡◌, Ok};
ghost use Rattle.checker.specs.Headline.{IsBaseInput, IsCertInput, IsChecked, Headline};

use crate::judge::check;
use crate::policy::Policy;
use crate::verdict::Verdict;
use base_text::{BaseCause, BaseFault, base_read};
use cert_table::Certificate;
use cert_text::{ReadFault, cert_read};
use frame_records::Base;
use std::alloc::Global;
use thiserror::Error;

/// Why two texts aren't checked. The base is read first.
#[derive(Debug, Clone, Copy, PartialEq, Eq, Error)]
pub enum InputFault {
    /// The base text's first fault.
    #[error("base text refused")]
    Base(BaseFault),
    /// The certificate text's first line at fault, if the base text is right.
    #[error("certificate text refused")]
    Cert(ReadFault),
    /// A growth was refused.
    #[error("memory refused")]
    Memory,
}

/// The base of a text, or its first fault, with refused memory apart. Never answers `Cert`.
pub fn base_of(alloc: Global, text: &[u8]) -> Result<Base, InputFault>
    ensures { IsBaseInput text.now result }
{
    match base_read(alloc, text) {
        Ok(base) => Ok(base),
        Err(
            BaseFault {
                cause: BaseCause::Memory,
                ..
            },
        ) => Err(InputFault::Memory),
        Err(fault) => Err(InputFault::Base(fault)),
    }
}

/// The certificate of a text, or its first line at fault, with refused memory apart. Never answers `Base`.
pub fn cert_of(alloc: Global, text: &[u8]) -> Result<Certificate, InputFault>
    ensures { IsCertInput text.now result }
{
    match cert_read(alloc, text) {
        Ok(cert) => Ok(cert),
        Err(ReadFault::Memory) => Err(InputFault::Memory),
        Err(fault) => Err(InputFault::Cert(fault)),
    }
}

/// Checks the text of a certificate against the text of a base, for a caller of the policy's groups.
///
/// The base is read first. `Base` and `Cert` carry the texts' own first faults.
pub fn check_bytes(
    alloc: Global,
    base: &[u8],
    cert: &[u8],
    policy: &Policy,
) -> Result<Verdict, InputFault>
    ensures checked { IsChecked base.now cert.now policy.now result }

    // If the answer is Cleared, the headline holds of the two texts.
    ensures headline { result ≡ Ok Verdict.Cleared → Headline base.now cert.now policy.now }
{
    let base = base_of(alloc, base)?;
    let cert = cert_of(alloc, cert)?;
    Ok(check(&base, policy, &cert))
}
