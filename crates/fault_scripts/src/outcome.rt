use crate::fault::FaultList;
use cert_table::Certificate;

/// The result of the audit of a base.
#[derive(Drop)]
pub enum Outcome {
    /// The base is safe within the policy; a certificate that the check clears.
    Certified(Certificate),
    /// It isn't; every fault, of which there is at least one.
    Faulty(FaultList),
}
