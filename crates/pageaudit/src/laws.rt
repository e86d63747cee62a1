ghost use Rattle.pageaudit.specs.Certified.{CertifiedIsCleared};

/// What an audit certifies, the check clears: of the base's bytes and of those that the audit wrote, by the same policy, a check
/// prints CLEARED, unless a device fails or memory is refused.
pub fn certified_is_cleared()
    ensures { CertifiedIsCleared }
{}
