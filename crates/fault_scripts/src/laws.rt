ghost use Rattle.fault_scripts.specs.FaultLaws.{FaultsAreDue, FaultsAreOne, FaultsAreShown, NoneIsSafe};

/// The list of faults has exactly those that are due, each once, in order.
pub fn faults_are_due()
    ensures { FaultsAreDue }
{}

/// A base and a policy have one list of faults: `faults` and an audit that finds faults name the same one.
pub fn faults_are_one()
    ensures { FaultsAreOne }
{}

/// Each fault is borne out by its script.
pub fn faults_are_shown()
    ensures { FaultsAreShown }
{}

/// There is no fault if and only if the base is safe within the policy.
pub fn none_is_safe()
    ensures { NoneIsSafe }
{}
