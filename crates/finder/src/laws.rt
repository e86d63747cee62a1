ghost use Rattle.finder.specs.Finds.{FoundIsOne, AllScriptsLead};

/// For a caller and a base, the reached frames in the order of their discovery, with their least ranks, are one list.
pub fn found_is_one()
    ensures { FoundIsOne }
{}

/// Each reached frame's script leads from the entry frame to it, and is its parent's script and one key more.
pub fn scripts_lead()
    ensures { AllScriptsLead }
{}
