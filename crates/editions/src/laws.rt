ghost use Rattle.editions.specs.Chains.{WiderStaysCleared, ChainsAreSafe};
ghost use Rattle.editions.specs.Moments.{MomentsAreSound};

/// Whatever stops the safe steps of a publish into a sound folder, and at whatever moment: the folder is sound, and no edition has
/// changed.
pub fn moments_are_sound()
    ensures { MomentsAreSound }
{}

/// What is cleared by a policy is cleared by every wider one of the same callers.
pub fn wider_stays_cleared()
    ensures { WiderStaysCleared }
{}

/// While editions follow each other, each cleared against the one before it by the wider of their two policies, what is promised
/// over changes holds, whichever policies they have.
pub fn chains_are_safe()
    ensures { ChainsAreSafe }
{}
