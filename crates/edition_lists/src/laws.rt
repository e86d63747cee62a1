ghost use Rattle.edition_lists.specs.FolderChains.{SoundFoldersAreSafe};

/// What a sound folder means for callers: along each chain of its editions, from whichever edition on, what is promised
/// over changes holds.
pub fn sound_folders_are_safe()
    ensures { SoundFoldersAreSafe }
{}
