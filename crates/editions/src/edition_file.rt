ghost use Rattle.std.specs.Prelude.{◌≡◌};
ghost use Rattle.editions.specs.Names.{file_name};

/// A file of an edition's folder.
#[derive(Debug, Clone, Copy, PartialEq, Eq)]
pub enum EditionFile {
    Base,
    Cert,
    /// The policy by which the edition was cleared.
    Policy,
    /// The number of the edition against which it was cleared.
    Follows,
    /// The sums of the other four.
    Sums,
}

impl EditionFile {
    /// The file's name.
    pub fn name(self) -> &'static str
        ensures { result.now ≡ file_name self }
    {
        match self {
            EditionFile::Base => "base.toml",
            EditionFile::Cert => "base.cert",
            EditionFile::Policy => "policy.toml",
            EditionFile::Follows => "follows",
            EditionFile::Sums => "SHA256SUMS",
        }
    }
}
