ghost use Rattle.std.specs.Prelude.{◌≡◌};
ghost use Rattle.policy_text.specs.Policies.{policy_key};

use thiserror::Error;

/// The keys of a policy's text.
#[derive(Debug, Clone, Copy, PartialEq, Eq)]
pub enum PolicyField {
    Ceiling,
    Keyings,
    Groups,
}

impl PolicyField {
    /// The key as a text writes it, as `ceiling`.
    pub fn name(self) -> &'static str
        ensures { result.now ≡ policy_key self }
    {
        match self {
            PolicyField::Ceiling => "ceiling",
            PolicyField::Keyings => "keyings",
            PolicyField::Groups => "groups",
        }
    }
}

/// Why a text is no policy: the first fault, in this order; of the values in the order of their keys here.
#[derive(Debug, Clone, Copy, PartialEq, Eq, Error)]
pub enum PolicyFault {
    /// Y1: over 65,536 bytes; nothing of it is parsed.
    #[error("text too long")]
    TooLong,
    /// Y2: not UTF-8, or not TOML.
    #[error("not TOML")]
    NotToml,
    /// Y3: a key that a policy doesn't have.
    #[error("unknown key")]
    UnknownKey,
    /// Y4: a required key is missing.
    #[error("missing key")]
    Absent(PolicyField),
    /// Y5: a value of another kind.
    #[error("wrong kind of value")]
    WrongKind(PolicyField),
    /// Y5: an item of `groups`, by its number from 1.
    #[error("wrong kind of item")]
    WrongItem(usize),
    /// Y6: a value out of its range.
    #[error("value out of range")]
    Range(PolicyField),
    /// Y6: an item of `groups`, by its number from 1.
    #[error("item out of range")]
    ItemRange(usize),
    /// Y7: a 17th group.
    #[error("too many groups")]
    TooManyGroups,
    /// Y8: a group that isn't greater than the one before, by its number from 1.
    #[error("groups out of order")]
    Order(usize),
    /// A growth was refused.
    #[error("memory refused")]
    Memory,
}
