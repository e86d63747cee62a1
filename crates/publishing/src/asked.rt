/// What a publish is asked for.
#[derive(Debug, Clone, Copy)]
pub struct Publish<'a> {
    /// The path of the base, as it is printed before findings.
    pub base_path: &'a str,
    /// The path of the folder's policy.toml, as it is printed before its fault.
    pub policy_path: &'a str,
    /// Whether all is done but what writes.
    pub dry_run: bool,
    /// Whether the edition is published for new callers alone, if the change to it is refused.
    pub new_callers: bool,
    /// Whether warnings stop it, as errors do.
    pub deny_warnings: bool,
}
