use page_ids::Key;

/// What a byte asks for.
#[derive(Debug, Clone, Copy, PartialEq, Eq)]
pub enum Heard {
    /// Nothing: the byte is passed over, and the command so far is as it was.
    Nothing,
    /// The command so far has changed: begun, longer, begun anew or taken back.
    Changed,
    /// A key; no command goes on.
    Pressed(Key),
    /// A page was keyed directly, as `*1234#`.
    Page,
    /// `*90#`: the end of the call.
    End,
}
