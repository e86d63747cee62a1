//! What is noted of a call while it lasts.

/// Takes notes of a call. No promise rests on them.
pub trait CallLog {
    /// The call begins in the edition of this number.
    fn begins(&mut self, number: u32);

    /// From now on it is in the edition of this number.
    fn changes(&mut self, number: u32);

    /// A key was heard.
    fn key(&mut self);
}
