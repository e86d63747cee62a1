use thiserror::Error;

/// Why a text is no page number, no frame id, or no list of keys.
#[derive(Debug, Clone, Copy, PartialEq, Eq, Error)]
pub enum IdFault {
    /// I1: not decimal digits without a leading zero, or above 999,999,999.
    #[error("not a page number")]
    BadPage,
    /// I2: not a page number followed by one letter `a` to `z`.
    #[error("not a frame id")]
    BadFrame,
    /// I3: the byte offset at which the first word that can't be read begins.
    #[error("no key at byte {0}")]
    BadKey(usize),
    /// A growth was refused.
    #[error("memory refused")]
    Memory,
}
