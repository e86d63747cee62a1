use thiserror::Error;

/// Why the file of a base isn't written whole.
#[derive(Debug, Clone, Copy, PartialEq, Eq, Error)]
pub enum PagesFault {
    /// The sink failed after it had taken this many bytes.
    #[error("write failed after {0} bytes")]
    Write(u64),
    /// A growth was refused. What was taken until then is the text's front.
    #[error("memory refused")]
    Memory,
}
