//! Why readers stop.

/// Why a reader stopped before it had what it was to read.
#[derive(Clone, Copy, Debug, PartialEq, Eq)]
pub(crate) enum Stop {
    /// The input has ended.
    Ended,
    /// What comes is malformed.
    Malformed,
    /// The source failed.
    SourceFault,
    /// The feed has taken 2^50 bytes.
    Long,
}
