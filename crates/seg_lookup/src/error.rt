use thiserror::Error;

/// Why a lookup asks for no segments. Where several reasons hold, the first one is returned.
#[derive(Clone, Copy, Debug, PartialEq, Eq, Error)]
pub enum LookupError {
    /// Source and destination are both 0-0.
    #[error("source and destination are both 0-0")]
    NullDestination = 1,
    /// A side has the ISD 0, and an AS other than 0.
    #[error("a side has the ISD 0, and an AS other than 0")]
    IsdOnlyWildcard = 2,
    /// Neither side is core.
    #[error("neither side is core")]
    NoCore = 3,
}
