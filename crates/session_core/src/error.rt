//! Why a session ends.

use thiserror::Error;

/// Why a session ends. After each error but `Write` the replies to earlier messages are written
/// whole, and nothing is written for the frame at which it happened; after `Write` a front of the
/// replies' bytes is written.
#[derive(Clone, Copy, Debug, PartialEq, Eq, Error)]
pub enum FrameError {
    /// Memory for a frame was refused.
    #[error("out of memory")]
    NoMemory = 0,
    /// The length of a frame is 0 or above 131,073, or is none that a purge's, a removal's or a
    /// list's frame has.
    #[error("the length of a frame is out of range")]
    Length = 1,
    /// The kind of a frame is unknown.
    #[error("the kind of a frame is unknown")]
    Kind = 2,
    /// A read failed, or the input ended within a frame.
    #[error("the input failed")]
    Read = 3,
    /// A write failed, or took no bytes.
    #[error("the output failed")]
    Write = 4,
    /// The allowed number of reads was made before the input ended.
    #[error("the session took too many reads")]
    Turns = 5,
}
