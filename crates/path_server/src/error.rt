//! Why a server ends early.

use thiserror::Error;

/// What ends a server before its sessions were served.
#[derive(Clone, Copy, Debug, PartialEq, Eq, Error)]
pub enum RunError {
    /// Memory was refused, or the thread of an actor or the readers of the hub were not given.
    #[error("out of memory")]
    NoMemory = 0,
    /// The listener is no listening socket any more.
    #[error("the listener is broken")]
    Net = 1,
}
