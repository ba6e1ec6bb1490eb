//! The results of taking a command.

ghost use Rattle.std.specs.Prelude.{◌≡◌};

use path_db::Outcome;
use thiserror::Error;

/// A command that was taken. A store alone makes one.
#[derive(Drop)]
pub struct Taken {
    pub(crate) place: u64,
    pub(crate) outcome: Outcome,
}

impl Taken {
    /// The place of the command: the number of commands that were taken before it.
    pub fn place(&self) -> u64
        ensures { result ≡ self.now.place }
    {
        self.place
    }

    /// What the command did.
    pub fn outcome(&self) -> Outcome
        ensures { result ≡ self.now.outcome }
    {
        self.outcome
    }
}

/// Why a command was not taken, or why its outcome is not known.
#[derive(Clone, Copy, Debug, PartialEq, Eq, Error)]
pub enum TakeError {
    /// Memory was refused. The command was not taken, or it was taken and its outcome is not
    /// reported. The place of the next command shows which of the two it is.
    #[error("out of memory")]
    NoMemory,
    /// The rows after the command would have more bytes than a checkpoint area of 4,096 sectors has
    /// room for.
    #[error("the rows would not fit the checkpoint area")]
    Full,
    /// The next place is 2^64 - 1.
    #[error("no place is left")]
    Exhausted,
}
