//! A claim: which command has a number.

ghost use Rattle.std.specs.Prelude.{◌≡◌, Some, slice_get};

use crate::history::{History, QueueName};
use logbook::Seen;
use path_db::Command;
use std::marker::PhantomData;
use std::snapshot::Snapshot;

/// That a command was handed in under a number, at the queue of this name. A claim takes the bytes
/// of the number alone. Only a queue makes one.
#[derive(Drop)]
pub struct Claim<J: QueueName> {
    pub(crate) number: u64,
    /// The command, which only clauses see.
    pub(crate) command: Snapshot<Command>,
    pub(crate) seen: Seen<Command, u64, History>,
    pub(crate) of: PhantomData<J>,
    ghost history_is: { seen.book ≡ J.history },
    ghost is_there: { slice_get seen.log number ≡ Some command.value },
}

impl<J: QueueName> Claim<J> {
    /// Its number, which no other command of the queue has.
    pub fn number(&self) -> u64
        ensures { result ≡ self.now.number }
    {
        self.number
    }

    /// Two claims of one number are of one command.
    pub fn same_number_means_same_command(&self, other: &Claim<J>)
        requires { self.now.number ≡ other.now.number }
        ensures { self.now.command.value ≡ other.now.command.value }
    {
        let mut both = self.seen.again();
        both.learn(&other.seen);
    }
}
