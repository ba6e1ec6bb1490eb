//! A store in memory that one caller drives.

ghost use Rattle.std.specs.Prelude.{◌≡◌, ◌≤◌, length, IfOk};
ghost use Rattle.std.specs.List.{AllByRecursion};
ghost use Rattle.seg_core.specs.Encoding.{IsSegment};
ghost use Rattle.path_db.specs.Answer.{segments_of};
ghost use Rattle.path_records.specs.CommandRecord.{IsWithinLimits};
ghost use Rattle.seg_lookup.specs.Answer.{answer_to};
ghost use Rattle.seg_lookup.specs.Query.{query_view};
ghost use Rattle.seg_lookup.specs.declared.answers.TheConstants.{ANSWER_LIMIT};
ghost use Rattle.once_store.specs.OnceView.{no_rows};
ghost use Rattle.once_store.specs.Taking.{MayTake};

use crate::committing::{Held, commit_pending};
use crate::ending::end;
use crate::error::{TakeError, Taken};
use crate::memory_state::MemoryState;
use crate::settling::{hold, settle};
use crate::starting::start;
use group_core::SubmitError;
use path_db::Command;
use seg_core::Segment;
use seg_lookup::Query;
use std::alloc::{AllocError, Global};
use std::marker::Model;

/// A store at work on a device in memory, whose halves have checkpoint areas and journals of 4,096
/// sectors. Each command is committed before the next one is taken. The store cannot be dropped:
/// `end` ends it.
pub struct OnceStore {
    state: MemoryState,
    /// What is held of an accepted command, where memory was refused before the command was
    /// committed.
    held: Option<Held>,
}

impl Model for OnceStore {
    ghost use Rattle.once_store.specs.OnceView.{OnceView, once_view, IsLone};

    ghost Value = { OnceView };

    ghost view = { λ s. once_view s.state };

    ghost invariant = { λ s. IsLone s.state s.held };
}

impl OnceStore {
    /// Makes a store without rows, at place 0. The device takes 8.4 MB.
    pub fn new(alloc: Global) -> Result<OnceStore, AllocError>
        ensures { IfOk result (λ store. store ≡ no_rows) }
    {
        let state = start(alloc)?;
        Ok(OnceStore { state, held: None })
    }

    /// Takes a command, and commits it. Where memory is refused, the command is not taken, or it is
    /// taken and its outcome is not reported. The store can still be used then.
    pub fn take(&mut self, command: Command) -> Result<Taken, TakeError>
        requires within { IsWithinLimits command }
        ensures { MayTake self.old command result self.new }
    {
        if settle(&mut self.state, &mut self.held).is_err() {
            return Err(TakeError::NoMemory);
        }
        let ticket = match self.state.submit(command) {
            Ok(ticket) => ticket,
            Err((_command, SubmitError::NoMemory)) => return Err(TakeError::NoMemory),
            Err((_command, SubmitError::Full)) => return Err(TakeError::Full),
            Err((_command, SubmitError::Exhausted)) => return Err(TakeError::Exhausted),
            Err(_) => unreachable!(),
        };
        let place = ticket.place();
        match commit_pending(&mut self.state, ticket) {
            Ok(outcome) => Ok(Taken { place, outcome }),
            Err(held) => {
                hold(&mut self.held, held);
                Err(TakeError::NoMemory)
            }
        }
    }

    /// The segments that a query shows at a moment, in half seconds since 1970. Memory is refused
    /// only where there are segments to show, or where it was refused for an earlier command.
    pub fn look_up(&mut self, query: &Query, now: u64) -> Result<Vec<Segment>, AllocError>
        ensures answer { IfOk result (λ found. found.items ≡ segments_of (answer_to self.old.rows (query_view query.now) now)) }
        ensures few { IfOk result (λ found. length found.items ≤ ANSWER_LIMIT) }
        ensures whole { IfOk result (λ found. AllByRecursion IsSegment found.items) }
        ensures same { self.new ≡ self.old }
    {
        settle(&mut self.state, &mut self.held)?;
        self.state.look_up(query, now)
    }

    /// Ends the store, and drops its device. The call takes no memory.
    pub fn end(self) {
        let OnceStore { state, held } = self;
        end(state, held);
    }
}
