//! Commands that were handed in and are not answered yet.

ghost use Rattle.std.specs.Prelude.{◌≡◌, ◌≤◌, ◌<◌, [], ◌∷◌, ◌++◌, length, IfOk, IfErr, MatchOption};
ghost use Rattle.std.specs.VecDeque.{deque_capacity};
ghost use Rattle.session_core.specs.declared.ahead.TheConstants.{MOST_AHEAD};
ghost use Rattle.session_core.specs.declared.error.FrameError.TheVariants as error;

use crate::command_kind::CommandKind;
use crate::error::FrameError;
use std::alloc::Global;
use std::collections::VecDeque;

/// The most commands of a session that are handed in and not answered yet.
pub const MOST_AHEAD: usize = 128;

/// A command that was handed in: its kind, the number of bytes of its frame, and what is under way.
#[derive(Drop)]
pub(crate) struct Handed<U> {
    pub(crate) kind: CommandKind,
    pub(crate) len: usize,
    pub(crate) under_way: U,
}

/// Commands in the order in which they were handed in, and room for `MOST_AHEAD` of them.
#[derive(Drop)]
pub(crate) struct Ahead<U> {
    queue: VecDeque<Handed<U>>,
    ghost room: { MOST_AHEAD ≤ deque_capacity queue },
}

impl<U: Drop> Ahead<U> {
    /// Takes the memory for `MOST_AHEAD` commands.
    pub(crate) fn new(alloc: Global) -> Result<Ahead<U>, FrameError>
        ensures ok { IfOk result (λ ahead. ahead.queue.items ≡ []) }
        ensures err { IfErr result (λ e. e ≡ error.NoMemory) }
    {
        match VecDeque::with_capacity(alloc, MOST_AHEAD) {
            Ok(queue) => Ok(Ahead { queue }),
            Err(_) => Err(FrameError::NoMemory),
        }
    }

    /// Adds a command. The call takes no memory.
    pub(crate) fn push(&mut self, handed: Handed<U>)
        requires { length self.old.queue.items < MOST_AHEAD }
        ensures { self.new.queue.items ≡ self.old.queue.items ++ handed ∷ [] }
    {
        let _pushed = self.queue.push_back(handed);
    }

    /// Takes the first command.
    pub(crate) fn pop(&mut self) -> Option<Handed<U>>
        ensures { MatchOption result ((self.old.queue.items ≡ []) × (self.new.queue.items ≡ []))
            (λ first. self.old.queue.items ≡ first ∷ self.new.queue.items) }
    {
        self.queue.pop_front()
    }
}
