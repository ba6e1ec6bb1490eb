//! The history of all commands that were handed in. It exists in proofs alone: what is stored is a
//! word, which is its length.

ghost use Rattle.std.specs.Prelude.{◌≡◌, []};
ghost use Rattle.command_queue.specs.History.{head_of};

use crate::desk::NewDesk;
use logbook::{Gain, Plain, Play, Rule, Seen, Start, Word};
use path_db::Command;
use std::alloc::{AllocError, Global};
use std::marker::Brand;

/// The rule of the history: the word is its length.
pub struct History;

impl Rule<Command, u64> for History {
    ghost use Rattle.std.specs.Prelude.{[]};
    ghost use base.Fml.{ftrue};
    ghost use Rattle.command_queue.specs.History.{IsKept};

    ghost holds = { λ cells log. IsKept cells log };

    ghost first = { [] };

    ghost hinted = { λ n log. Unit {0} };

    ghost shows = { λ log. [] };

    ghost keeps = { λ names log. ftrue };

    ghost moves = { λ ask before after answer. Unit {0} };
}

/// Who adds to the history trades nothing.
pub(crate) struct Nothing;

impl Gain<Command, u64> for Nothing {
    ghost use base.Fml.{ftrue};

    ghost after = { λ names about answer. ftrue };
}

/// The step that adds a command.
pub(crate) struct Add;

impl Play<Command, u64> for Add {
    ghost use Rattle.command_queue.specs.History.{Adds};

    ghost then = { Adds };
}

/// The step asks for the command.
impl Plain<Command, Command, u64> for Add {
    ghost use Rattle.std.specs.Prelude.{None};

    ghost ask = { λ command. command };

    ghost state = { λ command. None };
}

/// Names one queue by its history, and by the table of its senders. The call that makes a queue
/// picks the name, so a claim of one queue is refused by the types of another.
pub trait QueueName {
    ghost use Rattle.std.specs.Prelude.{Bool, Option};
    ghost use Rattle.atomic_table.specs.Seated.{TableId};
    ghost use Rattle.logbook.specs.Pages.{Book};
    ghost use Rattle.group_core.specs.declared.submit_error.SubmitError.{SubmitError};
    ghost use Rattle.path_db.specs.declared.command.Command.{Command};

    /// The book that the history is in.
    ghost history: { Book };

    /// The table of the passes of its senders.
    ghost senders: { TableId };

    /// It is known that a command was refused for this reason, or, without a reason, that the state
    /// stopped before the command was committed. Code over any name learns this of a command from
    /// two sources alone: the queue did not take the command, or the command was taken out of the
    /// queue. Whoever has it then says for which reason it is refused.
    ghost refused: { Command → Option SubmitError → Bool };
}

impl QueueName for Brand {
    ghost use Rattle.std.specs.Prelude.{true};
    ghost use Rattle.command_queue.specs.Passes.{no_table};

    ghost history = { record { number = 0; log_name = 0; cells_name = 0 } };

    ghost senders = { no_table };

    ghost refused = { λ _ _. true };
}

/// An empty history, which no queue has yet, and the table of the senders that are to come.
#[derive(Drop)]
pub struct NewHistory {
    pub(crate) head: Word<Command, u64, History>,
    pub(crate) seen: Seen<Command, u64, History>,
    pub(crate) desk: NewDesk,
    ghost empty: { seen.log ≡ [] },
    ghost head_is: { head ≡ head_of seen.book },
}

impl NewHistory {
    /// Begins a history. It takes the memory of one word and of the table that has it.
    pub fn new(alloc: Global) -> Result<NewHistory, AllocError> {
        let desk = NewDesk::new(alloc)?;
        let (seen, mut first, _second) = Seen::open(Start::alone(), 0, 0);
        Ok(NewHistory {
            head: Word::tracked(0, &mut first),
            seen,
            desk,
        })
    }
}
