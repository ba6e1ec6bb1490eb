//! The rule over what the passes of a queue's table know: who handed in what, which number each
//! command has, and which were submitted. The table's one word is never written: only the views of
//! the passes change. A pass has no bytes.

use atomic_table::{Join, Play, Seat, Split, Table, TableRule};
use path_db::Command;
use std::alloc::Global;
use std::collections::LinkedList;
use std::marker::{Brand, PhantomData};

/// A command that was handed in, and the number of its sender. The type exists in proofs alone.
pub struct SentCommand {
    /// The number of the sender.
    pub by: u64,
    /// The command.
    pub command: Command,
}

/// The commands that a sender handed in, in their order. The type exists in proofs alone.
pub struct SenderList {
    /// The number of the sender.
    pub by: u64,
    /// The commands.
    pub commands: LinkedList<Command>,
}

/// What a pass knows. The type exists in proofs alone.
pub struct QueueView {
    /// Whether the pass is the keeper, which knows all commands that were handed in.
    pub keeps: bool,
    /// The keeper's: all commands that were handed in, in their order.
    pub history: LinkedList<SentCommand>,
    /// The keeper's: the number of senders that have handed something in.
    pub senders: u64,
    /// What some senders have handed in. No other pass has a list of these senders.
    pub lists: LinkedList<SenderList>,
    /// Whether the pass claims the command of a number.
    pub claims: bool,
    /// The number, counted from 0 among all commands that were handed in.
    pub number: u64,
    /// The claimed command.
    pub command: Command,
    /// Whether the pass knows which commands were submitted.
    pub submits: bool,
    /// The number below which each command has that was submitted.
    pub next: u64,
    /// The commands that were submitted, in their order.
    pub submitted: LinkedList<Command>,
}

/// The rule: there is one history of all commands that were handed in. One pass at most knows it
/// whole, and what each other one knows is true of it.
pub struct QueueRule;

impl TableRule<(), QueueView, ()> for QueueRule {
    ghost use Rattle.std.specs.Prelude.{[]};
    ghost use Rattle.command_queue.specs.Passes.{AreOfQueue, keeper_view};

    ghost holds = { λ _ table. AreOfQueue table.views };

    ghost first = { λ _. keeper_view [] 0 };
}

/// The table of a queue.
pub type QueueTable = Table<(), QueueView, (), QueueRule, Global>;

/// A pass of a queue's table. It has no bytes.
pub type QueuePass = Seat<(), QueueView>;

/// What one step is about. The call that makes the step picks it.
pub(crate) trait Chosen {
    ghost use Rattle.std.specs.Prelude.{ℕ};
    ghost use Rattle.path_db.specs.declared.command.Command.{Command};

    ghost number: { ℕ };

    ghost command: { Command };
}

impl Chosen for Brand {
    ghost use Rattle.command_queue.specs.Passes.{no_command};

    ghost number = { 0 };

    ghost command = { no_command };
}

/// A pass takes in what another one knows.
pub(crate) struct Takes;

impl Join<QueueView> for Takes {
    ghost use Rattle.std.specs.Prelude.{[]};
    ghost use Rattle.command_queue.specs.Passes.{view_with, lists_view};

    ghost both = { view_with };

    ghost spent = { lists_view [] };
}

/// The sender whose list the keeper has taken in hands in a command: the keeper knows the longer
/// history, and the new pass has the sender's longer list.
pub(crate) struct Sends<C> {
    of: PhantomData<C>,
}

impl<C: Chosen> Split<QueueView> for Sends<C> {
    ghost use Rattle.std.specs.Prelude.{[], ◌∷◌};
    ghost use Rattle.command_queue.specs.Passes.{keeper_view, lists_view, list_with, first_number, senders_after, history_with};

    ghost left = { λ v. keeper_view (history_with v.history (first_number v.senders v.lists) C.command) (senders_after v.senders v.lists) };

    ghost right = { λ v. lists_view (list_with v.senders C.command v.lists ∷ []) };
}

/// The new pass claims the command of a number, which the keeper knows.
pub(crate) struct Numbers<C> {
    of: PhantomData<C>,
}

impl<C: Chosen> Split<QueueView> for Numbers<C> {
    ghost use Rattle.command_queue.specs.Passes.{number_view};

    ghost left = { λ v. v };

    ghost right = { λ v. number_view C.number C.command };
}

/// The claimed command is submitted after all others. The new pass knows nothing.
pub(crate) struct Submits;

impl Split<QueueView> for Submits {
    ghost use Rattle.std.specs.Prelude.{suc, [], ◌∷◌, ◌++◌};
    ghost use Rattle.command_queue.specs.Passes.{submitted_view, lists_view};

    ghost left = { λ v. submitted_view (suc v.number) (v.submitted ++ v.command ∷ []) };

    ghost right = { λ v. lists_view [] };
}

/// The keeper makes the pass of who submits, who has submitted nothing.
pub(crate) struct Begins;

impl Split<QueueView> for Begins {
    ghost use Rattle.std.specs.Prelude.{[]};
    ghost use Rattle.command_queue.specs.Passes.{submitted_view};

    ghost left = { λ v. v };

    ghost right = { λ v. submitted_view 0 [] };
}

/// A pass that knows nothing is made.
pub(crate) struct Issues;

impl Play<(), QueueView> for Issues {
    ghost use Rattle.std.specs.Prelude.{◌≡◌, []};
    ghost use Rattle.command_queue.specs.Passes.{lists_view};

    ghost then = { λ _ _ _ after. after.0 ≡ lists_view [] };
}

/// The keeper compares what it has taken in with the history.
pub(crate) struct Checks;

impl Play<(), QueueView> for Checks {
    ghost use Rattle.command_queue.specs.Passes.{IsChecked};

    ghost then = { λ _ before _ after. IsChecked before.0 after.0 };
}
