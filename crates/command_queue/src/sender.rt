//! Who hands commands in.

ghost use Rattle.std.specs.Prelude.{◌≡◌, []};
ghost use Rattle.std.specs.Arc.{arc_value};
ghost use Rattle.command_queue.specs.Handed.{nothing_handed};
ghost use Rattle.command_queue.specs.Orders.{Keeps};
ghost use Rattle.command_queue.specs.Passes.{IsLists};

use crate::ghosts::rule::{QueuePass, QueueTable};
use crate::history::QueueName;
use crate::steps;
use std::alloc::Global;
use std::marker::{Model, PhantomData};
use std::sync::Arc;

/// Who hands in commands at the queue of this name, as a session does. Contracts see which commands
/// of it were taken, so that it can be said of a call that it hands nothing in. Nothing copies a
/// sender, and only `Senders` begins one. A sender has no bytes.
#[derive(Drop)]
pub struct Sender<J: QueueName> {
    pub(crate) pass: QueuePass,
    of: PhantomData<J>,
}

impl<J: QueueName> Model for Sender<J> {
    ghost use Rattle.std.specs.Prelude.{◌≡◌, []};
    ghost use Rattle.command_queue.specs.Handed.{Handed};
    ghost use Rattle.command_queue.specs.Passes.{first_commands, IsSender};

    ghost Value = { Handed };

    ghost view = { λ s. record { commands = first_commands s.pass.me.0.lists } };

    ghost invariant = { λ s. (s.pass.table_id ≡ J.senders) × (s.pass.me.1 ≡ []) × IsSender s.pass.me.0 };
}

impl<J: QueueName> Sender<J> {
    /// Ends the sender: by what is left of it, nothing is handed in.
    pub fn end(self) -> EndedSender<J>
        ensures { result.sender ≡ self }
    {
        EndedSender { sender: self }
    }
}

/// A sender that has ended. It is not `Drop`: who has one hands it in.
pub struct EndedSender<J: QueueName> {
    sender: Sender<J>,
}

/// What senders that have ended had handed in: for each that has handed something in, its number
/// and its commands, in their order. Each queue has one, which begins no sender. It is not `Drop`:
/// it ends with its queue.
pub struct EndedSenders<J: QueueName> {
    table: Arc<QueueTable, Global>,
    pass: QueuePass,
    of: PhantomData<J>,
}

impl<J: QueueName> Model for EndedSenders<J> {
    ghost use Rattle.std.specs.Prelude.{◌≡◌, [], List};
    ghost use Rattle.std.specs.Arc.{arc_value};
    ghost use Rattle.command_queue.specs.declared.ghosts.rule.SenderList.{SenderList};
    ghost use Rattle.command_queue.specs.Passes.{IsLists};

    ghost Value = { List SenderList };

    ghost view = { λ e. e.pass.me.0.lists };

    ghost invariant = { λ e. ((arc_value e.table).shared.table_id.words ≡ 1) × ((arc_value e.table).shared.table_id ≡ J.senders) × (e.pass.table_id ≡ J.senders) × (e.pass.me.1 ≡ []) × IsLists e.pass.me.0 };
}

impl<J: QueueName> EndedSenders<J> {
    /// No sender has ended yet.
    pub(crate) fn none(table: Arc<QueueTable, Global>) -> EndedSenders<J>
        requires { ((arc_value table).shared.table_id.words ≡ 1) × ((arc_value table).shared.table_id ≡ J.senders) }
        ensures { result ≡ [] }
    {
        EndedSenders {
            pass: steps::issue(&table),
            table,
            of: PhantomData,
        }
    }

    /// Takes in a sender that has ended.
    pub fn take_in(&mut self, ended: EndedSender<J>)
        ensures { Keeps ended.sender self.old self.new }
    {
        let EndedSender { sender } = ended;
        let Sender { pass, of: _ } = sender;
        steps::gather(&self.table, &mut self.pass, pass);
    }

    /// The pass alone.
    pub(crate) fn into_pass(self) -> QueuePass
        ensures lists { result.me.0.lists ≡ self }
        ensures pass { (result.table_id ≡ J.senders) × (result.me.1 ≡ []) × IsLists result.me.0 }
    {
        let EndedSenders {
            table: _table,
            pass,
            of: _,
        } = self;
        pass
    }
}

/// Begins the senders of the queue of this name: nothing else does. Each queue has one.
#[derive(Drop)]
pub struct Senders<J: QueueName> {
    table: Arc<QueueTable, Global>,
    of: PhantomData<J>,
    ghost one_word: { (arc_value table).shared.table_id.words ≡ 1 },
    ghost of_name: { (arc_value table).shared.table_id ≡ J.senders },
}

impl<J: QueueName> Senders<J> {
    /// The one of a new queue.
    pub(crate) fn new(table: Arc<QueueTable, Global>) -> Senders<J>
        requires { ((arc_value table).shared.table_id.words ≡ 1) × ((arc_value table).shared.table_id ≡ J.senders) }
    {
        Senders {
            table,
            of: PhantomData,
        }
    }

    /// Begins a sender that has handed in nothing.
    pub fn begin(&self) -> Sender<J>
        ensures { result ≡ nothing_handed }
    {
        Sender {
            pass: steps::issue(&self.table),
            of: PhantomData,
        }
    }
}
