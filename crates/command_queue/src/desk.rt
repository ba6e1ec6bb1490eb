//! What a queue knows of all commands that were handed in. It exists in proofs alone, but for the
//! table that it is about, which is a word.

ghost use Rattle.std.specs.Prelude.{◌≡◌, ◌-◌, ◌^◌, ◌<◌, [], length};
ghost use Rattle.std.specs.Arc.{arc_value};
ghost use Rattle.command_queue.specs.Handed.{handed_with};
ghost use Rattle.command_queue.specs.Orders.{commands_of, IsWithin, AreAllOf};
ghost use Rattle.command_queue.specs.Passes.{keeper_view, submitted_view, AddsOne};

use crate::ghosts::rule::{QueuePass, QueueTable};
use crate::history::QueueName;
use crate::sender::{EndedSenders, Sender};
use crate::steps;
use crate::submitted::{Numbered, Submitted};
use path_db::Command;
use std::alloc::{AllocError, Global};
use std::marker::{Model, PhantomData};
use std::mem;
use std::sync::Arc;

/// A new table, which no queue has yet, and its passes.
#[derive(Drop)]
pub(crate) struct NewDesk {
    pub(crate) table: Arc<QueueTable, Global>,
    pub(crate) of_senders: Arc<QueueTable, Global>,
    pub(crate) of_ended: Arc<QueueTable, Global>,
    pub(crate) of_submitted: Arc<QueueTable, Global>,
    pub(crate) keeper: QueuePass,
    pub(crate) submitter: QueuePass,
    ghost one_word: { (arc_value table).shared.table_id.words ≡ 1 },
    ghost senders_same: { (arc_value of_senders).shared.table_id ≡ (arc_value table).shared.table_id },
    ghost ended_same: { (arc_value of_ended).shared.table_id ≡ (arc_value table).shared.table_id },
    ghost submitted_same: { (arc_value of_submitted).shared.table_id ≡ (arc_value table).shared.table_id },
    ghost keeper_of: { keeper.table_id ≡ (arc_value table).shared.table_id },
    ghost keeper_is: { keeper.me ≡ (keeper_view [] 0, []) },
    ghost submitter_of: { submitter.table_id ≡ (arc_value table).shared.table_id },
    ghost submitter_is: { submitter.me ≡ (submitted_view 0 [], []) },
}

impl NewDesk {
    /// Takes the memory of one word and of the table that has it. No later call takes any.
    pub(crate) fn new(alloc: Global) -> Result<NewDesk, AllocError> {
        let (table, mut keeper) = QueueTable::of_words(alloc, &[0], &())?;
        let table = Arc::new(alloc, table)?;
        let of_senders = Arc::try_clone(&table)?;
        let of_ended = Arc::try_clone(&table)?;
        let of_submitted = Arc::try_clone(&table)?;
        let submitter = steps::begin(&table, &mut keeper);
        Ok(NewDesk {
            table,
            of_senders,
            of_ended,
            of_submitted,
            keeper,
            submitter,
        })
    }
}

/// All commands that were handed in at the queue of this name, with the numbers of their senders.
/// Contracts see that list, which no code keeps.
#[derive(Drop)]
pub(crate) struct Desk<J: QueueName> {
    table: Arc<QueueTable, Global>,
    keeper: QueuePass,
    of: PhantomData<J>,
}

impl<J: QueueName> Model for Desk<J> {
    ghost use Rattle.std.specs.Prelude.{◌≡◌, [], List};
    ghost use Rattle.std.specs.Arc.{arc_value};
    ghost use Rattle.command_queue.specs.declared.ghosts.rule.SentCommand.{SentCommand};
    ghost use Rattle.command_queue.specs.Passes.{IsKeeper};

    ghost Value = { List SentCommand };

    ghost view = { λ d. d.keeper.me.0.history };

    ghost invariant = { λ d. ((arc_value d.table).shared.table_id.words ≡ 1) × ((arc_value d.table).shared.table_id ≡ J.senders) × (d.keeper.table_id ≡ J.senders) × (d.keeper.me.1 ≡ []) × IsKeeper d.keeper.me.0 };
}

impl<J: QueueName> Desk<J> {
    /// Nothing was handed in yet.
    pub(crate) fn new(table: Arc<QueueTable, Global>, keeper: QueuePass) -> Desk<J>
        requires table { ((arc_value table).shared.table_id.words ≡ 1) × ((arc_value table).shared.table_id ≡ J.senders) }
        requires keeper { (keeper.table_id ≡ J.senders) × (keeper.me ≡ (keeper_view [] 0, [])) }
        ensures { result ≡ [] }
    {
        Desk {
            table,
            keeper,
            of: PhantomData,
        }
    }

    /// A sender hands in a command, which has this number: that of the commands before it.
    pub(crate) fn note(
        &mut self,
        sender: &mut Sender<J>,
        number: u64,
        command: &Command,
    ) -> Numbered<J>
        requires { (number ≡ length self.old) × (number < 2 ^ 64 - 1) }
        ensures history { AddsOne command.now self.old self.new }
        ensures sender { sender.new ≡ handed_with command.now sender.old }
        ensures number { result ≡ record { number = number; command = command.now } }
    {
        let before = mem::replace(&mut sender.pass, steps::issue(&self.table));
        sender.pass = steps::send(&self.table, &mut self.keeper, before, command);
        Numbered {
            number,
            pass: steps::number(&self.table, &mut self.keeper, number, command),
            of: PhantomData,
        }
    }

    /// What was submitted is a part of what was handed in, in the same order and each once. What
    /// each sender handed in that has ended is all that was handed in of it.
    pub(crate) fn end(self, submitted: Submitted<J>, ended: EndedSenders<J>) -> Queued
        ensures history { result.history ≡ self }
        ensures senders { result.senders ≡ ended }
        ensures submitted { IsWithin submitted.commands (commands_of self) }
        ensures all { AreAllOf self ended }
    {
        let Desk {
            table,
            mut keeper,
            of: _,
        } = self;
        steps::check(
            &table,
            &mut keeper,
            submitted.into_pass(),
            ended.into_pass(),
        );
        Queued { pass: keeper }
    }
}

/// All commands that were handed in at a queue that has ended, with the numbers of their senders,
/// and what each sender handed in that has ended. Only a queue makes one. It has no bytes.
#[derive(Drop)]
pub struct Queued {
    pass: QueuePass,
}

impl Model for Queued {
    ghost use Rattle.command_queue.specs.Orders.{QueuedView};

    ghost Value = { QueuedView };

    ghost view = { λ q. record { history = q.pass.me.0.history; senders = q.pass.me.0.lists } };
}
