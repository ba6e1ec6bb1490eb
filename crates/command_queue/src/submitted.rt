//! Which commands were submitted, of those that were handed in.

ghost use Rattle.std.specs.Prelude.{◌≡◌, ◌+◌, ◌-◌, ◌^◌, ◌<◌, ◌≤◌, nat_le, [], ◌∷◌, ◌++◌};
ghost use Rattle.std.specs.Arc.{arc_value};
ghost use Rattle.command_queue.specs.Passes.{submitted_view, IsSubmitter};

use crate::ghosts::rule::{QueuePass, QueueTable};
use crate::history::QueueName;
use crate::steps;
use std::alloc::Global;
use std::marker::{Model, PhantomData};
use std::sync::Arc;

/// That a command was handed in under a number, which can be submitted once. Only a queue makes
/// one.
#[derive(Drop)]
pub struct Numbered<J: QueueName> {
    pub(crate) number: u64,
    pub(crate) pass: QueuePass,
    pub(crate) of: PhantomData<J>,
}

impl<J: QueueName> Model for Numbered<J> {
    ghost use Rattle.std.specs.Prelude.{◌≡◌, ◌-◌, ◌^◌, ◌<◌, []};
    ghost use Rattle.command_queue.specs.Handed.{NumberedView};
    ghost use Rattle.command_queue.specs.Passes.{IsNumber};

    ghost Value = { NumberedView };

    ghost view = { λ n. record { number = n.number; command = n.pass.me.0.command } };

    ghost invariant = { λ n. (n.number < 2 ^ 64 - 1) × (n.pass.table_id ≡ J.senders) × (n.pass.me.1 ≡ []) × IsNumber n.pass.me.0 × (n.pass.me.0.number ≡ n.number) };
}

/// Which commands were submitted, in their order: each was handed in, each is there once, and their
/// numbers rise. Each queue has one, and it takes 16 bytes.
#[derive(Drop)]
pub struct Submitted<J: QueueName> {
    next: u64,
    pub(crate) pass: QueuePass,
    table: Arc<QueueTable, Global>,
    of: PhantomData<J>,
}

impl<J: QueueName> Model for Submitted<J> {
    ghost use Rattle.std.specs.Prelude.{◌≡◌, []};
    ghost use Rattle.std.specs.Arc.{arc_value};
    ghost use Rattle.command_queue.specs.Handed.{SubmittedView};
    ghost use Rattle.command_queue.specs.Passes.{submitted_view};

    ghost Value = { SubmittedView };

    ghost view = { λ s. record { next = s.next; commands = s.pass.me.0.submitted } };

    ghost invariant = { λ s. ((arc_value s.table).shared.table_id.words ≡ 1) × ((arc_value s.table).shared.table_id ≡ J.senders) × (s.pass.table_id ≡ J.senders) × (s.pass.me.1 ≡ []) × (s.pass.me.0 ≡ submitted_view s.next s.pass.me.0.submitted) };
}

impl<J: QueueName> Submitted<J> {
    /// Nothing was submitted yet.
    pub(crate) fn nothing(pass: QueuePass, table: Arc<QueueTable, Global>) -> Submitted<J>
        requires table { ((arc_value table).shared.table_id.words ≡ 1) × ((arc_value table).shared.table_id ≡ J.senders) }
        requires pass { (pass.table_id ≡ J.senders) × (pass.me ≡ (submitted_view 0 [], [])) }
        ensures { result ≡ record { next = 0; commands = [] } }
    {
        Submitted {
            next: 0,
            pass,
            table,
            of: PhantomData,
        }
    }

    /// Whether a command of this number may be submitted after those that were: the number is above
    /// theirs.
    pub fn is_below(&self, number: u64) -> bool
        ensures { result ≡ nat_le self.now.next number }
    {
        self.next <= number
    }

    /// Whether a command may be submitted after those that were: its number is above theirs.
    pub fn precedes(&self, numbered: &Numbered<J>) -> bool
        ensures { result ≡ nat_le self.now.next numbered.now.number }
    {
        self.is_below(numbered.number)
    }

    /// A command is submitted after those that were.
    pub fn submit(&mut self, numbered: Numbered<J>)
        requires { self.old.next ≤ numbered.number }
        ensures { self.new ≡ record { next = numbered.number + 1; commands = self.old.commands ++ numbered.command ∷ [] } }
    {
        let Numbered {
            number,
            pass,
            of: _,
        } = numbered;
        steps::submit(&self.table, &mut self.pass, pass);
        self.next = number + 1;
    }

    /// The pass alone.
    pub(crate) fn into_pass(self) -> QueuePass
        ensures commands { result.me.0.submitted ≡ self.commands }
        ensures pass { (result.table_id ≡ J.senders) × (result.me.1 ≡ []) × IsSubmitter result.me.0 }
    {
        let Submitted {
            next: _,
            pass,
            table: _table,
            of: _,
        } = self;
        pass
    }
}
