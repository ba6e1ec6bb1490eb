//! The numbers of the commands that are handed in.

ghost use Rattle.std.specs.Prelude.{◌≡◌, ◌+◌, ◌-◌, ◌<◌, ◌^◌, [], length, slice_get, Some, IfSome, IfNone, OnSome};
ghost use Rattle.command_queue.specs.Handed.{handed_with};
ghost use Rattle.command_queue.specs.History.{head_of};
ghost use Rattle.command_queue.specs.Orders.{commands_of};
ghost use Rattle.command_queue.specs.Passes.{AddsOne};

use crate::claim::Claim;
use crate::desk::Desk;
use crate::history::{Add, History, Nothing, QueueName};
use crate::sender::Sender;
use crate::submitted::Numbered;
use logbook::{Offer, Seen, Word};
use path_db::Command;
use std::marker::PhantomData;
use std::snapshot::Snapshot;

/// The next number, which is the number of commands that were ever handed in, and the history of
/// these commands.
#[derive(Drop)]
pub(crate) struct Numbering<J: QueueName> {
    next: u64,
    seen: Seen<Command, u64, History>,
    head: Word<Command, u64, History>,
    desk: Desk<J>,
    ghost history_is: { seen.book ≡ J.history },
    ghost head_is: { head ≡ head_of J.history },
    ghost counted: { next ≡ length seen.log },
    ghost noted: { commands_of desk ≡ seen.log },
}

/// What is given for a command that is handed in: a claim for who waits for its answer, one for who
/// submits it, and what it is submitted by.
#[derive(Drop)]
pub(crate) struct Given<J: QueueName> {
    pub(crate) claim: Claim<J>,
    pub(crate) theirs: Claim<J>,
    pub(crate) numbered: Numbered<J>,
}

impl<J: QueueName> Numbering<J> {
    /// The numbers of a history that no queue has yet: the next one is 0.
    pub(crate) fn new(
        head: Word<Command, u64, History>,
        seen: Seen<Command, u64, History>,
        desk: Desk<J>,
    ) -> Numbering<J>
        requires history { seen.book ≡ J.history }
        requires head { head ≡ head_of seen.book }
        requires empty { (seen.log ≡ []) × (desk ≡ []) }
        ensures { (result.next ≡ 0) × (result.desk ≡ desk) }
    {
        Numbering {
            next: 0,
            seen,
            head,
            desk,
        }
    }

    /// The next number.
    pub(crate) fn next(&self) -> u64
        ensures { result ≡ self.now.next }
    {
        self.next
    }

    /// Gives the next number to a command of a sender, which notes it. Where the word of the
    /// history is found changed, no number is given. Only these numbers change the word, so only a
    /// defect of the program leads there.
    #[tactic(auto, using(crate::proofs::Noting::noted_too, crate::proofs::Noting::as_many))]
    pub(crate) fn give(&mut self, sender: &mut Sender<J>, command: &Command) -> Option<Given<J>>
        requires { self.old.next < 2 ^ 64 - 1 }
        ensures claims { IfSome result (λ g. (g.claim.command.value ≡ command.now) × (g.theirs.command.value ≡ command.now)) }
        ensures number { IfSome result (λ g. (g.claim.number ≡ self.old.next) × (g.theirs.number ≡ self.old.next)) }
        ensures numbered { IfSome result (λ g. g.numbered ≡ record { number = self.old.next; command = command.now }) }
        ensures next { OnSome result (self.new.next ≡ self.old.next + 1) }
        ensures history { OnSome result (AddsOne command.now self.old.desk self.new.desk) }
        ensures sent { OnSome result (sender.new ≡ handed_with command.now sender.old) }
        ensures same { IfNone result ((self.new.next ≡ self.old.next) × (self.new.desk ≡ self.old.desk) × (sender.new ≡ sender.old)) }
    {
        let number = self.next;
        let mut seen = self.seen.again();
        let mut pen = seen.no_pen();
        let mut offer: Offer<Command, u64, History, Nothing> = seen.plain::<Nothing, Command, Add>(
            command,
        );
        let found = self
            .head
            .compare_exchange::<Add, Nothing>(number, number + 1, &mut seen, &mut offer, &mut pen);
        if found != number {
            return None;
        }
        let claim = claim_of(&seen, number, command);
        let theirs = claim_of(&seen, number, command);
        let numbered = self.desk.note(sender, number, command);
        self.seen = seen;
        self.next = number + 1;
        Some(Given {
            claim,
            theirs,
            numbered,
        })
    }

    /// What is known of all commands that were handed in.
    pub(crate) fn into_desk(self) -> Desk<J>
        ensures { result ≡ self.desk }
    {
        let Numbering {
            next: _,
            seen: _seen,
            head: _head,
            desk,
        } = self;
        desk
    }
}

/// A claim of the command that has a number in what was seen of the history.
fn claim_of<J: QueueName>(
    seen: &Seen<Command, u64, History>,
    number: u64,
    command: &Command,
) -> Claim<J>
    requires book { seen.now.book ≡ J.history }
    requires there { slice_get seen.now.log number ≡ Some command.now }
    ensures command { result.command.value ≡ command.now }
    ensures number { result.number ≡ number }
{
    Claim {
        number,
        command: Snapshot::of(command),
        seen: seen.again(),
        of: PhantomData,
    }
}
