//! The queue: commands that were handed in and not taken yet.

ghost use Rattle.std.specs.Prelude.{◌≡◌, ◌==◌, ◌+◌, ◌-◌, ◌^◌, ◌<◌, ◌≤◌, ◌++◌, ◌∷◌, [], length, map, min, true, false, Option, Some, None, unwrap_or, IfOk, IfErr, IfSome, OnOk, OnErr, MatchOption, IfNone};
ghost use Rattle.std.specs.VecDeque.{deque_len, deque_capacity};
ghost use Rattle.group_core.specs.declared.submit_error.SubmitError.{SubmitError};
ghost use Rattle.command_queue.specs.Handed.{handed_with};
ghost use Rattle.command_queue.specs.Numbering.{last_numbers};
ghost use Rattle.command_queue.specs.Orders.{commands_of, IsWithin, AreAllOf};
ghost use Rattle.command_queue.specs.Passes.{AddsOne};
ghost use Rattle.command_queue.specs.Refusals.{queue_refusal, pass_refusal};
ghost use Rattle.command_queue.specs.declared.not_queued.NotQueued.TheVariants.{NoMemory};

use crate::claim::Claim;
use crate::desk::{Desk, NewDesk, Queued};
use crate::history::{NewHistory, QueueName};
use crate::leave::Leave;
use crate::not_queued::{NotQueued, refusal};
use crate::numbering::{Given, Numbering};
use crate::sender::{EndedSenders, Sender, Senders};
use crate::submitted::{Numbered, Submitted};
use path_db::Command;
use std::alloc::Global;
use std::collections::VecDeque;

/// A command that waits, its claim, and where its answer goes.
#[derive(Drop)]
pub struct HandedIn<J: QueueName, T> {
    /// The claim of the command.
    pub claim: Claim<J>,
    /// What it is submitted by, once.
    pub numbered: Numbered<J>,
    /// The command.
    pub command: Command,
    /// Where the answer goes.
    pub reply_to: T,
    ghost same: { command ≡ claim.command.value },
    ghost numbered_so: { numbered ≡ record { number = claim.number; command = command } },
    // Whoever has taken the command may refuse it, for any reason.
    ghost refusable: { (why : Option SubmitError) → J.refused claim.command.value why ≡ true },
}

/// Commands that wait, the longest one first. Each has the number after that of the one before it,
/// and the last one the number before the next.
#[derive(Drop)]
pub struct CommandQueue<J: QueueName, T> {
    numbers: Numbering<J>,
    is_closed: bool,
    waiting: VecDeque<HandedIn<J, T>>,
    leave: Leave<J>,
    ghost fits: { length waiting.items ≤ numbers.next },
    ghost numbered: { map (λ w. w.claim.number) waiting.items ≡ last_numbers numbers.next (length waiting.items) },
}

/// A new queue, with what belongs to it alone.
pub struct NewQueue<J: QueueName, T> {
    /// The queue.
    pub queue: CommandQueue<J, T>,
    /// What begins its senders.
    pub senders: Senders<J>,
    /// What takes them in as they end.
    pub ended: EndedSenders<J>,
    /// What notes which of its commands were submitted.
    pub submitted: Submitted<J>,
}

impl<J: QueueName, T: Drop> CommandQueue<J, T> {
    ghost use Rattle.path_db.specs.declared.command.Command.{Command};

    /// A queue in which no command waits, what begins its senders and takes them in as they end,
    /// and what notes which commands were submitted.
    pub fn new(alloc: Global, history: NewHistory) -> NewQueue<J, T>
        requires history { history.seen.book ≡ J.history }
        requires senders { history.desk.keeper.table_id ≡ J.senders }
        requires refusals { (command : Command) (why : Option SubmitError) → J.refused command why ≡ true }
        ensures queue { (result.queue.numbers.next ≡ 0) × (result.queue.waiting.items ≡ []) × (result.queue.is_closed ≡ false) }
        ensures history { result.queue.numbers.desk ≡ [] }
        ensures submitted { result.submitted ≡ record { next = 0; commands = [] } }
        ensures ended { result.ended ≡ [] }
    {
        let NewHistory { head, seen, desk } = history;
        let NewDesk {
            table,
            of_senders,
            of_ended,
            of_submitted,
            keeper,
            submitter,
        } = desk;
        let queue = CommandQueue {
            numbers: Numbering::new(head, seen, Desk::new(table, keeper)),
            is_closed: false,
            waiting: VecDeque::new(alloc),
            leave: Leave::new(),
        };
        NewQueue {
            queue,
            senders: Senders::new(of_senders),
            ended: EndedSenders::none(of_ended),
            submitted: Submitted::nothing(submitter, of_submitted),
        }
    }

    /// Hands a command in for a sender, which notes it, and returns a claim of that command with
    /// the next number. A command that is not queued is returned, and the queue and the sender are
    /// as they were. The error is the first of `Closed`, `Full` and `Exhausted` that is due, and
    /// otherwise `NoMemory`.
    #[tactic(auto, using(crate::proofs::Waiting::waits))]
    pub fn hand_in(
        &mut self,
        sender: &mut Sender<J>,
        command: Command,
        reply_to: T,
    ) -> Result<Claim<J>, (Command, NotQueued)>
        ensures sent { OnOk result (sender.new ≡ handed_with command sender.old) }
        ensures unsent { OnErr result (sender.new ≡ sender.old) }
        ensures claim { IfOk result (λ c. (c.command.value ≡ command) × (c.number ≡ self.old.numbers.next)) }
        ensures next { OnOk result (self.new.numbers.next ≡ self.old.numbers.next + 1) }

        // The command waits after all others, and its answer goes where the caller says.
        ensures commands { OnOk result (map (λ w. w.command) self.new.waiting.items ≡ map (λ w. w.command) self.old.waiting.items ++ command ∷ []) }
        ensures places { OnOk result (map (λ w. w.reply_to) self.new.waiting.items ≡ map (λ w. w.reply_to) self.old.waiting.items ++ reply_to ∷ []) }
        ensures open { OnOk result (queue_refusal self.old.is_closed (length self.old.waiting.items) self.old.numbers.next ≡ None) }
        ensures back { IfErr result (λ e. e.0 ≡ command) }
        ensures same { OnErr result ((self.new.numbers.next ≡ self.old.numbers.next) × (self.new.waiting.items ≡ self.old.waiting.items)) }
        ensures why { IfErr result (λ e. e.1 ≡ unwrap_or (queue_refusal self.old.is_closed (length self.old.waiting.items) self.old.numbers.next) NoMemory) }
        ensures refused { OnErr result ((why : Option SubmitError) → J.refused command why ≡ true) }
        ensures history { OnOk result (AddsOne command self.old.numbers.desk self.new.numbers.desk) }
        ensures unchanged { OnErr result (self.new.numbers.desk ≡ self.old.numbers.desk) }
        ensures door { self.new.is_closed ≡ self.old.is_closed }
    {
        if let Some(why) = self.refusal() {
            return Err(self.back(command, why));
        }
        if self.waiting.reserve(1).is_err() {
            return Err(self.back(command, NotQueued::NoMemory));
        }
        let Some(given) = self.numbers.give(sender, &command) else {
            return Err(self.back(command, NotQueued::NoMemory));
        };
        let Given {
            claim,
            theirs,
            numbered,
        } = given;
        self.leave.refuse(&command);
        self.waiting.push_back_reserved(HandedIn {
            claim: theirs,
            numbered,
            command,
            reply_to,
        });
        Ok(claim)
    }

    /// Why `pass` refuses a command now: the first of `Closed`, `Full` and `Exhausted` that is due.
    /// Where other commands wait it is `Full`, as they would come after that one.
    pub fn pass_refusal(&self) -> Option<NotQueued>
        ensures number { IfNone result (self.now.numbers.next < 2 ^ 64 - 1) }
        ensures why { result ≡ pass_refusal self.now.is_closed (length self.now.waiting.items) self.now.numbers.next }
    {
        if let Some(why) = self.refusal() {
            return Some(why);
        }
        if self.waiting.is_empty() {
            return None;
        }
        Some(NotQueued::Full)
    }

    /// The number that the next command gets which is handed in.
    pub fn next_number(&self) -> u64
        ensures { result ≡ self.now.numbers.next }
    {
        self.numbers.next()
    }

    /// Hands a command in for a sender that is submitted at once, so that it does not wait. The
    /// error is that of `pass_refusal`, and otherwise `NoMemory`: the word of the history was found
    /// changed, and only a defect of the program leads there.
    pub fn pass(
        &mut self,
        sender: &mut Sender<J>,
        command: &Command,
    ) -> Result<Numbered<J>, NotQueued>
        ensures number { IfOk result (λ n. n ≡ record { number = self.old.numbers.next; command = command.now }) }
        ensures sent { OnOk result (sender.new ≡ handed_with command.now sender.old) }
        ensures unsent { OnErr result (sender.new ≡ sender.old) }
        ensures history { OnOk result (AddsOne command.now self.old.numbers.desk self.new.numbers.desk) }
        ensures unchanged { OnErr result (self.new.numbers.desk ≡ self.old.numbers.desk) }
        ensures same { (self.new.waiting.items ≡ self.old.waiting.items) × (self.new.is_closed ≡ self.old.is_closed) }
        ensures next { OnOk result (self.new.numbers.next ≡ self.old.numbers.next + 1) }
        ensures as_before { OnErr result (self.new.numbers.next ≡ self.old.numbers.next) }
        ensures passed { OnOk result (pass_refusal self.old.is_closed (length self.old.waiting.items) self.old.numbers.next ≡ None) }
        ensures why { IfErr result (λ e. e ≡ unwrap_or (pass_refusal self.old.is_closed (length self.old.waiting.items) self.old.numbers.next) NoMemory) }
    {
        if let Some(why) = self.pass_refusal() {
            return Err(why);
        }
        match self.numbers.give(sender, command) {
            Some(given) => Ok(given.numbered),
            None => Err(NotQueued::NoMemory),
        }
    }

    /// Why a command is refused for whose answer there is no memory: it is not handed in. The
    /// result is that of `hand_in`, or `NoMemory` where that would queue the command.
    pub fn turn_away(&self, command: &Command) -> NotQueued
        ensures why { result ≡ unwrap_or (queue_refusal self.now.is_closed (length self.now.waiting.items) self.now.numbers.next) NoMemory }
        ensures refused { (why : Option SubmitError) → J.refused command.now why ≡ true }
    {
        self.leave.refuse(command);
        self.refusal().unwrap_or(NotQueued::NoMemory)
    }

    /// Takes the command that waits longest. Its number and the number of commands that waited make
    /// the next number, so the numbers of the commands that are taken follow each other.
    pub fn take(&mut self) -> Option<HandedIn<J, T>>
        ensures taken { MatchOption result (self.old.waiting.items ≡ []) (λ h. self.old.waiting.items ≡ h ∷ self.new.waiting.items) }
        ensures none { IfNone result (self.new.waiting.items ≡ []) }
        ensures number { IfSome result (λ h. h.claim.number + length self.old.waiting.items ≡ self.old.numbers.next) }
        ensures same { (self.new.numbers.next ≡ self.old.numbers.next) × (self.new.is_closed ≡ self.old.is_closed) }
    {
        self.waiting.pop_front()
    }

    /// Moves commands to the end of a batch that has room for them, the longest waiting one first:
    /// this number of them, or all where fewer wait.
    pub fn take_into(&mut self, batch: &mut VecDeque<HandedIn<J, T>>, most: usize)
        requires room { deque_len batch.old + most ≤ deque_capacity batch.old }
        ensures order { batch.new.items ++ self.new.waiting.items ≡ batch.old.items ++ self.old.waiting.items }
        ensures count { deque_len batch.new ≡ deque_len batch.old + min most (length self.old.waiting.items) }

        // The numbers of the commands that are taken follow each other.
        ensures numbers { map (λ w. w.claim.number) self.old.waiting.items ≡ last_numbers self.old.numbers.next (length self.old.waiting.items) }
        ensures capacity { deque_capacity batch.new ≡ deque_capacity batch.old }
        ensures same { (self.new.numbers.next ≡ self.old.numbers.next) × (self.new.is_closed ≡ self.old.is_closed) }
    {
        for _ in 0..most {
            let Some(handed) = self.take() else {
                break;
            };
            batch.push_back_reserved(handed);
        }
    }

    /// Closes the queue: no command is handed in from then on. What waits may still be taken.
    pub fn close(&mut self)
        ensures closed { self.new.is_closed ≡ true }
        ensures same { (self.new.numbers.next ≡ self.old.numbers.next) × (self.new.waiting ≡ self.old.waiting) }
    {
        self.is_closed = true;
    }

    /// Ends the queue. What was submitted is a part of what was handed in, in the same order and
    /// each once. What each sender handed in that has ended is all that was handed in of it.
    pub fn end(self, submitted: Submitted<J>, ended: EndedSenders<J>) -> Queued
        ensures history { result.history ≡ self.numbers.desk }
        ensures senders { result.senders ≡ ended }
        ensures submitted { IsWithin submitted.commands (commands_of result.history) }
        ensures all { AreAllOf result.history result.senders }
    {
        let CommandQueue {
            numbers,
            is_closed: _,
            waiting: _waiting,
            leave: _leave,
        } = self;
        numbers.into_desk().end(submitted, ended)
    }

    /// The number of commands that wait.
    pub fn len(&self) -> usize
        ensures { result ≡ length self.now.waiting.items }
    {
        self.waiting.len()
    }

    /// Whether no command waits.
    pub fn is_empty(&self) -> bool
        ensures { result ≡ (length self.now.waiting.items == 0) }
    {
        self.waiting.is_empty()
    }

    /// Why the queue takes no command, apart from want of memory.
    fn refusal(&self) -> Option<NotQueued>
        ensures number { IfNone result (self.now.numbers.next < 2 ^ 64 - 1) }
        ensures why { result ≡ queue_refusal self.now.is_closed (length self.now.waiting.items) self.now.numbers.next }
    {
        refusal(self.is_closed, self.waiting.len(), self.numbers.next())
    }

    /// A command that is refused goes back.
    fn back(&self, command: Command, why: NotQueued) -> (Command, NotQueued)
        ensures result { (result.0 ≡ command) × (result.1 ≡ why) }
        ensures refused { (why : Option SubmitError) → J.refused command why ≡ true }
    {
        self.leave.refuse(&command);
        (command, why)
    }
}
