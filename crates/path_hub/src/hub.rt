//! The hub: one lock over the state, and the readers that are free.

ghost use Rattle.std.specs.Prelude.{◌≡◌, ◌⊎◌, true, Option, IfOk, IfErr, OnOk, OnErr};
ghost use Rattle.group_core.specs.declared.submit_error.SubmitError.{SubmitError as Why};
ghost use Rattle.command_queue.specs.Handed.{handed_with};
ghost use Rattle.hub_claims.specs.declared.error.HubError.TheVariants.{NoReader};
ghost use Rattle.hub_claims.specs.Committed.{ReceiptShows, RefusesCommand, RefusesHandingIn, EndsWaiting};
ghost use Rattle.path_hub.specs.Sending.{NotesTaken};
ghost use Rattle.hub_waits.specs.Numbers.{AreNumbers};

use crate::guarded::Locked;
use crate::handing::submit_error;
use crate::judging::judge_by;
use command_queue::{CommandQueue, EndedSender, EndedSenders, NotQueued, Sender};
use group_core::{Numbers, SubmitError};
use hub_claims::{HubClaim, HubError, HubName, Patient, Slot, Waiter};
use hub_readers::{HubReader, HubReceipt, Look, Looks};
use hub_waits::{Changes, Completed, HubStatus, LONGEST_REST};
use logged_state::{ClaimCollector, LoggedList};
use path_db::Command;
use sector_dev::Device;
use std::alloc::{AllocError, Global};
use std::sync::atomic::{AtomicBool, Ordering};
use std::sync::{Arc, Mutex, Wait};
use std::time::{Clock, Duration};
use store_loops::{Awaited, DeviceCall, Steps};

/// A store's state under one lock, a queue of commands for it under another, and the readers of
/// what it shows, under one name.
///
/// The lock's value has a `LoggedState`, so what that type says of a state and its log holds
/// whenever the lock is free: a stop at that moment leaves an image that opens to what the hub
/// opened with after a front of the log, which has at least all committed commands.
///
/// Nothing in a hub begins a sender. So no call of a hub hands a command in, but by the sender that
/// its caller lends to it, and what such a call notes there is in its contract.
pub struct Hub<D: Device, N: HubName, R: Wait + Clock> {
    pub(crate) rt: R,
    pub(crate) alloc: Global,
    pub(crate) queue: Mutex<CommandQueue<N, Arc<Slot<N>, Global>>>,
    /// Whether a flusher's thread takes the commands of the queue.
    pub(crate) has_flusher: AtomicBool,
    pub(crate) state: Mutex<Locked<D, N, R>>,
    pub(crate) changes: Changes,
    pub(crate) status: HubStatus,
    /// Whether an actor has given up a stranger.
    pub(crate) has_stranger: AtomicBool,
    pub(crate) readers: Mutex<Vec<HubReader<N>>>,
    /// The reader that the workload looks up by for itself, unless a thread has taken it.
    pub(crate) own_reader: Mutex<Option<HubReader<N>>>,
    pub(crate) collector: ClaimCollector<N>,
    /// The claims of the commands that sessions which have ended had acknowledged.
    pub(crate) acknowledged: Mutex<LoggedList<N>>,
    /// What sessions that have ended were shown last.
    pub(crate) looks: Mutex<Looks<N>>,
    /// What senders that have ended had handed in.
    pub(crate) ended: Mutex<EndedSenders<N>>,
}

impl<D: Device, N: HubName, R: Wait + Clock> Hub<D, N, R> {
    /// The handle that the hub waits by.
    pub fn handle(&self) -> &R
        ensures { result.now ≡ self.now.rt }
    {
        &self.rt
    }

    /// Takes a free reader. A hub has 64 of them. A reader that is dropped and not given back is
    /// lost to the hub.
    pub fn reader(&self) -> Result<HubReader<N>, HubError>
        ensures { IfErr result (λ e. e ≡ NoReader) }
    {
        match self.readers.lock(&self.rt).pop() {
            Some(reader) => Ok(reader),
            None => Err(HubError::NoReader),
        }
    }

    /// Gives a reader back.
    pub fn give_back(&self, reader: HubReader<N>) {
        let _ = self.readers.lock(&self.rt).push(reader);
    }

    /// Takes the hub's own reader, by which a workload looks up for itself. It is none of those
    /// that `reader` hands out. The result is `None` while a thread has it.
    pub fn take_own_reader(&self) -> Option<HubReader<N>> {
        self.own_reader.lock(&self.rt).take()
    }

    /// Gives the hub's own reader back.
    pub fn keep_own_reader(&self, reader: HubReader<N>) {
        *self.own_reader.lock(&self.rt) = Some(reader);
    }

    /// The collector of the claims of receipts. Its calls wait for nobody.
    pub fn collector(&self) -> &ClaimCollector<N> {
        &self.collector
    }

    /// Takes the claims of the commands that a session has acknowledged. When the hub ends,
    /// its log has each of these commands. A list cannot be dropped, so who has one hands it in.
    pub fn keep_acknowledged(&self, acknowledged: LoggedList<N>) {
        let mut all = self.acknowledged.lock(&self.rt);
        self.collector.append(&mut all, acknowledged);
    }

    /// Takes what a session was shown last. When the hub ends, that is a front of its log. A look
    /// cannot be dropped, so who has one hands it in, and the hub keeps it.
    pub fn keep_look(&self, look: Look<N>) {
        self.looks.lock(&self.rt).add(look);
    }

    /// Takes a sender that has ended. When the hub ends, what it handed in is all that was handed
    /// in of it. What has ended cannot be dropped, so the hub keeps it.
    pub fn keep_sender(&self, sender: EndedSender<N>) {
        self.ended.lock(&self.rt).take_in(sender);
    }

    /// Submits a command of a sender, and waits until it is committed. The receipt shows the
    /// command, and its note a place above the command's own. A command that is not accepted is
    /// refused at once. Where the state stops before the command is committed, the error has the
    /// command's place, and it is not known whether the store keeps the command.
    #[tactic(auto, using(crate::proofs::Committed::not_handed_in))]
    pub fn register(
        &self,
        sender: &mut Sender<N>,
        command: Command,
    ) -> Result<HubReceipt<N>, HubError>
        ensures committed { IfOk result (ReceiptShows N.opening command) }
        ensures sent { OnOk result (sender.new ≡ handed_with command sender.old) }
        ensures at_most { OnErr result ((sender.new ≡ handed_with command sender.old) ⊎ (sender.new ≡ sender.old)) }
        ensures why { IfErr result (RefusesCommand (N.refused command)) }
    {
        let claim = self.hand_in(sender, command)?;
        self.settle(claim)
    }

    /// Hands a command of a sender in, and returns a claim on its answer. The sender notes the
    /// command, and is as it was where the command is refused. The state's lock is not taken,
    /// unless the hub has no thread for its flusher. A command is refused as busy where 8,448
    /// commands wait, and for want of memory where no room is given for the command and its answer,
    /// unless the state would refuse it for a reason that comes before. Commands are submitted in
    /// the order in which they were handed in.
    pub fn hand_in(&self, sender: &mut Sender<N>, command: Command) -> Result<HubClaim<N>, HubError>
        ensures claim { IfOk result (λ claim. claim ≡ command) }
        ensures sent { NotesTaken command result sender.old sender.new }
        ensures why { IfErr result (RefusesHandingIn (N.refused command)) }
    {
        match self.queue_up(sender, command) {
            Ok(claim) => {
                if !self.may_lead() {
                    self.changes.announce(Awaited::Work);
                }
                if !self.has_flusher.load(Ordering::SeqCst) {
                    self.take_at_once();
                }
                Ok(claim)
            }
            Err((command, why)) => Err(HubError::Submit(self.refusal(&command, why))),
        }
    }

    /// Waits for the answer to a command that was handed in. The receipt shows the command, and its
    /// note a place above the command's own. A command that is not accepted is refused. Where the
    /// state stops before the command is committed, the error has the command's place, and it is
    /// not known whether the store keeps the command. Where no other command waits and nothing is
    /// in flight, this thread may commit the command itself. Otherwise the state's lock is not
    /// taken.
    #[tactic(auto, using(crate::proofs::Committed::refuses))]
    pub fn settle(&self, claim: HubClaim<N>) -> Result<HubReceipt<N>, HubError>
        ensures committed { IfOk result (ReceiptShows N.opening claim) }
        ensures why { IfErr result (RefusesCommand (N.refused claim)) }
    {
        self.settle_for(claim, &mut Patient)
    }

    /// Waits for the answer as `settle` does, and gives up where who waits for it has left. The
    /// waiter is asked after each rest, of at most 10 milliseconds, after which there is no answer.
    /// One that had left before is asked before the first rest, too. It is not asked while this
    /// thread commits the command itself. Where the wait is given up, the command goes on: it is
    /// committed or refused as any other.
    #[tactic(auto, using(crate::proofs::Committed::ends_waiting))]
    pub fn settle_for<W: Waiter>(
        &self,
        claim: HubClaim<N>,
        waiter: &mut W,
    ) -> Result<HubReceipt<N>, HubError>
        ensures committed { IfOk result (ReceiptShows N.opening claim) }
        ensures why { IfErr result (EndsWaiting (N.refused claim) (W.has_left waiter.new)) }
    {
        let condvar = self.changes.waker.condvar(claim.number());
        let mut is_asked = waiter.had_left();
        for _ in self.rt.forever() {
            let seen = condvar.notifications();
            if let Some(outcome) = claim.take_answer(&self.rt) {
                waiter.note_answer();
                return Ok(outcome?);
            }
            if is_asked && waiter.has_left() {
                self.changes.announce(Awaited::Work);
                return Err(HubError::NotAwaited);
            }
            if !self.lead() {
                condvar.sleep(&self.rt, seen, Duration::from_millis(LONGEST_REST));
                is_asked = true;
            }
        }
        unreachable!()
    }

    /// Puts a command into the queue, with room for its answer.
    fn queue_up(
        &self,
        sender: &mut Sender<N>,
        command: Command,
    ) -> Result<HubClaim<N>, (Command, NotQueued)>
        ensures claim { IfOk result (λ claim. claim ≡ command) }
        ensures sent { NotesTaken command result sender.old sender.new }
        ensures back { IfErr result (λ e. e.0 ≡ command) }
        ensures refused { OnErr result ((why : Option Why) → N.refused command why ≡ true) }
    {
        let Ok((slot, reply_to)) = self.room() else {
            let why = self.queue.lock(&self.rt).turn_away(&command);
            return Err((command, why));
        };
        let claim = self
            .queue
            .lock(&self.rt)
            .hand_in(sender, command, reply_to)?;
        Ok(HubClaim::on(claim, slot))
    }

    /// Room for one answer, for whoever waits for the answer and for whoever puts it there.
    fn room(&self) -> Result<(Arc<Slot<N>, Global>, Arc<Slot<N>, Global>), AllocError> {
        let slot = Arc::new(self.alloc, Slot::new())?;
        let reply_to = Arc::try_clone(&slot)?;
        Ok((slot, reply_to))
    }

    /// Why a command is refused that was not queued. A queue is closed once the state has stopped.
    /// Else what the state would refuse comes first, by its numbers at the end of the last guarded
    /// call. The state's lock is not taken.
    fn refusal(&self, command: &Command, why: NotQueued) -> SubmitError {
        if why == NotQueued::Closed {
            return SubmitError::Stopped;
        }
        let (numbers, _completed) = self.numbers();
        match judge_by(&numbers, command) {
            Ok(()) => submit_error(why),
            Err(refusal) => refusal,
        }
    }

    /// The numbers of the state at the end of the last guarded call, and how much both actors had
    /// completed then. The state's lock is not taken, so the call does not wait for the device. The
    /// clause says that the numbers are of one state; no clause can say that it is this hub's, nor
    /// what the actors have completed.
    pub fn numbers(&self) -> (Numbers, Completed)
        ensures { ∥ AreNumbers result.0 ∥₁ }
    {
        self.status.numbers(&self.rt)
    }

    /// The guarded call that is using the device, and the time that it has taken so far, in
    /// microseconds. The state's lock is not taken. The result is `None` where there is no such
    /// call, or the clock cannot be read. No clause can say which call is under way.
    pub fn under_way(&self) -> Option<(DeviceCall, u64)> {
        self.status.under_way(&self.rt)
    }

    /// Notes that the flusher and the waker have threads from now on.
    pub(crate) fn expect_threads(&self) {
        self.has_flusher.store(true, Ordering::SeqCst);
        self.changes.waker.expect_thread();
    }

    /// Whether an actor has given up a value that a step refused as a stranger.
    pub(crate) fn has_stranger(&self) -> bool {
        self.has_stranger.load(Ordering::SeqCst)
    }

    /// Stops the state, which is final: the actors' loops end, and so do the calls that wait for a
    /// commit.
    pub fn stop(&self) {
        self.halt();
    }
}
