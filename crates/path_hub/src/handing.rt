//! What is done with a hub's state, under its lock, for the commands that were handed in: they are
//! submitted, their tickets redeemed, and their answers put where they go.

ghost use Rattle.std.specs.Prelude.{◌≡◌, ◌+◌, ◌<◌, ◌≤◌, true, None};
ghost use Rattle.std.specs.VecDeque.{deque_len, deque_capacity};
ghost use Rattle.path_hub.specs.Sending.{NotesTaken};
ghost use Rattle.store_loops.specs.Receipts.{IsTicketOrCommand};

use crate::guarded::{HubState, Locked};
use crate::hub::Hub;
use command_queue::{Claim, HandedIn, MOST_WAITING, NotQueued, Sender};
use group_core::{SubmitError, Ticket};
use hub_claims::{Answer, HubName, Slot};
use hub_waits::Done;
use logged_state::{Accepted, LoggedRedeemed};
use path_db::Command;
use sector_dev::Device;
use std::alloc::Global;
use std::collections::VecDeque;
use std::sync::atomic::Ordering;
use std::sync::{Arc, Wait};
use std::time::Clock;
use store_loops::Awaited;

/// The most commands of a group, which is also the most that are taken from the queue at once.
pub(crate) const MOST_TAKEN: u64 = 32;

/// The most commands under way: as many as may be pending in a state. Room for their tickets is
/// taken when the hub is made.
pub(crate) const MOST_UNDER_WAY: usize = 256;

/// A command that was submitted: its ticket, the queue's claim of it and that of the state's log,
/// and where its answer goes. Its answer is a receipt, or that the state stopped (`may_stop`): it
/// is not refused for another reason any more.
pub(crate) struct UnderWay<N: HubName> {
    ticket: Ticket,
    claim: Claim<N>,
    accepted: Accepted<N>,
    slot: Arc<Slot<N>, Global>,
    ghost same: { ticket.command.value ≡ claim.command.value },
    ghost placed: { ticket.place ≡ N.opening.place + accepted.index },
    ghost logged: { accepted.command ≡ ticket.command.value },
    ghost may_stop: { N.refused claim.command.value None ≡ true },
}

/// The commands of the queue that were submitted and are not answered yet, in the order of their
/// places.
pub(crate) type AllUnderWay<N> = VecDeque<UnderWay<N>>;

/// Commands that were taken from the queue at once, in the order in which they waited.
type Batch<N> = VecDeque<HandedIn<N, Arc<Slot<N>, Global>>>;

impl<D: Device, N: HubName, R: Wait + Clock> Hub<D, N, R> {
    /// Submits commands of the queue, the longest waiting one first: at most 32, and so few that no
    /// more than `most` are pending then. Where memory is refused for them, all keep waiting. The
    /// queue's lock is taken once.
    pub(crate) fn take_commands(&self, locked: &mut Locked<D, N, R>, most: u64) {
        let missing = most.saturating_sub(locked.state.numbers().pending);
        let room = missing.min(MOST_TAKEN) as usize;
        let Ok(mut batch) = Batch::with_capacity(self.alloc, room) else {
            return;
        };
        if locked.under_way.reserve(room).is_err() {
            return;
        }
        self.queue.lock(&self.rt).take_into(&mut batch, room);
        self.submit_all(locked, batch);
    }

    /// Submits the commands of a batch in their order.
    fn submit_all(&self, locked: &mut Locked<D, N, R>, batch: Batch<N>)
        requires { deque_len locked.old.under_way + deque_len batch ≤ deque_capacity locked.old.under_way }
    {
        let mut batch = batch;
        while let Some(handed) = batch.pop_front() {
            self.submit_one(locked, handed);
        }
    }

    /// Submits a command of the queue. A refusal is its answer.
    #[tactic(auto, using(store_loops::proofs::Through::taken))]
    fn submit_one(&self, locked: &mut Locked<D, N, R>, handed: HandedIn<N, Arc<Slot<N>, Global>>)
        requires { deque_len locked.old.under_way < deque_capacity locked.old.under_way }
        ensures len { deque_len locked.new.under_way ≤ deque_len locked.old.under_way + 1 }
        ensures capacity { deque_capacity locked.new.under_way ≡ deque_capacity locked.old.under_way }
    {
        if !locked.submitted.precedes(&handed.numbered) {
            // The numbers of what waits rise: only a defect of the program leads here.
            self.has_stranger.store(true, Ordering::SeqCst);
            locked.state.halt();
            return self.refuse(handed, SubmitError::Stopped);
        }
        let HandedIn {
            claim,
            numbered,
            command,
            reply_to: slot,
        } = handed;
        match locked.state.submit_logged(command) {
            Ok((ticket, accepted)) => {
                locked.submitted.submit(numbered);
                locked.under_way.push_back_reserved(UnderWay {
                    ticket,
                    claim,
                    accepted,
                    slot,
                });
            }
            Err((_command, refusal)) => {
                self.put(&slot, Answer::refused(claim, numbered, refusal));
            }
        }
    }

    /// Submits a command of a sender that has not waited in the queue, and notes that the sender
    /// has handed it in. A command that is refused is not noted: it gets its number once the state
    /// has taken it, and the queue is locked meanwhile. It is refused as busy where commands wait
    /// there.
    #[tactic(auto, using(store_loops::proofs::Through::taken))]
    pub(crate) fn submit_now(
        &self,
        locked: &mut Locked<D, N, R>,
        sender: &mut Sender<N>,
        command: Command,
    ) -> Result<Ticket, (Command, SubmitError)>
        ensures command { IsTicketOrCommand command result }
        ensures sent { NotesTaken command result sender.old sender.new }
    {
        if let Err(refusal) = locked.state.judge(&command) {
            return Err((command, refusal));
        }
        let Ok(copy) = command.try_clone(self.alloc) else {
            return Err((command, SubmitError::NoMemory));
        };
        let mut queue = self.queue.lock(&self.rt);
        if let Some(why) = queue.pass_refusal() {
            return Err((command, submit_error(why)));
        }
        if !locked.submitted.is_below(queue.next_number()) {
            // The numbers of the queue rise: only a defect of the program leads here.
            return Err((command, SubmitError::Busy));
        }
        let (ticket, _accepted) = locked.state.submit_logged(command)?;
        match queue.pass(sender, &copy) {
            Ok(numbered) => locked.submitted.submit(numbered),
            Err(_changed) => self.wait_for_ever(),
        }
        Ok(ticket)
    }

    /// Does not return. Only a defect of the program leads here, after which a command that the
    /// state has taken can be neither answered nor taken back.
    fn wait_for_ever(&self) -> ! {
        for _ in self.rt.forever() {
            let seen = self.changes.count(Awaited::Work);
            self.changes.rest(&self.rt, Awaited::Work, seen);
        }
        unreachable!()
    }

    /// Submits commands of the queue in this thread: the hub has no thread for its flusher.
    pub(crate) fn take_at_once(&self) {
        let mut locked = self.lock_state();
        self.take_commands(&mut locked, u64::MAX);
        self.end_call(locked, Done::Nothing);
    }

    /// Answers all commands whose outcome is known: those that are committed, and all others where
    /// the state has stopped.
    pub(crate) fn answer_known(&self, locked: &mut Locked<D, N, R>) {
        let numbers = locked.state.numbers();
        self.redeem_below(
            locked,
            if numbers.stopped {
                u64::MAX
            } else {
                numbers.place
            },
        );
        if numbers.stopped {
            self.close_queue();
        }
    }

    /// Answers the commands under way whose places are below this one.
    fn redeem_below(&self, locked: &mut Locked<D, N, R>, end: u64) {
        for _ in 0..locked.under_way.len() {
            let first = locked
                .under_way
                .pop_front_if(|first| first.ticket.place() < end);
            let Some(first) = first else {
                break;
            };
            self.redeem_one(&mut locked.state, first);
        }
    }

    /// Answers a command under way whose outcome is known.
    #[tactic(auto, using(crate::proofs::Committed::receipt_shows))]
    fn redeem_one(&self, state: &mut HubState<D, N, R>, first: UnderWay<N>)
        ensures { state.new.log ≡ state.old.log }
    {
        let UnderWay {
            ticket,
            claim,
            accepted,
            slot,
        } = first;
        let answer = match state.redeem_logged(ticket, accepted) {
            LoggedRedeemed::Committed(receipt) => Answer::committed(claim, receipt),
            LoggedRedeemed::Unknown(lost) => Answer::stopped(claim, lost),
            // The state has given the ticket, and its outcome is known: only a defect of the
            // program leads here.
            LoggedRedeemed::Waiting(ticket, accepted)
            | LoggedRedeemed::Stranger(ticket, accepted) => {
                self.has_stranger.store(true, Ordering::SeqCst);
                Answer::stopped(claim, state.give_up_ticket(ticket, accepted))
            }
        };
        self.put(&slot, answer);
    }

    /// Closes the queue, and answers all commands that wait there: the state has stopped.
    fn close_queue(&self) {
        let mut queue = self.queue.lock(&self.rt);
        queue.close();
        for _ in 0..MOST_WAITING {
            let Some(handed) = queue.take() else {
                break;
            };
            self.refuse(handed, SubmitError::Stopped);
        }
    }

    /// Answers a command of the queue that is not submitted.
    fn refuse(&self, handed: HandedIn<N, Arc<Slot<N>, Global>>, why: SubmitError) {
        let HandedIn {
            claim,
            numbered,
            command: _command,
            reply_to: slot,
        } = handed;
        self.put(&slot, Answer::refused(claim, numbered, why));
    }

    /// Puts an answer where it goes, and notes that its condition variable must be notified.
    fn put(&self, slot: &Slot<N>, answer: Answer<N>) {
        let number = answer.number();
        slot.put(&self.rt, answer);
        self.changes.waker.note(&self.rt, number);
    }
}

/// Why the state refuses a command that its queue did not take.
pub(crate) fn submit_error(why: NotQueued) -> SubmitError {
    match why {
        NotQueued::Closed => SubmitError::Stopped,
        NotQueued::Full => SubmitError::Busy,
        NotQueued::Exhausted => SubmitError::Exhausted,
        NotQueued::NoMemory => SubmitError::NoMemory,
    }
}

/// Gives up the tickets of commands whose answers nobody awaits any more, as the hub ends.
pub(crate) fn give_up_all<D: Device, N: HubName, R: Wait>(
    state: &mut HubState<D, N, R>,
    under_way: AllUnderWay<N>,
)
    ensures { state.new.log ≡ state.old.log }
{
    let mut under_way = under_way;
    while let Some(first) = under_way.pop_front() {
        let UnderWay {
            ticket,
            claim: _claim,
            accepted,
            slot: _slot,
        } = first;
        let _lost = state.give_up_ticket(ticket, accepted);
    }
    under_way.destroy_empty();
}
