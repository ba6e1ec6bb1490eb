//! The guarded calls over a hub's state: each takes the lock for one call, copies the
//! state's numbers to the status, and then wakes the threads that wait for what it changed.

ghost use Rattle.std.specs.Prelude.{◌≡◌, true};
ghost use Rattle.path_hub.specs.Sending.{NotesTaken};
ghost use Rattle.store_loops.specs.Receipts.{IsTicketOrCommand};

use crate::handing::{AllUnderWay, MOST_TAKEN};
use crate::hub::Hub;
use command_queue::{Sender, Submitted};
use group_core::{
    AtClosing, AtDurable, AtDurableFollowed, AtFollowed, AtFollowing, AtLaid, AtLive, AtOpened,
    AtPlan, AtStable, AtStaged, AtSwitched, AtWritten, BeginError, Closing, Commit, Durable,
    DurableFollowed, FollowError, Followed, Following, Laid, Live, Opened, Plan, Prepared,
    PublishError, Redeemed, Stable, StageError, Staged, StepError, SubmitError, Switched, Ticket,
    Written,
};
use hub_claims::HubName;
use hub_readers::{HubNote, HubShow};
use hub_waits::Done;
use logged_state::LoggedState;
use path_db::Command;
use sector_dev::Device;
use std::sync::atomic::Ordering;
use std::sync::{MutexGuard, Wait};
use std::time::Clock;
use store_loops::{Awaited, DeviceCall, Steps};

/// The state of a hub, with its log.
pub(crate) type HubState<D, N, R> = LoggedState<D, HubShow<N, R>, N>;

/// What the state's lock guards.
pub(crate) struct Locked<D: Device, N: HubName, R: Wait> {
    /// The state, with its log.
    pub(crate) state: HubState<D, N, R>,
    /// What is under way of the queue.
    pub(crate) under_way: AllUnderWay<N>,
    /// Which commands of the queue were submitted.
    pub(crate) submitted: Submitted<N>,
    // The log has just these, in their order.
    ghost in_order: { state.log.commands ≡ submitted.commands },
}

/// What the state's lock guards, while the lock is held.
pub(crate) type Guarded<'a, D, N, R> = MutexGuard<'a, Locked<D, N, R>>;

impl<D: Device, N: HubName, R: Wait + Clock> Hub<D, N, R> {
    /// Takes the state's lock for a call that uses the device, and notes in the status that the
    /// call begins.
    fn begin_call(&self, call: DeviceCall) -> Guarded<'_, D, N, R> {
        let locked = self.lock_state();
        self.status.begin(&self.rt, call);
        locked
    }

    /// Takes the state's lock. Meanwhile this thread counts as one that waits for it.
    pub(crate) fn lock_state(&self) -> Guarded<'_, D, N, R> {
        self.changes.turns.begin();
        let locked = self.state.lock(&self.rt);
        self.changes.turns.take();
        locked
    }

    /// Ends a guarded call: answers the commands whose outcome is known, copies the state's numbers
    /// and what the call has completed to the status, and gives the lock up.
    #[tactic(auto, using(hub_waits::proofs::Numbers::are_of_a_state))]
    pub(crate) fn end_call(&self, mut locked: Guarded<'_, D, N, R>, done: Done) {
        self.answer_known(&mut locked);
        self.status.end(&self.rt, locked.state.numbers(), done);
        MutexGuard::unlock(locked);
        self.changes.waker.call(&self.rt);
    }

    /// Wakes all that wait, where a step found that the state must stop.
    fn wake_if_stopped<T, P>(&self, next: &Result<T, StepError<P>>) {
        if let Err(StepError::Fault | StepError::Damaged) = next {
            self.changes.announce_stop();
        }
    }

    /// Wakes all that wait, where the reading of a sealed half found that the state must stop.
    fn wake_if_refused<T>(&self, read: &Result<T, BeginError>) {
        if let Err(BeginError::Fault | BeginError::Damaged) = read {
            self.changes.announce_stop();
        }
    }
}

impl<D: Device, N: HubName, R: Wait + Clock> Steps for Hub<D, N, R> {
    ghost use Rattle.std.specs.Prelude.{◌≡◌};

    type Note = HubNote<N>;

    type Sender = Sender<N>;

    ghost tells = { λ value note. note ≡ value.place };

    // Nothing is known of a hub's state between two calls, so also not that it has stopped.
    ghost has_stopped = { λ _. Unit {0} };

    #[tactic(auto, using(store_loops::proofs::Through::taken))]
    fn submit(
        &self,
        sender: &mut Sender<N>,
        command: Command,
    ) -> Result<Ticket, (Command, SubmitError)>
        ensures command { IsTicketOrCommand command result }
        ensures sent { NotesTaken command result sender.old sender.new }
    {
        let mut locked = self.lock_state();
        self.take_commands(&mut locked, u64::MAX);
        let submitted = self.submit_now(&mut locked, sender, command);
        self.end_call(locked, Done::Nothing);
        if submitted.is_ok() {
            self.changes.announce(Awaited::Work);
        }
        submitted
    }

    #[tactic(auto, using(store_loops::proofs::Through::is_redeemed))]
    fn redeem(&self, ticket: Ticket) -> Redeemed<HubNote<N>> {
        let mut locked = self.lock_state();
        let redeemed = locked.state.redeem(ticket);
        self.end_call(locked, Done::Nothing);
        redeemed
    }

    fn halt(&self) {
        let mut locked = self.lock_state();
        locked.state.halt();
        self.end_call(locked, Done::Nothing);
        self.changes.announce_stop();
    }

    fn give_up<P: Copy>(&self, value: Commit<P>) {
        self.has_stranger.store(true, Ordering::SeqCst);
        let mut locked = self.lock_state();
        locked.state.give_up(value);
        self.end_call(locked, Done::Nothing);
        self.changes.announce_stop();
    }

    fn stage(&self) -> Result<Staged, StageError> {
        self.pause();
        let mut locked = self.lock_state();
        self.take_commands(&mut locked, MOST_TAKEN);
        let staged = locked.state.stage();
        self.end_call(locked, Done::Staged.unless_refused(staged.is_ok()));
        staged
    }

    #[tactic(auto, using(store_loops::proofs::Through::flush_leads))]
    fn write_group(&self, value: Staged) -> Result<Written, StepError<AtStaged>> {
        let mut locked = self.begin_call(DeviceCall::WriteGroup);
        let next = locked.state.write_group(value);
        self.end_call(locked, Done::Nothing);
        self.wake_if_stopped(&next);
        next
    }

    #[tactic(auto, using(store_loops::proofs::Through::flush_leads))]
    fn sync_group(&self, value: Written) -> Result<Stable, StepError<AtWritten>> {
        let mut locked = self.begin_call(DeviceCall::SyncGroup);
        let next = locked.state.sync_group(value);
        self.end_call(locked, Done::Nothing);
        self.wake_if_stopped(&next);
        next
    }

    #[tactic(auto, using(store_loops::proofs::Through::flush_leads))]
    fn open_gate(&self, value: Stable) -> Result<Opened, StepError<AtStable>> {
        let mut locked = self.begin_call(DeviceCall::OpenGate);
        let next = locked.state.open_gate(value);
        self.end_call(locked, Done::Nothing);
        self.wake_if_stopped(&next);
        next
    }

    #[tactic(auto, using(store_loops::proofs::Through::flush_leads))]
    fn sync_gate(&self, value: Opened) -> Result<Durable, StepError<AtOpened>> {
        let mut locked = self.begin_call(DeviceCall::SyncGate);
        let next = locked.state.sync_gate(value);
        self.note_sync();
        self.end_call(locked, Done::Nothing);
        self.wake_if_stopped(&next);
        next
    }

    #[tactic(auto, using(store_loops::proofs::Through::handed_in))]
    fn publish(&self, value: Durable) -> Result<(), PublishError<AtDurable>> {
        let mut locked = self.lock_state();
        let from = locked.state.place();
        let published = locked.state.publish(value);
        let to = locked.state.place();
        let sealed = locked.state.is_sealed();
        let done = Done::published(from, to).unless_refused(published.is_ok());
        self.changes.pause.note_answered(to.saturating_sub(from));
        self.end_call(locked, done);
        if sealed {
            self.changes.announce(Awaited::Seal);
        }
        published
    }

    #[tactic(auto, using(store_loops::proofs::Through::followed_or_back))]
    fn follow(&self, value: Opened) -> Result<Following, (Opened, FollowError)> {
        self.pause_to_follow();
        let mut locked = self.lock_state();
        self.take_commands(&mut locked, 2 * MOST_TAKEN);
        let next = locked.state.follow(value);
        self.end_call(locked, Done::Followed.unless_refused(next.is_ok()));
        next
    }

    #[tactic(auto, using(store_loops::proofs::Through::flush_leads))]
    fn write_following(&self, value: Following) -> Result<Followed, StepError<AtFollowing>> {
        let mut locked = self.begin_call(DeviceCall::WriteFollowing);
        let next = locked.state.write_following(value);
        self.end_call(locked, Done::Nothing);
        self.wake_if_stopped(&next);
        next
    }

    #[tactic(auto, using(store_loops::proofs::Through::flush_leads))]
    fn sync_followed(&self, value: Followed) -> Result<DurableFollowed, StepError<AtFollowed>> {
        let mut locked = self.begin_call(DeviceCall::SyncFollowed);
        let next = locked.state.sync_followed(value);
        self.note_sync();
        self.end_call(locked, Done::Nothing);
        self.wake_if_stopped(&next);
        next
    }

    #[tactic(auto, using(store_loops::proofs::Through::passed_on))]
    fn publish_followed(
        &self,
        value: DurableFollowed,
    ) -> Result<Stable, PublishError<AtDurableFollowed>> {
        let mut locked = self.lock_state();
        let from = locked.state.place();
        let published = locked.state.publish_followed(value);
        let to = locked.state.place();
        let done = Done::published(from, to).unless_refused(published.is_ok());
        self.changes.pause.note_answered(to.saturating_sub(from));
        self.end_call(locked, done);
        published
    }

    fn prepare(&self) -> Result<Prepared, BeginError> {
        let mut locked = self.begin_call(DeviceCall::Begin);
        let prepared = locked.state.prepare();
        self.end_call(locked, Done::Nothing);
        self.wake_if_refused(&prepared);
        if let Ok(Prepared::Part) = prepared {
            self.changes.turns.leave(&self.rt);
        }
        prepared
    }

    fn begin(&self) -> Result<Plan, BeginError> {
        let mut locked = self.begin_call(DeviceCall::Begin);
        let begun = locked.state.begin();
        self.end_call(locked, Done::Nothing);
        self.wake_if_refused(&begun);
        begun
    }

    #[tactic(auto, using(store_loops::proofs::Through::chunk_leads))]
    fn write_chunk(&self, value: Plan) -> Result<Plan, StepError<AtPlan>> {
        let mut locked = self.begin_call(DeviceCall::WriteChunk);
        let next = locked.state.write_chunk(value);
        self.end_call(locked, Done::Nothing);
        self.wake_if_stopped(&next);
        self.changes.turns.leave(&self.rt);
        next
    }

    #[tactic(auto, using(store_loops::proofs::Through::chunks_lead))]
    fn sync_chunks(&self, value: Plan) -> Result<Laid, StepError<AtPlan>> {
        let mut locked = self.begin_call(DeviceCall::SyncChunks);
        let next = locked.state.sync_chunks(value);
        self.end_call(locked, Done::Nothing);
        self.wake_if_stopped(&next);
        next
    }

    #[tactic(auto, using(store_loops::proofs::Through::gate_leads))]
    fn open_half(&self, value: Laid) -> Result<Switched, StepError<AtLaid>> {
        let mut locked = self.begin_call(DeviceCall::OpenHalf);
        let next = locked.state.open_half(value);
        self.end_call(locked, Done::Nothing);
        self.wake_if_stopped(&next);
        next
    }

    #[tactic(auto, using(store_loops::proofs::Through::half_leads))]
    fn sync_half(&self, value: Switched) -> Result<Live, StepError<AtSwitched>> {
        let mut locked = self.begin_call(DeviceCall::SyncHalf);
        let next = locked.state.sync_half(value);
        self.end_call(locked, Done::Nothing);
        self.wake_if_stopped(&next);
        next
    }

    #[tactic(auto, using(store_loops::proofs::Through::gate_leads))]
    fn close_half(&self, value: Live) -> Result<Closing, StepError<AtLive>> {
        let mut locked = self.begin_call(DeviceCall::CloseHalf);
        let next = locked.state.close_half(value);
        self.end_call(locked, Done::Nothing);
        self.wake_if_stopped(&next);
        next
    }

    #[tactic(auto, using(store_loops::proofs::Through::close_leads))]
    fn sync_close(&self, value: Closing) -> Result<(), StepError<AtClosing>> {
        let mut locked = self.begin_call(DeviceCall::SyncClose);
        let closed = locked.state.sync_close(value);
        self.end_call(locked, Done::Checkpoint.unless_refused(closed.is_ok()));
        if closed.is_ok() {
            self.changes.announce(Awaited::Work);
        }
        self.wake_if_stopped(&closed);
        closed
    }

    fn changes(&self, awaited: Awaited) -> u64 {
        self.changes.count(awaited)
    }

    fn rest(&self, awaited: Awaited, seen: u64) {
        let most = self.longest_rest();
        self.changes.rest_for(&self.rt, awaited, seen, most);
    }
}
