//! A state that several threads may work on, and that stops before one of its calls.

use crate::stores::opened;
use group_core::{
    AtClosing, AtDurable, AtDurableFollowed, AtFollowed, AtFollowing, AtLaid, AtLive, AtOpened,
    AtPlan, AtStable, AtStaged, AtSwitched, AtWritten, BeginError, Closing, Commit, Durable,
    DurableFollowed, FollowError, Followed, Following, Laid, Live, Opened, PlainShow, Plan,
    Prepared, PublishError, Redeemed, Stable, StageError, Staged, State, StepError, SubmitError,
    Switched, Ticket, Written,
};
use path_db::Command;
use path_hub::{Awaited, Steps};
use sector_dev::MemDevice;
use std::alloc::Global;
use std::mem::swap;
use std::sync::atomic::{AtomicU64, Ordering};
use std::sync::{Mutex, MutexGuard, Wait};
pub use test_group_scripts::work::state_of;
use test_support::{TestHost, assert_true};

/// More calls, and more rests, than are made of a state here: with more the test ends.
const MANY: u64 = 10_000;

/// A state that stops before the call of a number, counted from 1, or is exchanged for another one
/// there; a rest is no call, and ends at once.
pub struct Fake<R: Wait + TestHost> {
    rt: R,
    state: Mutex<State<MemDevice, PlainShow>>,
    /// The state that its own one is exchanged for.
    other: Mutex<Option<State<MemDevice, PlainShow>>>,
    calls: AtomicU64,
    rests: AtomicU64,
    last: AtomicU64,
    exchanged: AtomicU64,
    strangers: AtomicU64,
}

impl<R: Wait + TestHost> Fake<R> {
    /// One over a device, which does not stop yet.
    pub fn new(rt: R, alloc: Global, device: MemDevice) -> Fake<R> {
        let state = state_of(&rt, alloc, opened(&rt, alloc, device), 1);
        Fake::over(rt, state, None)
    }

    /// The same, with a second state over another device. What either state gives is a stranger to
    /// the other one.
    pub fn with_other(rt: R, alloc: Global, device: MemDevice, other: MemDevice) -> Fake<R> {
        let state = state_of(&rt, alloc, opened(&rt, alloc, device), 1);
        let other = state_of(&rt, alloc, opened(&rt, alloc, other), 2);
        Fake::over(rt, state, Some(other))
    }

    fn over(
        rt: R,
        state: State<MemDevice, PlainShow>,
        other: Option<State<MemDevice, PlainShow>>,
    ) -> Fake<R> {
        Fake {
            rt,
            state: Mutex::new(state),
            other: Mutex::new(other),
            calls: AtomicU64::new(0),
            rests: AtomicU64::new(0),
            last: AtomicU64::new(0),
            exchanged: AtomicU64::new(0),
            strangers: AtomicU64::new(0),
        }
    }

    /// Has it stop before the call of this number, the next one being number 1.
    pub fn stop_before(&self, number: u64) {
        self.calls.store(0, Ordering::SeqCst);
        self.last.store(number, Ordering::SeqCst);
    }

    /// Has its two states exchanged before the call of this number, the next one being number 1.
    pub fn exchange_before(&self, number: u64) {
        self.calls.store(0, Ordering::SeqCst);
        self.exchanged.store(number, Ordering::SeqCst);
    }

    /// How many calls there were.
    pub fn calls(&self) -> u64 {
        self.calls.load(Ordering::SeqCst)
    }

    /// How many strangers were given up.
    pub fn strangers(&self) -> u64 {
        self.strangers.load(Ordering::SeqCst)
    }

    /// Its device, where all tickets are redeemed and no value is out.
    pub fn into_device(self) -> MemDevice
    where
        R: Drop,
    {
        let Fake {
            rt,
            state,
            other,
            calls: _calls,
            rests: _rests,
            last: _last,
            exchanged: _exchanged,
            strangers: _strangers,
        } = self;
        if let Some(other) = other.into_inner() {
            let _parts = other.into_parts();
        }
        match state.into_inner().into_device() {
            Ok(device) => device,
            Err(_state) => rt.fail("something is kept"),
        }
    }

    /// Ends both states, whatever is kept or out.
    pub fn end(self)
    where
        R: Drop,
    {
        let Fake {
            rt: _rt,
            state,
            other,
            calls: _calls,
            rests: _rests,
            last: _last,
            exchanged: _exchanged,
            strangers: _strangers,
        } = self;
        let _parts = state.into_inner().into_parts();
        if let Some(other) = other.into_inner() {
            let _parts = other.into_parts();
        }
    }

    /// The state, for one call.
    fn turn(&self) -> MutexGuard<'_, State<MemDevice, PlainShow>> {
        let number = self.calls.fetch_add(1, Ordering::SeqCst).wrapping_add(1);
        assert_true(&self.rt, number < MANY, "a loop makes fewer calls");
        let mut state = self.state.lock(&self.rt);
        if number == self.last.load(Ordering::SeqCst) {
            state.halt();
        }
        if number == self.exchanged.load(Ordering::SeqCst) {
            if let Some(other) = &mut *self.other.lock(&self.rt) {
                swap(&mut *state, other);
            }
        }
        state
    }
}

impl<R: Wait + TestHost> Steps for Fake<R> {
    type Note = ();

    type Sender = ();

    ghost tells = { λ _ _. Unit {0} };

    ghost has_stopped = { λ _. Unit {0} };

    #[tactic(auto, using(store_loops::proofs::Through::taken))]
    fn submit(&self, _sender: &mut (), command: Command) -> Result<Ticket, (Command, SubmitError)> {
        let mut state = self.turn();
        let submitted = state.submit(command);
        MutexGuard::unlock(state);
        submitted
    }

    #[tactic(auto, using(store_loops::proofs::Through::is_redeemed))]
    fn redeem(&self, ticket: Ticket) -> Redeemed<()> {
        let mut state = self.turn();
        let redeemed = state.redeem(ticket);
        MutexGuard::unlock(state);
        redeemed
    }

    fn halt(&self) {
        let mut state = self.turn();
        state.halt();
        MutexGuard::unlock(state);
    }

    fn give_up<P: Copy>(&self, value: Commit<P>) {
        self.strangers.fetch_add(1, Ordering::SeqCst);
        let mut state = self.turn();
        state.give_up(value);
        MutexGuard::unlock(state);
    }

    fn stage(&self) -> Result<Staged, StageError> {
        let mut state = self.turn();
        let staged = state.stage();
        MutexGuard::unlock(state);
        staged
    }

    #[tactic(auto, using(store_loops::proofs::Through::flush_leads))]
    fn write_group(&self, value: Staged) -> Result<Written, StepError<AtStaged>> {
        let mut state = self.turn();
        let next = state.write_group(value);
        MutexGuard::unlock(state);
        next
    }

    #[tactic(auto, using(store_loops::proofs::Through::flush_leads))]
    fn sync_group(&self, value: Written) -> Result<Stable, StepError<AtWritten>> {
        let mut state = self.turn();
        let next = state.sync_group(value);
        MutexGuard::unlock(state);
        next
    }

    #[tactic(auto, using(store_loops::proofs::Through::flush_leads))]
    fn open_gate(&self, value: Stable) -> Result<Opened, StepError<AtStable>> {
        let mut state = self.turn();
        let next = state.open_gate(value);
        MutexGuard::unlock(state);
        next
    }

    #[tactic(auto, using(store_loops::proofs::Through::flush_leads))]
    fn sync_gate(&self, value: Opened) -> Result<Durable, StepError<AtOpened>> {
        let mut state = self.turn();
        let next = state.sync_gate(value);
        MutexGuard::unlock(state);
        next
    }

    #[tactic(auto, using(store_loops::proofs::Through::handed_in))]
    fn publish(&self, value: Durable) -> Result<(), PublishError<AtDurable>> {
        let mut state = self.turn();
        let published = state.publish(value);
        MutexGuard::unlock(state);
        published
    }

    #[tactic(auto, using(store_loops::proofs::Through::followed_or_back))]
    fn follow(&self, value: Opened) -> Result<Following, (Opened, FollowError)> {
        let mut state = self.turn();
        let next = state.follow(value);
        MutexGuard::unlock(state);
        next
    }

    #[tactic(auto, using(store_loops::proofs::Through::flush_leads))]
    fn write_following(&self, value: Following) -> Result<Followed, StepError<AtFollowing>> {
        let mut state = self.turn();
        let next = state.write_following(value);
        MutexGuard::unlock(state);
        next
    }

    #[tactic(auto, using(store_loops::proofs::Through::flush_leads))]
    fn sync_followed(&self, value: Followed) -> Result<DurableFollowed, StepError<AtFollowed>> {
        let mut state = self.turn();
        let next = state.sync_followed(value);
        MutexGuard::unlock(state);
        next
    }

    #[tactic(auto, using(store_loops::proofs::Through::passed_on))]
    fn publish_followed(
        &self,
        value: DurableFollowed,
    ) -> Result<Stable, PublishError<AtDurableFollowed>> {
        let mut state = self.turn();
        let published = state.publish_followed(value);
        MutexGuard::unlock(state);
        published
    }

    fn prepare(&self) -> Result<Prepared, BeginError> {
        let mut state = self.turn();
        let prepared = state.prepare();
        MutexGuard::unlock(state);
        prepared
    }

    fn begin(&self) -> Result<Plan, BeginError> {
        let mut state = self.turn();
        let begun = state.begin();
        MutexGuard::unlock(state);
        begun
    }

    #[tactic(auto, using(store_loops::proofs::Through::chunk_leads))]
    fn write_chunk(&self, value: Plan) -> Result<Plan, StepError<AtPlan>> {
        let mut state = self.turn();
        let next = state.write_chunk(value);
        MutexGuard::unlock(state);
        next
    }

    #[tactic(auto, using(store_loops::proofs::Through::chunks_lead))]
    fn sync_chunks(&self, value: Plan) -> Result<Laid, StepError<AtPlan>> {
        let mut state = self.turn();
        let next = state.sync_chunks(value);
        MutexGuard::unlock(state);
        next
    }

    #[tactic(auto, using(store_loops::proofs::Through::gate_leads))]
    fn open_half(&self, value: Laid) -> Result<Switched, StepError<AtLaid>> {
        let mut state = self.turn();
        let next = state.open_half(value);
        MutexGuard::unlock(state);
        next
    }

    #[tactic(auto, using(store_loops::proofs::Through::half_leads))]
    fn sync_half(&self, value: Switched) -> Result<Live, StepError<AtSwitched>> {
        let mut state = self.turn();
        let next = state.sync_half(value);
        MutexGuard::unlock(state);
        next
    }

    #[tactic(auto, using(store_loops::proofs::Through::gate_leads))]
    fn close_half(&self, value: Live) -> Result<Closing, StepError<AtLive>> {
        let mut state = self.turn();
        let next = state.close_half(value);
        MutexGuard::unlock(state);
        next
    }

    #[tactic(auto, using(store_loops::proofs::Through::close_leads))]
    fn sync_close(&self, value: Closing) -> Result<(), StepError<AtClosing>> {
        let mut state = self.turn();
        let done = state.sync_close(value);
        MutexGuard::unlock(state);
        done
    }

    fn changes(&self, _awaited: Awaited) -> u64 {
        0
    }

    fn rest(&self, _awaited: Awaited, _seen: u64) {
        let number = self.rests.fetch_add(1, Ordering::SeqCst);
        assert_true(&self.rt, number < MANY, "a loop makes fewer rests");
    }
}
