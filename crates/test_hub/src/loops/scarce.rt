//! A state that refuses some of its calls.

use group_core::{
    AtClosing, AtDurable, AtDurableFollowed, AtFollowed, AtFollowing, AtLaid, AtLive, AtOpened,
    AtPlan, AtStable, AtStaged, AtSwitched, AtWritten, BeginError, Closing, Commit, Durable,
    DurableFollowed, FollowError, Followed, Following, Laid, Live, Opened, Plan, Prepared,
    PublishError, Redeemed, Stable, StageError, Staged, StepError, SubmitError, Switched, Ticket,
    Written,
};
use path_db::Command;
use path_hub::{Awaited, Steps};
use std::sync::atomic::{AtomicU64, Ordering};

/// What a state refuses. Each number counts the next calls of a kind that are refused memory.
#[derive(Clone, Copy)]
pub struct Refusals {
    pub stagings: u64,
    pub publishings: u64,
    pub preparations: u64,
    pub beginnings: u64,
    /// Which call finds the sealed half damaged.
    pub damage: Damage,
}

/// Which call finds the sealed half damaged.
#[derive(Clone, Copy, PartialEq, Eq)]
pub enum Damage {
    /// None does.
    Never,
    /// The one that begins a checkpoint.
    Begin,
    /// The one that writes a chunk of it.
    Chunk,
}

/// Nothing is refused.
pub const NONE: Refusals = Refusals {
    stagings: 0,
    publishings: 0,
    preparations: 0,
    beginnings: 0,
    damage: Damage::Never,
};

/// A state, with what more it refuses.
#[derive(Drop)]
pub struct Scarce<'a, S> {
    steps: &'a S,
    stagings: AtomicU64,
    publishings: AtomicU64,
    preparations: AtomicU64,
    beginnings: AtomicU64,
    damage: Damage,
}

impl<'a, S: Steps> Scarce<'a, S> {
    /// A state that refuses this.
    pub fn new(steps: &'a S, refusals: Refusals) -> Scarce<'a, S> {
        Scarce {
            steps,
            stagings: AtomicU64::new(refusals.stagings),
            publishings: AtomicU64::new(refusals.publishings),
            preparations: AtomicU64::new(refusals.preparations),
            beginnings: AtomicU64::new(refusals.beginnings),
            damage: refusals.damage,
        }
    }
}

/// Whether a call is refused memory, of which this number of calls more are.
fn is_refused(more: &AtomicU64) -> bool {
    let count = more.load(Ordering::SeqCst);
    more.store(count.saturating_sub(1), Ordering::SeqCst);
    count > 0
}

impl<S: Steps> Steps for Scarce<'_, S> {
    type Note = S::Note;

    type Sender = S::Sender;

    ghost tells = { S.tells };

    ghost has_stopped = { λ _. Unit {0} };

    fn submit(
        &self,
        sender: &mut S::Sender,
        command: Command,
    ) -> Result<Ticket, (Command, SubmitError)> {
        self.steps.submit(sender, command)
    }

    fn redeem(&self, ticket: Ticket) -> Redeemed<S::Note> {
        self.steps.redeem(ticket)
    }

    fn halt(&self) {
        self.steps.halt();
    }

    fn give_up<P: Copy>(&self, value: Commit<P>) {
        self.steps.give_up(value);
    }

    fn stage(&self) -> Result<Staged, StageError> {
        if is_refused(&self.stagings) {
            return Err(StageError::NoMemory);
        }
        self.steps.stage()
    }

    fn write_group(&self, value: Staged) -> Result<Written, StepError<AtStaged>> {
        self.steps.write_group(value)
    }

    fn sync_group(&self, value: Written) -> Result<Stable, StepError<AtWritten>> {
        self.steps.sync_group(value)
    }

    fn open_gate(&self, value: Stable) -> Result<Opened, StepError<AtStable>> {
        self.steps.open_gate(value)
    }

    fn sync_gate(&self, value: Opened) -> Result<Durable, StepError<AtOpened>> {
        self.steps.sync_gate(value)
    }

    fn publish(&self, value: Durable) -> Result<(), PublishError<AtDurable>> {
        if is_refused(&self.publishings) {
            return Err(PublishError::NoMemory(value));
        }
        self.steps.publish(value)
    }

    fn follow(&self, value: Opened) -> Result<Following, (Opened, FollowError)> {
        self.steps.follow(value)
    }

    fn write_following(&self, value: Following) -> Result<Followed, StepError<AtFollowing>> {
        self.steps.write_following(value)
    }

    fn sync_followed(&self, value: Followed) -> Result<DurableFollowed, StepError<AtFollowed>> {
        self.steps.sync_followed(value)
    }

    fn publish_followed(
        &self,
        value: DurableFollowed,
    ) -> Result<Stable, PublishError<AtDurableFollowed>> {
        if is_refused(&self.publishings) {
            return Err(PublishError::NoMemory(value));
        }
        self.steps.publish_followed(value)
    }

    fn prepare(&self) -> Result<Prepared, BeginError> {
        if is_refused(&self.preparations) {
            return Err(BeginError::NoMemory);
        }
        self.steps.prepare()
    }

    fn begin(&self) -> Result<Plan, BeginError> {
        if is_refused(&self.beginnings) {
            return Err(BeginError::NoMemory);
        }
        let begun = self.steps.begin();
        match begun {
            Ok(plan) if self.damage == Damage::Begin => {
                self.steps.give_up(plan);
                Err(BeginError::Damaged)
            }
            _ => begun,
        }
    }

    fn write_chunk(&self, value: Plan) -> Result<Plan, StepError<AtPlan>> {
        if self.damage == Damage::Chunk {
            self.steps.give_up(value);
            return Err(StepError::Damaged);
        }
        self.steps.write_chunk(value)
    }

    fn sync_chunks(&self, value: Plan) -> Result<Laid, StepError<AtPlan>> {
        self.steps.sync_chunks(value)
    }

    fn open_half(&self, value: Laid) -> Result<Switched, StepError<AtLaid>> {
        self.steps.open_half(value)
    }

    fn sync_half(&self, value: Switched) -> Result<Live, StepError<AtSwitched>> {
        self.steps.sync_half(value)
    }

    fn close_half(&self, value: Live) -> Result<Closing, StepError<AtLive>> {
        self.steps.close_half(value)
    }

    fn sync_close(&self, value: Closing) -> Result<(), StepError<AtClosing>> {
        self.steps.sync_close(value)
    }

    fn changes(&self, awaited: Awaited) -> u64 {
        self.steps.changes(awaited)
    }

    fn rest(&self, awaited: Awaited, seen: u64) {
        self.steps.rest(awaited, seen);
    }
}
