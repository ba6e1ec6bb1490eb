//! The events of a run, and the replies to them.

use group_core::{BeginError, FollowError, Prepared, StageError, SubmitError};
use path_db::{Command, Outcome};
use seg_core::Segment;
use seg_lookup::Query;

/// One call of a state, or a lookup.
#[derive(Drop)]
pub enum Event {
    /// Submits a command.
    Submit(Command),
    /// Stages a group or a seal.
    Stage,
    /// Writes the staged group or seal.
    WriteGroup,
    /// Syncs the write.
    SyncGroup,
    /// Writes the tail's gate open.
    OpenGate,
    /// Syncs the gate.
    SyncGate,
    /// Publishes the durable group or seal.
    Publish,
    /// Stages a group to follow the group in flight.
    Follow,
    /// Writes the following group.
    WriteFollowing,
    /// Syncs the gate and the following group.
    SyncFollowed,
    /// Publishes the durable group in flight, which another group follows.
    PublishFollowed,
    /// Redeems the ticket of the k-th command that this run accepted, counted from 0.
    Redeem(usize),
    /// Prepares a checkpoint: reads the next piece of the sealed half.
    Prepare,
    /// Begins a checkpoint.
    Begin,
    /// Writes the next sectors of the checkpoint.
    WriteChunk,
    /// Syncs the sectors of the checkpoint.
    SyncChunks,
    /// Writes the new half's gate open.
    OpenHalf,
    /// Syncs the new half's gate.
    SyncHalf,
    /// Writes the old half's gates closed.
    CloseHalf,
    /// Syncs the old half's gates.
    SyncClose,
    /// Looks up the segments that a query shows at a moment, in half seconds since 1970.
    Lookup(Query, u64),
    /// Stops the state.
    Halt,
}

/// Why a step with a value was refused.
#[derive(Clone, Copy, Debug, PartialEq, Eq)]
pub enum StepRefusal {
    /// A call of the device failed.
    Fault = 1,
    /// The state had stopped.
    Stopped = 2,
    /// The value is not the one whose turn it is.
    Stranger = 3,
    /// Memory was refused.
    NoMemory = 4,
    /// A sector of the old half's area has another sum than when the checkpoint was begun.
    Damaged = 5,
}

/// Why publishing was refused.
#[derive(Clone, Copy, Debug, PartialEq, Eq)]
pub enum PublishRefusal {
    /// Memory was refused. The same group can be published again.
    NoMemory = 1,
    /// The value is not the one whose turn it is.
    Stranger = 2,
}

/// The reply to an event.
#[derive(Drop)]
pub enum Reply {
    /// The command was accepted, and has this place.
    Accepted(u64),
    /// The command was refused.
    Refused(SubmitError),
    /// The step was made.
    Done,
    /// Nothing was staged.
    StageRefused(StageError),
    /// No group follows.
    FollowRefused(FollowError),
    /// This much of the sealed half is read.
    Prepared(Prepared),
    /// No checkpoint was begun, or prepared.
    BeginRefused(BeginError),
    /// A step with a value was refused.
    StepRefused(StepRefusal),
    /// Nothing was published.
    PublishRefused(PublishRefusal),
    /// The command of this place is committed, with this outcome.
    Committed(u64, Outcome),
    /// The command of this place is not committed yet.
    Waiting(u64),
    /// The state has stopped before the command of this place was committed.
    Unknown(u64),
    /// The segments that a lookup shows.
    Answer(Vec<Segment>),
    /// Memory was refused for a lookup.
    AnswerRefused,
    /// The run has no ticket or value of the kind that the event takes, or a plan in another state
    /// than the call needs: nothing changes.
    NoValue,
}
