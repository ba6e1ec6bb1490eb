//! The flusher's events of a run.

ghost use Rattle.std.specs.Prelude.{◌≡◌};
ghost use Rattle.group_phases.specs.declared.phases.Flush.TheVariants.{Staged as staged, Written as written, Stable as stable};
ghost use Rattle.group_phases.specs.declared.phases.Flush.TheVariants.{Opened as opened, Doubtful as doubtful, Durable as durable};
ghost use Rattle.group_core.specs.Stops.{StepLeaves};
ghost use Rattle.group_recovery.specs.Holding.{HoldsGroup, SpendsValue, step_reply};
ghost use Rattle.group_recovery.specs.RunSteps.{FlushEvent, PublishEvent, StageEvent};

use crate::events::{PublishRefusal, Reply, StepRefusal};
use crate::holding::HeldGroup;
use group_core::{PublishError, Showcase, State, StepError};
use sector_dev::Device;
use std::mem;

/// The reply to a step that was refused with a run's own value.
pub(crate) fn refusal<P: Copy>(refused: StepError<P>) -> Reply
    requires own { SpendsValue refused }
    ensures { result ≡ step_reply refused }
{
    match refused {
        StepError::Fault => Reply::StepRefused(StepRefusal::Fault),
        StepError::Stopped => Reply::StepRefused(StepRefusal::Stopped),
        StepError::Stranger(_value) => unreachable!(),
        StepError::NoMemory(_value) => unreachable!(),
        StepError::Damaged => Reply::StepRefused(StepRefusal::Damaged),
    }
}

/// Stages a group or a seal.
pub(crate) fn stage<D: Device, S: Showcase>(held: &mut HeldGroup, state: &mut State<D, S>) -> Reply
    requires held { HoldsGroup held.old state.old }
    ensures held { HoldsGroup held.new state.new }
    ensures step { StageEvent result state.old state.new }
    ensures any_moment { StepLeaves state.old state.new }
{
    match state.stage() {
        Ok(value) => {
            held.put(HeldGroup::Staged(value));
            Reply::Done
        }
        Err(refused) => Reply::StageRefused(refused),
    }
}

/// Writes the staged group or seal.
pub(crate) fn write_group<D: Device, S: Showcase>(
    held: &mut HeldGroup,
    state: &mut State<D, S>,
) -> Reply
    requires held { HoldsGroup held.old state.old }
    ensures held { HoldsGroup held.new state.new }
    ensures step { FlushEvent staged written staged result state.old state.new }
    ensures any_moment { StepLeaves state.old state.new }
{
    match mem::replace(held, HeldGroup::None) {
        HeldGroup::Staged(value) => match state.write_group(value) {
            Ok(next) => {
                held.put(HeldGroup::Written(next));
                Reply::Done
            }
            Err(refused) => refusal(refused),
        },
        other => {
            held.put(other);
            state.stops_leave_fronts();
            Reply::NoValue
        }
    }
}

/// Syncs the write.
pub(crate) fn sync_group<D: Device, S: Showcase>(
    held: &mut HeldGroup,
    state: &mut State<D, S>,
) -> Reply
    requires held { HoldsGroup held.old state.old }
    ensures held { HoldsGroup held.new state.new }
    ensures step { FlushEvent written stable written result state.old state.new }
    ensures any_moment { StepLeaves state.old state.new }
{
    match mem::replace(held, HeldGroup::None) {
        HeldGroup::Written(value) => match state.sync_group(value) {
            Ok(next) => {
                held.put(HeldGroup::Stable(next));
                Reply::Done
            }
            Err(refused) => refusal(refused),
        },
        other => {
            held.put(other);
            state.stops_leave_fronts();
            Reply::NoValue
        }
    }
}

/// Writes the tail's gate open.
pub(crate) fn open_gate<D: Device, S: Showcase>(
    held: &mut HeldGroup,
    state: &mut State<D, S>,
) -> Reply
    requires held { HoldsGroup held.old state.old }
    ensures held { HoldsGroup held.new state.new }
    ensures step { FlushEvent stable opened doubtful result state.old state.new }
    ensures any_moment { StepLeaves state.old state.new }
{
    match mem::replace(held, HeldGroup::None) {
        HeldGroup::Stable(value) => match state.open_gate(value) {
            Ok(next) => {
                held.put(HeldGroup::Opened(next));
                Reply::Done
            }
            Err(refused) => refusal(refused),
        },
        other => {
            held.put(other);
            state.stops_leave_fronts();
            Reply::NoValue
        }
    }
}

/// Syncs the gate.
pub(crate) fn sync_gate<D: Device, S: Showcase>(
    held: &mut HeldGroup,
    state: &mut State<D, S>,
) -> Reply
    requires held { HoldsGroup held.old state.old }
    ensures held { HoldsGroup held.new state.new }
    ensures step { FlushEvent opened durable opened result state.old state.new }
    ensures any_moment { StepLeaves state.old state.new }
{
    match mem::replace(held, HeldGroup::None) {
        HeldGroup::Opened(value) => match state.sync_gate(value) {
            Ok(next) => {
                held.put(HeldGroup::Durable(next));
                Reply::Done
            }
            Err(refused) => refusal(refused),
        },
        other => {
            held.put(other);
            state.stops_leave_fronts();
            Reply::NoValue
        }
    }
}

/// Publishes the durable group or seal.
pub(crate) fn publish<D: Device, S: Showcase>(
    held: &mut HeldGroup,
    state: &mut State<D, S>,
) -> Reply
    requires held { HoldsGroup held.old state.old }
    ensures held { HoldsGroup held.new state.new }
    ensures step { PublishEvent result state.old state.new }
    ensures any_moment { StepLeaves state.old state.new }
{
    match mem::replace(held, HeldGroup::None) {
        HeldGroup::Durable(value) => match state.publish(value) {
            Ok(()) => Reply::Done,
            Err(PublishError::NoMemory(back)) => {
                held.put(HeldGroup::Durable(back));
                Reply::PublishRefused(PublishRefusal::NoMemory)
            }
            Err(PublishError::Stranger(back)) => {
                held.put(HeldGroup::Durable(back));
                Reply::PublishRefused(PublishRefusal::Stranger)
            }
        },
        other => {
            held.put(other);
            state.stops_leave_fronts();
            Reply::NoValue
        }
    }
}
