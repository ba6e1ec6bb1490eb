//! The flusher's events of a run with a group that follows the group in flight.

ghost use Rattle.group_phases.specs.declared.phases.Flush.TheVariants.{Following as following, Followed as followed, DurableFollowed as durable_followed};
ghost use Rattle.group_core.specs.Stops.{StepLeaves};
ghost use Rattle.group_recovery.specs.Holding.{HoldsGroup};
ghost use Rattle.group_recovery.specs.RunSteps.{FlushEvent, FollowEvent, PublishFollowedEvent};

use crate::events::{PublishRefusal, Reply};
use crate::group_events::refusal;
use crate::holding::HeldGroup;
use group_core::{PublishError, Showcase, State};
use sector_dev::Device;
use std::mem;

/// Stages a group to follow the group in flight.
pub(crate) fn follow<D: Device, S: Showcase>(held: &mut HeldGroup, state: &mut State<D, S>) -> Reply
    requires held { HoldsGroup held.old state.old }
    ensures held { HoldsGroup held.new state.new }
    ensures step { FollowEvent result state.old state.new }
    ensures any_moment { StepLeaves state.old state.new }
{
    match mem::replace(held, HeldGroup::None) {
        HeldGroup::Opened(value) => match state.follow(value) {
            Ok(next) => {
                held.put(HeldGroup::Following(next));
                Reply::Done
            }
            Err((back, refused)) => {
                held.put(HeldGroup::Opened(back));
                Reply::FollowRefused(refused)
            }
        },
        other => {
            held.put(other);
            state.stops_leave_fronts();
            Reply::NoValue
        }
    }
}

/// Writes the following group.
pub(crate) fn write_following<D: Device, S: Showcase>(
    held: &mut HeldGroup,
    state: &mut State<D, S>,
) -> Reply
    requires held { HoldsGroup held.old state.old }
    ensures held { HoldsGroup held.new state.new }
    ensures step { FlushEvent following followed following result state.old state.new }
    ensures any_moment { StepLeaves state.old state.new }
{
    match mem::replace(held, HeldGroup::None) {
        HeldGroup::Following(value) => match state.write_following(value) {
            Ok(next) => {
                held.put(HeldGroup::Followed(next));
                Reply::Done
            }
            Err(refused) => refusal(refused),
        },
        other => {
            held.put(other);
            state.stops_leave_fronts();
            Reply::NoValue
        }
    }
}

/// Syncs the gate and the following group.
pub(crate) fn sync_followed<D: Device, S: Showcase>(
    held: &mut HeldGroup,
    state: &mut State<D, S>,
) -> Reply
    requires held { HoldsGroup held.old state.old }
    ensures held { HoldsGroup held.new state.new }
    ensures step { FlushEvent followed durable_followed followed result state.old state.new }
    ensures any_moment { StepLeaves state.old state.new }
{
    match mem::replace(held, HeldGroup::None) {
        HeldGroup::Followed(value) => match state.sync_followed(value) {
            Ok(next) => {
                held.put(HeldGroup::DurableFollowed(next));
                Reply::Done
            }
            Err(refused) => refusal(refused),
        },
        other => {
            held.put(other);
            state.stops_leave_fronts();
            Reply::NoValue
        }
    }
}

/// Publishes the durable group in flight. The following group is in flight after that.
pub(crate) fn publish_followed<D: Device, S: Showcase>(
    held: &mut HeldGroup,
    state: &mut State<D, S>,
) -> Reply
    requires held { HoldsGroup held.old state.old }
    ensures held { HoldsGroup held.new state.new }
    ensures step { PublishFollowedEvent result state.old state.new }
    ensures any_moment { StepLeaves state.old state.new }
{
    match mem::replace(held, HeldGroup::None) {
        HeldGroup::DurableFollowed(value) => match state.publish_followed(value) {
            Ok(next) => {
                held.put(HeldGroup::Stable(next));
                Reply::Done
            }
            Err(PublishError::NoMemory(back)) => {
                held.put(HeldGroup::DurableFollowed(back));
                Reply::PublishRefused(PublishRefusal::NoMemory)
            }
            Err(PublishError::Stranger(back)) => {
                held.put(HeldGroup::DurableFollowed(back));
                Reply::PublishRefused(PublishRefusal::Stranger)
            }
        },
        other => {
            held.put(other);
            state.stops_leave_fronts();
            Reply::NoValue
        }
    }
}
