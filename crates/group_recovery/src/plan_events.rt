//! The checkpointer's events of a run.

ghost use Rattle.std.specs.Prelude.{true};
ghost use Rattle.group_phases.specs.declared.phases.Check.TheVariants.{Planned as planned, Laid as laid, Switched as switched};
ghost use Rattle.group_phases.specs.declared.phases.Check.TheVariants.{SwitchFailed as switch_failed, Live as live};
ghost use Rattle.group_phases.specs.declared.phases.Check.TheVariants.{Closing as closing, CloseFailed as close_failed};
ghost use Rattle.group_core.specs.Stops.{StepLeaves};
ghost use Rattle.group_core.specs.Steps.{at_phase, half_counts, half_ready};
ghost use Rattle.group_recovery.specs.Holding.{HoldsPlan};
ghost use Rattle.group_recovery.specs.RunSteps.{PrepareEvent, BeginEvent, CheckEvent, ChunkEvent, IsPlanOutAt, IsPlanOut};

use crate::events::Reply;
use crate::group_events::refusal;
use crate::holding::HeldPlan;
use group_core::{Showcase, State};
use sector_dev::Device;
use std::mem;

/// Prepares a checkpoint.
pub(crate) fn prepare<D: Device, S: Showcase>(state: &mut State<D, S>) -> Reply
    ensures step { PrepareEvent result state.old state.new }
    ensures any_moment { StepLeaves state.old state.new }
{
    match state.prepare() {
        Ok(prepared) => Reply::Prepared(prepared),
        Err(refused) => Reply::BeginRefused(refused),
    }
}

/// Begins a checkpoint.
pub(crate) fn begin<D: Device, S: Showcase>(held: &mut HeldPlan, state: &mut State<D, S>) -> Reply
    requires held { HoldsPlan held.old state.old }
    ensures held { HoldsPlan held.new state.new }
    ensures step { BeginEvent result state.old state.new }
    ensures any_moment { StepLeaves state.old state.new }
{
    match state.begin() {
        Ok(plan) => {
            held.put(HeldPlan::Plan(plan));
            Reply::Done
        }
        Err(refused) => Reply::BeginRefused(refused),
    }
}

/// Writes the next sectors of the new checkpoint.
pub(crate) fn write_chunk<D: Device, S: Showcase>(
    held: &mut HeldPlan,
    state: &mut State<D, S>,
) -> Reply
    requires held { HoldsPlan held.old state.old }
    ensures held { HoldsPlan held.new state.new }
    ensures step { ChunkEvent result state.old state.new }
    ensures any_moment { StepLeaves state.old state.new }
{
    match mem::replace(held, HeldPlan::None) {
        HeldPlan::Plan(value) => {
            if value.is_done() {
                held.put(HeldPlan::Plan(value));
                state.stops_leave_fronts();
                return Reply::NoValue;
            }
            match state.write_chunk(value) {
                Ok(next) => {
                    held.put(HeldPlan::Plan(next));
                    Reply::Done
                }
                Err(refused) => refusal(refused),
            }
        }
        other => {
            held.put(other);
            state.stops_leave_fronts();
            Reply::NoValue
        }
    }
}

/// Syncs the new checkpoint.
pub(crate) fn sync_chunks<D: Device, S: Showcase>(
    held: &mut HeldPlan,
    state: &mut State<D, S>,
) -> Reply
    requires held { HoldsPlan held.old state.old }
    ensures held { HoldsPlan held.new state.new }
    ensures step { CheckEvent (IsPlanOut true state.old) (at_phase laid state.old) planned result state.old state.new }
    ensures any_moment { StepLeaves state.old state.new }
{
    match mem::replace(held, HeldPlan::None) {
        HeldPlan::Plan(value) => {
            if !value.is_done() {
                held.put(HeldPlan::Plan(value));
                state.stops_leave_fronts();
                return Reply::NoValue;
            }
            match state.sync_chunks(value) {
                Ok(next) => {
                    held.put(HeldPlan::Laid(next));
                    Reply::Done
                }
                Err(refused) => refusal(refused),
            }
        }
        other => {
            held.put(other);
            state.stops_leave_fronts();
            Reply::NoValue
        }
    }
}

/// Writes the new half's gate open.
pub(crate) fn open_half<D: Device, S: Showcase>(
    held: &mut HeldPlan,
    state: &mut State<D, S>,
) -> Reply
    requires held { HoldsPlan held.old state.old }
    ensures held { HoldsPlan held.new state.new }
    ensures step { CheckEvent (IsPlanOutAt laid state.old) (at_phase switched state.old) switch_failed result state.old state.new }
    ensures any_moment { StepLeaves state.old state.new }
{
    match mem::replace(held, HeldPlan::None) {
        HeldPlan::Laid(value) => match state.open_half(value) {
            Ok(next) => {
                held.put(HeldPlan::Switched(next));
                Reply::Done
            }
            Err(refused) => refusal(refused),
        },
        other => {
            held.put(other);
            state.stops_leave_fronts();
            Reply::NoValue
        }
    }
}

/// Syncs the new half's gate.
pub(crate) fn sync_half<D: Device, S: Showcase>(
    held: &mut HeldPlan,
    state: &mut State<D, S>,
) -> Reply
    requires held { HoldsPlan held.old state.old }
    ensures held { HoldsPlan held.new state.new }
    ensures step { CheckEvent (IsPlanOutAt switched state.old) (half_counts state.old) switched result state.old state.new }
    ensures any_moment { StepLeaves state.old state.new }
{
    match mem::replace(held, HeldPlan::None) {
        HeldPlan::Switched(value) => match state.sync_half(value) {
            Ok(next) => {
                held.put(HeldPlan::Live(next));
                Reply::Done
            }
            Err(refused) => refusal(refused),
        },
        other => {
            held.put(other);
            state.stops_leave_fronts();
            Reply::NoValue
        }
    }
}

/// Writes the old half's gates closed.
pub(crate) fn close_half<D: Device, S: Showcase>(
    held: &mut HeldPlan,
    state: &mut State<D, S>,
) -> Reply
    requires held { HoldsPlan held.old state.old }
    ensures held { HoldsPlan held.new state.new }
    ensures step { CheckEvent (IsPlanOutAt live state.old) (at_phase closing state.old) close_failed result state.old state.new }
    ensures any_moment { StepLeaves state.old state.new }
{
    match mem::replace(held, HeldPlan::None) {
        HeldPlan::Live(value) => match state.close_half(value) {
            Ok(next) => {
                held.put(HeldPlan::Closing(next));
                Reply::Done
            }
            Err(refused) => refusal(refused),
        },
        other => {
            held.put(other);
            state.stops_leave_fronts();
            Reply::NoValue
        }
    }
}

/// Syncs the old half's gates.
pub(crate) fn sync_close<D: Device, S: Showcase>(
    held: &mut HeldPlan,
    state: &mut State<D, S>,
) -> Reply
    requires held { HoldsPlan held.old state.old }
    ensures held { HoldsPlan held.new state.new }
    ensures step { CheckEvent (IsPlanOutAt closing state.old) (half_ready state.old) closing result state.old state.new }
    ensures any_moment { StepLeaves state.old state.new }
{
    match mem::replace(held, HeldPlan::None) {
        HeldPlan::Closing(value) => match state.sync_close(value) {
            Ok(()) => Reply::Done,
            Err(refused) => refusal(refused),
        },
        other => {
            held.put(other);
            state.stops_leave_fronts();
            Reply::NoValue
        }
    }
}
