//! A run of a state: its events, with the values and the tickets that they return and take.

ghost use Rattle.std.specs.Prelude.{◌≡◌, ◌≤◌, length};
ghost use Rattle.group_core.specs.Stops.{StepLeaves};
ghost use Rattle.group_recovery.specs.RunSteps.{IsRunStep};
ghost use Rattle.group_recovery.specs.StartsRun.{StartsRun};
ghost use Rattle.group_recovery.specs.Winding.{HandsOutDevice};

use crate::events::{Event, Reply};
use crate::follow_events::{follow, publish_followed, sync_followed, write_following};
use crate::group_events::{open_gate, publish, stage, sync_gate, sync_group, write_group};
use crate::holding::{HeldGroup, HeldPlan};
use crate::plan_events::{
    begin, close_half, open_half, prepare, sync_chunks, sync_close, sync_half, write_chunk,
};
use crate::ticket_events::{end_all, redeem, submit};
use group_core::{PlainShow, State, Ticket};
use sector_dev::Device;
use std::alloc::Global;
use std::marker::Model;

/// A state, with the tickets of the commands that it accepted here and the commit values that are
/// out.
pub struct Run<D: Device> {
    state: State<D, PlainShow>,
    tickets: Vec<Option<Ticket>>,
    group: HeldGroup,
    plan: HeldPlan,
}

impl<D: Device> Model for Run<D> {
    ghost use Rattle.group_recovery.specs.RunSteps.{RunView};
    ghost use Rattle.group_recovery.specs.Holding.{run_view, IsHolding};

    ghost Value = { RunView };

    ghost view = { λ s. run_view s.state s.tickets.items };

    ghost invariant = { λ s. IsHolding s.state s.tickets.items s.group s.plan };
}

impl<D: Device> Run<D> {
    /// A run of this state, where none of its commit values is out. Otherwise the state is
    /// returned.
    pub fn new(alloc: Global, state: State<D, PlainShow>) -> Result<Run<D>, State<D, PlainShow>>
        ensures { StartsRun result state }
    {
        if !state.is_free() {
            return Err(state);
        }
        Ok(Run {
            state,
            tickets: Vec::new(alloc),
            group: HeldGroup::None,
            plan: HeldPlan::None,
        })
    }

    /// Does nothing: a stop leaves what it may leave of the state, which has no more commands in
    /// flight than are pending.
    pub(crate) fn stops_leave_fronts(&self)
        ensures leaves { StepLeaves self.now.state self.now.state }
        ensures taken { self.now.state.taken ≤ length self.now.state.pending }
    {
        self.state.stops_leave_fronts();
    }

    /// The allocator of the run.
    pub(crate) fn alloc(&self) -> Global {
        *self.tickets.allocator()
    }

    /// The number of commands that the run accepted.
    pub(crate) fn count(&self) -> usize
        ensures { result ≡ length self.now.tickets }
    {
        self.tickets.len()
    }

    /// The device, where no outcome is kept and no value is out: then no values and tickets are
    /// left. Otherwise the run is returned.
    pub(crate) fn into_device(self) -> Result<D, Run<D>>
        ensures { HandsOutDevice D.disk result self }
    {
        let Run {
            state,
            tickets,
            group,
            plan,
        } = self;
        match state.into_device() {
            Ok(device) => {
                group.end();
                plan.end();
                end_all(tickets);
                Ok(device)
            }
            Err(state) => Err(Run {
                state,
                tickets,
                group,
                plan,
            }),
        }
    }

    /// Makes an event, and returns the reply to it.
    pub(crate) fn step(&mut self, alloc: Global, event: &Event) -> Reply
        ensures step { IsRunStep event.now result self.old self.new }
        ensures any_moment { StepLeaves self.old.state self.new.state }
    {
        match event {
            Event::Submit(command) => submit(alloc, &mut self.tickets, &mut self.state, command),
            Event::Stage => stage(&mut self.group, &mut self.state),
            Event::WriteGroup => write_group(&mut self.group, &mut self.state),
            Event::SyncGroup => sync_group(&mut self.group, &mut self.state),
            Event::OpenGate => open_gate(&mut self.group, &mut self.state),
            Event::SyncGate => sync_gate(&mut self.group, &mut self.state),
            Event::Publish => {
                self.state.stops_leave_fronts();
                publish(&mut self.group, &mut self.state)
            }
            Event::Follow => follow(&mut self.group, &mut self.state),
            Event::WriteFollowing => write_following(&mut self.group, &mut self.state),
            Event::SyncFollowed => sync_followed(&mut self.group, &mut self.state),
            Event::PublishFollowed => {
                self.state.stops_leave_fronts();
                publish_followed(&mut self.group, &mut self.state)
            }
            Event::Redeem(k) => redeem(&mut self.tickets, &mut self.state, *k),
            Event::Prepare => prepare(&mut self.state),
            Event::Begin => begin(&mut self.plan, &mut self.state),
            Event::WriteChunk => write_chunk(&mut self.plan, &mut self.state),
            Event::SyncChunks => sync_chunks(&mut self.plan, &mut self.state),
            Event::OpenHalf => open_half(&mut self.plan, &mut self.state),
            Event::SyncHalf => sync_half(&mut self.plan, &mut self.state),
            Event::CloseHalf => close_half(&mut self.plan, &mut self.state),
            Event::SyncClose => sync_close(&mut self.plan, &mut self.state),
            Event::Lookup(query, now) => {
                self.state.stops_leave_fronts();
                match self.state.look_up(query, *now) {
                    Ok(found) => Reply::Answer(found),
                    Err(_) => Reply::AnswerRefused,
                }
            }
            Event::Halt => {
                self.state.halt();
                Reply::Done
            }
        }
    }
}
