//! Tickets and values that are another state's, and second values while one is out.

use crate::host::Host;
use group_core::{
    BeginError, Commit, FollowError, Opened, PlainShow, Plan, PublishError, Redeemed, StageError,
    State, StepError, Ticket,
};
use path_db::Command;
use sector_dev::{Device, MemDevice};
use std::alloc::Global;
use std::process::Abort;
use std::test::Fail;
use test_group_scripts::stores::{
    Contents, assert_opens_to, change, new_store, opened, opened_contents, register, sealed_store,
};
use test_group_scripts::work::{Group, Round, Told, Work, state_of, work_of};
use test_support::{TestHost, assert_same};

/// A state of a store that was sealed, of this home, with one command pending.
fn sealed_state(
    rt: &Host<impl Abort>,
    alloc: Global,
    home: u64,
) -> (State<MemDevice, PlainShow>, Ticket) {
    let store = opened(rt, alloc, sealed_store(rt, alloc, 2));
    let mut state = state_of(rt, alloc, store, home);
    match state.submit(register(rt, alloc, 2, 1)) {
        Ok(ticket) => (state, ticket),
        Err((_command, e)) => rt.fail(format_args!("{e:?}")),
    }
}

/// The value of a step that came back as a stranger.
fn value_of<T, P>(rt: &Host<impl Abort>, answer: Result<T, StepError<P>>) -> Commit<P> {
    match answer {
        Err(StepError::Stranger(value)) => value,
        _other => rt.fail("no stranger"),
    }
}

/// The same of publishing.
fn unpublished<T, P>(rt: &Host<impl Abort>, answer: Result<T, PublishError<P>>) -> Commit<P> {
    match answer {
        Err(PublishError::Stranger(value)) => value,
        _other => rt.fail("no stranger"),
    }
}

/// A group whose gate was written. No group follows it and its gate is not synced, as it is a
/// stranger.
fn strange_opened(
    rt: &Host<impl Abort>,
    state: &mut State<MemDevice, PlainShow>,
    opened: Opened,
) -> Opened {
    match state.follow(opened) {
        Err((opened, FollowError::Stranger)) => value_of(rt, state.sync_gate(opened)),
        _other => rt.fail("no stranger"),
    }
}

/// A step of the flusher with a value that comes back as a stranger.
fn strange_group(
    rt: &Host<impl Abort>,
    state: &mut State<MemDevice, PlainShow>,
    group: Group,
) -> Group {
    match group {
        Group::Nothing => Group::Nothing,
        Group::Staged(value) => Group::Staged(value_of(rt, state.write_group(value))),
        Group::Written(value) => Group::Written(value_of(rt, state.sync_group(value))),
        Group::Stable(value) => Group::Stable(value_of(rt, state.open_gate(value))),
        Group::Opened(value) => Group::Opened(strange_opened(rt, state, value)),
        Group::Durable(value) => Group::Durable(unpublished(rt, state.publish(value))),
        Group::Following(value) => Group::Following(value_of(rt, state.write_following(value))),
        Group::Followed(value) => Group::Followed(value_of(rt, state.sync_followed(value))),
        Group::DurableFollowed(value) => {
            Group::DurableFollowed(unpublished(rt, state.publish_followed(value)))
        }
    }
}

/// A checkpoint of which no sector is written or synced, as it is a stranger.
fn strange_plan(
    rt: &Host<impl Abort>,
    state: &mut State<MemDevice, PlainShow>,
    plan: Plan,
) -> Plan {
    if plan.is_done() {
        return value_of(rt, state.sync_chunks(plan));
    }
    value_of(rt, state.write_chunk(plan))
}

/// A step of the checkpointer with a value that comes back as a stranger.
fn strange_round(
    rt: &Host<impl Abort>,
    state: &mut State<MemDevice, PlainShow>,
    round: Round,
) -> Round {
    match round {
        Round::Nothing => Round::Nothing,
        Round::Plan(value) => Round::Plan(strange_plan(rt, state, value)),
        Round::Laid(value) => Round::Laid(value_of(rt, state.open_half(value))),
        Round::Switched(value) => Round::Switched(value_of(rt, state.sync_half(value))),
        Round::Live(value) => Round::Live(value_of(rt, state.close_half(value))),
        Round::Closing(value) => Round::Closing(value_of(rt, state.sync_close(value))),
    }
}

/// Hands both values of a state at work to another one, which hands them back.
fn hand_to<D: Device>(
    rt: &Host<impl Abort>,
    work: Work<D>,
    other: &mut State<MemDevice, PlainShow>,
) -> Work<D> {
    let Work {
        state,
        tickets,
        group,
        round,
    } = work;
    Work {
        state,
        tickets,
        group: strange_group(rt, other, group),
        round: strange_round(rt, other, round),
    }
}

/// A ticket at place 1 that came back as a stranger.
fn stranger(rt: &Host<impl Abort>, answer: Redeemed<()>) -> Ticket {
    match answer {
        Redeemed::Stranger(ticket) => {
            assert_same(rt, &ticket.place(), &1, &"a ticket");
            ticket
        }
        _other => rt.fail("no stranger"),
    }
}

/// Sees that the fate of a command at place 1 is not known.
fn assert_unknown(rt: &Host<impl Abort>, answer: Redeemed<()>) {
    match answer {
        Redeemed::Unknown(place) => assert_same(rt, &place, &1, &"a place"),
        _other => rt.fail("known"),
    }
}

/// Redeems the ticket of a state that has stopped, which ends then.
fn end_unknown(rt: &Host<impl Abort>, state: State<MemDevice, PlainShow>, ticket: Ticket) {
    let mut state = state;
    assert_unknown(rt, state.redeem(ticket));
    let (_device, _show) = state.into_parts();
}

/// Makes the steps of a group and of a round but the last one, each value being handed to two other
/// states between them.
fn all_handed(
    rt: &Host<impl Abort>,
    work: Work<MemDevice>,
    other: &mut State<MemDevice, PlainShow>,
    halted: &mut State<MemDevice, PlainShow>,
) -> Work<MemDevice> {
    let mut work = work;
    for _step in 0..6 {
        (work, _) = work.flush(rt);
        work = hand_to(rt, hand_to(rt, work, other), halted);
        (work, _) = work.check(rt);
        work = hand_to(rt, hand_to(rt, work, other), halted);
    }
    work
}

/// A state of the sealed store, at work.
fn sealed_work(rt: &Host<impl Abort>, alloc: Global) -> Work<MemDevice> {
    work_of(rt, alloc, opened(rt, alloc, sealed_store(rt, alloc, 2)))
}

#[test]
fn strangers_come_back(rt: HostRuntime) -> Result<(), Fail> {
    let host = Host(&rt);
    let mut work = sealed_work(&host, rt.alloc());
    work.submits(&host, register(&host, rt.alloc(), 2, 1), Ok(1));
    let (mut other, ticket) = sealed_state(&host, rt.alloc(), 2);
    let (mut halted, last) = sealed_state(&host, rt.alloc(), 3);
    halted.halt();
    let mut work = all_handed(&host, work, &mut other, &mut halted).checks(&host, Told::Ended);
    let ticket = stranger(&host, work.state.redeem(ticket));
    let last = stranger(&host, other.redeem(last));
    other.halt();
    end_unknown(&host, other, ticket);
    end_unknown(&host, halted, last);
    work.redeems_at(&host, 1);
    let wanted = Contents {
        rows: 2,
        bytes: 186,
        place: 2,
    };
    let _device = assert_opens_to(&host, rt.alloc(), work.device(&host), wanted);
    Ok(())
}

/// Why nothing is staged.
fn no_group(rt: &Host<impl Abort>, work: &mut Work<MemDevice>) -> StageError {
    match work.state.stage() {
        Err(e) => e,
        Ok(_staged) => rt.fail("staged"),
    }
}

/// Why no checkpoint is begun.
fn no_round(rt: &Host<impl Abort>, work: &mut Work<MemDevice>) -> BeginError {
    match work.state.begin() {
        Err(e) => e,
        Ok(_plan) => rt.fail("begun"),
    }
}

/// Sees why nothing is staged.
fn stages_none(rt: &Host<impl Abort>, work: &mut Work<MemDevice>, wanted: StageError) {
    let refusal = no_group(rt, work);
    assert_same(rt, &refusal, &wanted, &"a group");
}

/// Sees why no checkpoint is begun.
fn begins_none(rt: &Host<impl Abort>, work: &mut Work<MemDevice>, wanted: BeginError) {
    let refusal = no_round(rt, work);
    assert_same(rt, &refusal, &wanted, &"a round");
}

/// Makes all steps of a group and of a round but the last ones, and sees that neither is begun
/// twice.
fn one_of_each(rt: &Host<impl Abort>, work: Work<MemDevice>) -> Work<MemDevice> {
    let mut work = work;
    for _step in 0..5 {
        work = work.flushes(rt, Told::Done);
        stages_none(rt, &mut work, StageError::InFlight);
    }
    for _step in 0..6 {
        work = work.checks(rt, Told::Done);
        begins_none(rt, &mut work, BeginError::InFlight);
    }
    work
}

/// Sees so where this number of purges is pending.
fn assert_one_of_each(rt: &Host<impl Abort>, alloc: Global, pending: usize) {
    let mut work = sealed_work(rt, alloc);
    stages_none(rt, &mut work, StageError::Empty);
    work.purge(rt, pending);
    let work = one_of_each(rt, work);
    let mut work = work.flushes(rt, Told::Ended).checks(rt, Told::Ended);
    begins_none(rt, &mut work, BeginError::NotSealed);
    if pending == 1 {
        stages_none(rt, &mut work, StageError::Empty);
    }
    let wanted = Contents {
        rows: 1,
        bytes: 93,
        place: pending.min(32) as u64 + 1,
    };
    let _device = work.ends(rt, wanted);
}

#[test]
fn one_value_of_a_kind_is_out(rt: HostRuntime) -> Result<(), Fail> {
    let host = Host(&rt);
    // The whole tail is in the group, or one command is after it.
    for pending in [1, 33] {
        assert_one_of_each(&host, rt.alloc(), pending);
    }
    Ok(())
}

/// Makes this number of steps of a group and of a round, whatever they are answered.
fn steps_of_both(rt: &Host<impl Abort>, work: Work<MemDevice>, steps: usize) -> Work<MemDevice> {
    let mut work = work;
    for _step in 0..steps {
        (work, _) = work.flush(rt);
        (work, _) = work.check(rt);
    }
    work
}

/// The place that a state shows which has stopped after this number of steps: a group that is
/// durable is published then too.
fn place_shown(steps: usize) -> u64 {
    if steps == 5 { 6 } else { 1 }
}

/// The place that is left on its device.
fn place_left(steps: usize) -> u64 {
    if steps > 3 {
        (steps as u64).saturating_add(1)
    } else {
        1
    }
}

/// Stops a state after this number of steps, and sees that nothing is staged or begun, and what is
/// shown and left then.
fn assert_halted(rt: &Host<impl Abort>, alloc: Global, steps: usize) {
    let mut work = sealed_work(rt, alloc);
    work.purge(rt, steps);
    let mut work = steps_of_both(rt, work, steps);
    work.state.halt();
    stages_none(rt, &mut work, StageError::Stopped);
    begins_none(rt, &mut work, BeginError::Stopped);
    let (device, shown) = work.end(rt);
    assert_same(rt, &shown.place, &place_shown(steps), &steps);
    let (left, _device) = opened_contents(rt, alloc, device);
    assert_same(rt, &left.place, &place_left(steps), &steps);
}

#[test]
fn stopped_states_stage_and_begin_nothing(rt: HostRuntime) -> Result<(), Fail> {
    let host = Host(&rt);
    for steps in 0..6 {
        assert_halted(&host, rt.alloc(), steps);
    }
    Ok(())
}

/// Sees that no checkpoint is begun of a store at the last epoch, and that a group is committed to
/// it.
fn assert_last_epoch(rt: &Host<impl Abort>, alloc: Global, device: MemDevice, wanted: BeginError) {
    let mut device = device;
    change(&mut device, 1, 8, &[0xff; 8]);
    let mut work = work_of(rt, alloc, opened(rt, alloc, device));
    begins_none(rt, &mut work, wanted);
    work.purge(rt, 1);
    let mut work = work.flushes_group(rt);
    begins_none(rt, &mut work, wanted);
    work.redeems_all(rt, 1);
    let _device = work.device(rt);
}

#[test]
fn no_epoch_is_left(rt: HostRuntime) -> Result<(), Fail> {
    let host = Host(&rt);
    let device = sealed_store(&host, rt.alloc(), 2);
    assert_last_epoch(&host, rt.alloc(), device, BeginError::Exhausted);
    let device = new_store(&host, rt.alloc());
    assert_last_epoch(&host, rt.alloc(), device, BeginError::NotSealed);
    Ok(())
}
