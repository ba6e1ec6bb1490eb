//! Stops of a device within the steps of an actor, and one call that fails, at each of them in
//! turn.

use crate::host::Host;
use group_core::BeginError;
use path_db::Command;
use sector_dev::MemDevice;
use std::alloc::Global;
use std::process::Abort;
use std::test::Fail;
use store_open::{OpenError, open};
use test_fault_devices::{FaultDevice, FuseDevice, Tear};
use test_group_scripts::acts::{INSERTED, query, shown};
use test_group_scripts::stores::{
    Contents, TEARS, assert_opens_to, new_store, opened, opened_contents, register, sealed_store,
};
use test_group_scripts::work::{Paid, Told, Work, assert_stopped, assert_told, work_of};
use test_support::{TestHost, assert_same, assert_true};

/// More calls of the device than any of these stores takes to be opened and worked with.
const MANY: u64 = 200;

/// Opens a device, and makes the steps of a flusher for Purge(5): how many were made before the one
/// that failed; none where opening failed already.
fn stopped_group(
    rt: &Host<impl Abort>,
    alloc: Global,
    device: FuseDevice,
) -> (Option<u64>, MemDevice) {
    let store = match open(alloc, device) {
        Ok(store) => store,
        Err((device, e)) => {
            assert_same(rt, &e, &OpenError::Device, &"an opening");
            return (None, device.into_mem());
        }
    };
    let mut work = work_of(rt, alloc, store);
    work.submits(rt, Command::Purge(5), Ok(0));
    let (work, made) = flushed(rt, work);
    let (device, _shown) = work.end(rt);
    (Some(made), device.into_mem())
}

/// Makes the steps of a flusher: how many were made before the one that failed.
fn flushed(rt: &Host<impl Abort>, work: Work<FuseDevice>) -> (Work<FuseDevice>, u64) {
    let mut work = work;
    let mut made = 0u64;
    for _step in 0..6 {
        let step;
        (work, step) = work.flush(rt);
        if step != Told::Done {
            assert_told(rt, step, if made == 5 { Told::Ended } else { Told::Fault });
            break;
        }
        made = made.saturating_add(1);
    }
    (work, made)
}

/// The place that a stop leaves within the step after this number of steps: the group counts once
/// its gate is open.
fn place_after(made: u64, tear: Tear) -> u64 {
    match made {
        0..=2 => 0,
        3 => u64::from(tear.keep > 0 || tear.fill == 0xa7),
        _ => 1,
    }
}

/// Sees where a group's stop is with this tear, which lets this number of calls pass: in the step
/// after how many.
fn stopped_group_at(rt: &Host<impl Abort>, alloc: Global, calls: u64, tear: Tear) -> Option<u64> {
    let fuse = FuseDevice::new(new_store(rt, alloc), calls, tear);
    let (made, device) = stopped_group(rt, alloc, fuse);
    let place = match made {
        Some(made) => place_after(made, tear),
        None => 0,
    };
    let (contents, _device) = opened_contents(rt, alloc, device);
    let wanted = Contents::empty_at(place);
    assert_same(rt, &contents, &wanted, &(made, tear.keep, tear.fill));
    made
}

/// Sees so for each number of calls: each stop is one step after the one before.
fn assert_group_stops(rt: &Host<impl Abort>, alloc: Global, tear: Tear) {
    let mut steps = 0u64;
    for calls in 0..MANY {
        let Some(made) = stopped_group_at(rt, alloc, calls, tear) else {
            continue;
        };
        // Staging makes no call of the device, and neither does publishing.
        assert_same(rt, &made, &steps.saturating_add(1), &calls);
        steps = made;
        if made == 5 {
            break;
        }
    }
    assert_same(rt, &steps, &5, &"steps");
}

#[test]
fn stop_within_group_writes(rt: HostRuntime) -> Result<(), Fail> {
    let host = Host(&rt);
    for tear in &TEARS {
        assert_group_stops(&host, rt.alloc(), *tear);
    }
    Ok(())
}

/// What the sealed store has with a group in the other journal for each of two segments.
const THREE_ROWS: Contents = Contents {
    rows: 3,
    bytes: 279,
    place: 3,
};

/// A sealed store with these groups.
fn with_two_groups(rt: &Host<impl Abort>, alloc: Global) -> MemDevice {
    let mut work = work_of(rt, alloc, opened(rt, alloc, sealed_store(rt, alloc, 2)));
    for (egress, place) in [(2, 1), (3, 2)] {
        work.submits(rt, register(rt, alloc, egress, 1), Ok(place));
        work = work.flushes_group(rt);
        work.redeems_all(rt, 1);
    }
    work.device(rt)
}

/// Opens a device, and makes the steps of a checkpointer: how many were made before the one that
/// failed; none where opening failed already.
fn stopped_round(
    rt: &Host<impl Abort>,
    alloc: Global,
    device: FuseDevice,
) -> (Option<u64>, MemDevice) {
    let store = match open(alloc, device) {
        Ok(store) => store,
        Err((device, e)) => {
            assert_same(rt, &e, &OpenError::Device, &"an opening");
            return (None, device.into_mem());
        }
    };
    let (work, made) = checked(rt, work_of(rt, alloc, store));
    let device = work.ends(rt, THREE_ROWS);
    (Some(made), device.into_mem())
}

/// Makes the steps of a checkpointer: how many were made before the one that failed.
fn checked(rt: &Host<impl Abort>, work: Work<FuseDevice>) -> (Work<FuseDevice>, u64) {
    let mut work = work;
    let mut made = 0u64;
    for _step in 0..7 {
        let step;
        (work, step) = work.check(rt);
        if is_made(rt, step) {
            made = made.saturating_add(1);
        }
        if step != Told::Done {
            break;
        }
    }
    (work, made)
}

/// Whether a step was made, where the device failed otherwise.
fn is_made(rt: &Host<impl Abort>, step: Told) -> bool {
    match step {
        Told::Done | Told::Ended => return true,
        Told::Begin(e) => assert_same(rt, &e, &BeginError::Fault, &"a round"),
        _ => assert_told(rt, step, Told::Fault),
    }
    false
}

/// The epoch that a stop leaves within the step after this number of steps: the new half counts
/// once its gate is open.
fn epoch_after(made: u64, tear: Tear) -> u64 {
    match made {
        0..=2 => 1,
        3 => 1 + u64::from(tear.keep > 0 || tear.fill == 0xa7),
        _ => 2,
    }
}

/// Sees that a device opens to what is committed, by a half of this epoch.
fn assert_opens(rt: &Host<impl Abort>, alloc: Global, device: MemDevice, epoch: u64) -> MemDevice {
    let store = opened(rt, alloc, device);
    assert_same(rt, &store.epoch(), &epoch, &"epoch");
    assert_opens_to(rt, alloc, store.into_device(), THREE_ROWS)
}

/// Sees where a round's stop is with this tear, which lets this number of calls pass: in the step
/// after how many.
fn stopped_round_at(rt: &Host<impl Abort>, alloc: Global, calls: u64, tear: Tear) -> Option<u64> {
    let fuse = FuseDevice::new(with_two_groups(rt, alloc), calls, tear);
    let (made, device) = stopped_round(rt, alloc, fuse);
    let epoch = match made {
        Some(made) => epoch_after(made, tear),
        None => 1,
    };
    let _device = assert_opens(rt, alloc, device, epoch);
    made
}

/// Sees so for each number of calls: each stop is at most one step after the one before.
fn assert_round_stops(rt: &Host<impl Abort>, alloc: Global, tear: Tear) {
    let mut last = 0u64;
    for calls in 0..MANY {
        let Some(made) = stopped_round_at(rt, alloc, calls, tear) else {
            continue;
        };
        // Each step after the first makes one call of the device.
        assert_true(rt, made <= last.saturating_add(1), "a step makes one call");
        last = made;
        if made == 7 {
            break;
        }
    }
    assert_same(rt, &last, &7, &"steps");
}

#[test]
fn stop_within_half_opening(rt: HostRuntime) -> Result<(), Fail> {
    let host = Host(&rt);
    for tear in &TEARS {
        assert_round_stops(&host, rt.alloc(), *tear);
    }
    Ok(())
}

/// How many calls are passed before the one of the step after this number of steps.
fn calls_before(rt: &Host<impl Abort>, alloc: Global, steps: u64) -> u64 {
    for calls in 0..MANY {
        let fuse = FuseDevice::new(with_two_groups(rt, alloc), calls, TEARS[0]);
        let (made, _device) = stopped_round(rt, alloc, fuse);
        if made == Some(steps) {
            return calls;
        }
    }
    rt.fail("no stop there")
}

/// Opens a device that stops: whether it opened, and the device.
fn opened_or_not(rt: &Host<impl Abort>, alloc: Global, fuse: FuseDevice) -> (bool, FuseDevice) {
    match open(alloc, fuse) {
        Ok(store) => (true, store.into_device()),
        Err((device, e)) => {
            assert_same(rt, &e, &OpenError::Device, &"an opening");
            (false, device)
        }
    }
}

/// Stops a round where the old half is closed, and the opening after this number of calls: whether
/// that was done.
fn is_recovered(
    rt: &Host<impl Abort>,
    alloc: Global,
    closing: u64,
    calls: u64,
    tear: Tear,
) -> bool {
    let fuse = FuseDevice::new(with_two_groups(rt, alloc), closing, tear);
    let (made, torn) = stopped_round(rt, alloc, fuse);
    assert_same(rt, &made, &Some(5), &calls);
    let (done, device) = opened_or_not(rt, alloc, FuseDevice::new(torn, calls, tear));
    let _device = assert_opens(rt, alloc, device.into_mem(), 2);
    done
}

/// Does so for each number of calls, until the opening is done.
fn assert_recovered(rt: &Host<impl Abort>, alloc: Global, closing: u64, tear: Tear) {
    for calls in 0..MANY {
        if is_recovered(rt, alloc, closing, calls, tear) {
            return;
        }
    }
    rt.fail("never done")
}

#[test]
fn stop_within_old_half_closing_and_recovery(rt: HostRuntime) -> Result<(), Fail> {
    let host = Host(&rt);
    let closing = calls_before(&host, rt.alloc(), 5);
    for tear in &TEARS {
        assert_recovered(&host, rt.alloc(), closing, *tear);
    }
    Ok(())
}

/// How many steps a group, a round and a further group take: 6, 7 and 6.
const STEPS: u64 = 19;

/// Of the sealed store, commits a segment, lays the sealed half's checkpoint, and commits a further
/// segment, on a device of which the call of this number fails: how many steps were made before
/// that. None where opening failed already.
fn failed(rt: &Host<impl Abort>, alloc: Global, number: u64) -> Option<(u64, Work<FaultDevice>)> {
    let store = match open(alloc, FaultDevice::new(sealed_store(rt, alloc, 2), number)) {
        Ok(store) => store,
        Err((_device, e)) => {
            assert_same(rt, &e, &OpenError::Device, &"an opening");
            return None;
        }
    };
    Some(steps_made(rt, alloc, work_of(rt, alloc, store)))
}

/// Submits what is needed before the step after this number of steps.
fn submit_before(rt: &Host<impl Abort>, alloc: Global, work: &mut Work<FaultDevice>, made: u64) {
    match made {
        0 => work.submits(rt, register(rt, alloc, 2, 1), Ok(1)),
        13 => work.submits(rt, register(rt, alloc, 3, 1), Ok(2)),
        _ => {}
    }
}

/// Makes the step after this number of steps.
fn step_behind(
    rt: &Host<impl Abort>,
    work: Work<FaultDevice>,
    made: u64,
) -> (Work<FaultDevice>, Told) {
    match made {
        6..=12 => work.check(rt),
        _ => work.flush(rt),
    }
}

/// Whether the device failed in the step after this number of steps; it was made otherwise.
fn has_failed(rt: &Host<impl Abort>, made: u64, step: Told) -> bool {
    match (made, step) {
        (5 | 12 | 18, Told::Ended) | (_, Told::Done) => return false,
        (6, Told::Begin(e)) => assert_same(rt, &e, &BeginError::Fault, &made),
        _ => assert_same(rt, &step, &Told::Fault, &made),
    }
    true
}

/// Makes the steps of a group, a round and a further group: how many were made before the one that
/// failed.
fn steps_made(
    rt: &Host<impl Abort>,
    alloc: Global,
    work: Work<FaultDevice>,
) -> (u64, Work<FaultDevice>) {
    let mut work = work;
    for made in 0..STEPS {
        submit_before(rt, alloc, &mut work, made);
        let step;
        (work, step) = step_behind(rt, work, made);
        if has_failed(rt, made, step) {
            return (made, work);
        }
    }
    (STEPS, work)
}

/// After how many steps the next one is that makes a call of the device: staging and publishing
/// make none.
fn next_call(made: u64) -> u64 {
    match made {
        4 => 6,
        12 => 14,
        17 => STEPS,
        _ => made.saturating_add(1),
    }
}

/// Sees what is left of a run of which the step after this number of steps failed, or none: whether
/// one did.
fn assert_left(rt: &Host<impl Abort>, alloc: Global, made: u64, work: Work<FaultDevice>) -> bool {
    if made < STEPS {
        assert_failed(rt, alloc, made, work);
        return true;
    }
    let mut work = work;
    work.redeems_all(rt, 2);
    let _device = assert_opens(rt, alloc, work.device(rt).into_mem(), 2);
    false
}

/// Sees after how many steps the call of this number failed, where the one before it failed after
/// `last` steps.
fn assert_next(rt: &Host<impl Abort>, number: u64, last: u64, made: u64) {
    // Beginning a round makes several calls.
    if (made, last) != (6, 6) {
        assert_same(rt, &made, &next_call(last), &number);
    }
}

#[test]
fn each_failed_call_stops(rt: HostRuntime) -> Result<(), Fail> {
    let host = Host(&rt);
    let mut last = 0u64;
    for number in 0..MANY {
        let Some((made, work)) = failed(&host, rt.alloc(), number) else {
            continue;
        };
        assert_next(&host, number, last, made);
        last = made;
        if !assert_left(&host, rt.alloc(), made, work) {
            break;
        }
    }
    assert_same(&host, &last, &STEPS, &"steps");
    Ok(())
}

/// Sees which commands are known of a state that has stopped in the step after this number of
/// steps.
fn assert_known(rt: &Host<impl Abort>, work: &mut Work<FaultDevice>, made: u64) {
    if made < 6 {
        work.redeems(rt, 0, Paid::Unknown(1));
    } else {
        work.redeems(rt, 0, Paid::Committed(1, INSERTED));
    }
    if made > 13 {
        work.redeems(rt, 0, Paid::Unknown(2));
    }
}

/// What a state shows: a bit for each interface by which a segment is left. None where memory is
/// refused.
fn shown_by(work: &Work<FaultDevice>) -> Option<u64> {
    let segments = work.state.look_up(&query(), 0).ok()?;
    Some(shown(&segments))
}

/// Sees that lookups go on in a state that has stopped in the step after this number of steps: they
/// show what was published before.
fn assert_shown(rt: &Host<impl Abort>, work: &Work<FaultDevice>, made: u64) {
    let wanted = if made < 6 { 0b10 } else { 0b110 };
    assert_same(rt, &shown_by(work), &Some(wanted), &made);
}

/// Sees that a state has stopped in the step after this number of steps, and what is there then.
fn assert_failed(rt: &Host<impl Abort>, alloc: Global, made: u64, work: Work<FaultDevice>) {
    let mut work = work;
    assert_shown(rt, &work, made);
    assert_known(rt, &mut work, made);
    assert_shown(rt, &work, made);
    let device = assert_stopped(rt, work).into_mem();
    // Of a write that failed nothing has landed; the gates that were not synced have.
    let place = 1 + u64::from(made > 3) + u64::from(made > 16);
    let epoch = 1 + u64::from(made > 9);
    let store = opened(rt, alloc, device);
    assert_same(rt, &store.epoch(), &epoch, &made);
    let (contents, _device) = opened_contents(rt, alloc, store.into_device());
    let wanted = Contents {
        rows: place as usize,
        bytes: 93 * place,
        place,
    };
    assert_same(rt, &contents, &wanted, &made);
}
