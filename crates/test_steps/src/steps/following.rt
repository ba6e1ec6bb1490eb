//! Groups that follow each other: the bytes that they leave, and what a stop within them leaves.

use crate::host::Host;
use group_core::FollowError;
use sector_dev::{Device, MemDevice};
use std::alloc::Global;
use std::process::Abort;
use std::test::Fail;
use store_open::{OpenError, open};
use test_fault_devices::{FuseDevice, Tear};
use test_group_scripts::acts::NOTHING;
use test_group_scripts::stores::{
    Contents, TEARS, assert_opens_to, old_store, opened, opened_contents, read_sector,
};
use test_group_scripts::work::{Group, Paid, Told, Work, work_of};
use test_support::assert_same;

/// How many purges are committed. A version 1 store takes 8 of them in a group, so these take three
/// groups.
const PURGES: usize = 20;

/// How the payload of each group begins, and its sector.
const PAYLOADS: [(u64, [u8; 16]); 3] = [
    (5, [1, 8, 0, 0, 0, 0, 0, 104, 0, 0, 0, 0, 0, 0, 0, 0]),
    (7, [1, 8, 0, 0, 0, 0, 0, 104, 0, 0, 0, 0, 0, 0, 0, 8]),
    (9, [1, 4, 0, 0, 0, 0, 0, 52, 0, 0, 0, 0, 0, 0, 0, 16]),
];

/// The steps that are made before each call of the device. The calls are: write, sync and gate of
/// the first group, write of the second, sync of both, gate of the second, write of the third, sync
/// of both, gate of the third, its sync. After all of them 17 steps are made.
const MADE: [u64; 11] = [1, 2, 3, 5, 6, 8, 10, 11, 13, 15, 17];

/// More calls of the device than this store takes to be opened and worked with.
const MANY: u64 = 200;

/// Follows where a gate was written and commands are pending after the group in flight, and makes
/// the flusher's next step elsewhere: whether it went on.
fn next_step<D: Device>(rt: &Host<impl Abort>, work: Work<D>, last: Told) -> (Work<D>, Told) {
    let is_opened = matches!(&work.group, Group::Opened(_));
    if is_opened && last != Told::Follow(FollowError::Empty) {
        work.follow(rt)
    } else {
        work.flush(rt)
    }
}

/// Makes steps until no command is pending, or until one fails: how many were made.
fn committed<D: Device>(rt: &Host<impl Abort>, work: Work<D>) -> (Work<D>, u64) {
    let mut work = work;
    let mut last = Told::Done;
    let mut made = 0u64;
    for _step in 0..40 {
        (work, last) = next_step(rt, work, last);
        if last == Told::Fault {
            break;
        }
        made = made.saturating_add(1);
        if last == Told::Ended {
            break;
        }
    }
    (work, made)
}

/// Redeems the tickets of the purges, each of which is committed.
fn redeem_purges(rt: &Host<impl Abort>, work: &mut Work<MemDevice>) {
    for place in 0..20 {
        work.redeems(rt, 0, Paid::Committed(place, NOTHING));
    }
}

/// Sees how the groups' payloads begin.
fn assert_payloads(rt: &Host<impl Abort>, device: &mut MemDevice) {
    for (at, wanted) in &PAYLOADS {
        let sector = read_sector(device, *at);
        assert_same(rt, &sector.starts_with(wanted), &true, at);
    }
}

#[test]
fn three_groups_follow_each_other(rt: HostRuntime) -> Result<(), Fail> {
    let host = Host(&rt);
    let store = opened(&host, rt.alloc(), old_store(&host, rt.alloc()));
    let mut work = work_of(&host, rt.alloc(), store);
    work.purge(&host, PURGES);
    let (mut work, made) = committed(&host, work);
    assert_same(&host, &made, &17, &"steps");
    redeem_purges(&host, &mut work);
    let mut device = work.ends(&host, Contents::empty_at(20));
    assert_payloads(&host, &mut device);
    let _device = assert_opens_to(&host, rt.alloc(), device, Contents::empty_at(20));
    Ok(())
}

/// Opens a device, and commits the purges: how many steps were made; none where opening failed
/// already.
fn stopped_groups(
    rt: &Host<impl Abort>,
    alloc: Global,
    device: FuseDevice,
) -> (Option<u64>, MemDevice) {
    let store = match open(alloc, device) {
        Ok(store) => store,
        Err((device, e)) => {
            assert_same(rt, &e, &OpenError::Device, &"an opening");
            return (None, device.into_mem());
        }
    };
    let mut work = work_of(rt, alloc, store);
    work.purge(rt, PURGES);
    let (work, made) = committed(rt, work);
    let (device, _shown) = work.end(rt);
    (Some(made), device.into_mem())
}

/// The place that a stop leaves after this number of steps: a group counts once its gate is open,
/// and nothing of the group that follows it does.
fn place_after(made: u64, tear: Tear) -> u64 {
    let is_open = tear.keep > 0 || tear.fill == 0xa7;
    match made {
        0..=2 => 0,
        3 if !is_open => 0,
        3..=7 => 8,
        8 if !is_open => 8,
        8..=12 => 16,
        13 if !is_open => 16,
        _ => 20,
    }
}

/// Sees what a stop after this number of steps has left on a device.
fn assert_place(rt: &Host<impl Abort>, alloc: Global, device: MemDevice, made: u64, tear: Tear) {
    let (contents, _device) = opened_contents(rt, alloc, device);
    let wanted = Contents::empty_at(place_after(made, tear));
    assert_same(rt, &contents, &wanted, &(made, tear.keep, tear.fill));
}

/// Sees what a stop with this tear leaves, which lets this number of calls pass: how many steps
/// were made; none where opening failed already.
fn stopped_at(rt: &Host<impl Abort>, alloc: Global, calls: u64, tear: Tear) -> Option<u64> {
    let fuse = FuseDevice::new(old_store(rt, alloc), calls, tear);
    let (made, device) = stopped_groups(rt, alloc, fuse);
    if let Some(made) = made {
        assert_place(rt, alloc, device, made, tear);
    }
    made
}

/// Sees so for each number of calls.
fn assert_groups_stop(rt: &Host<impl Abort>, alloc: Global, tear: Tear) {
    let mut stops = 0usize;
    for calls in 0..MANY {
        let Some(made) = stopped_at(rt, alloc, calls, tear) else {
            continue;
        };
        assert_same(rt, &Some(&made), &MADE.get(stops), &calls);
        stops = stops.saturating_add(1);
        if stops == MADE.len() {
            break;
        }
    }
    assert_same(rt, &stops, &MADE.len(), &"stops");
}

#[test]
fn stop_within_following_groups(rt: HostRuntime) -> Result<(), Fail> {
    let host = Host(&rt);
    for tear in &TEARS {
        assert_groups_stop(&host, rt.alloc(), *tear);
    }
    Ok(())
}
