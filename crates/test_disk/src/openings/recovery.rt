//! Stores that a stop left are opened, with a stop or a fault at every call of the opening too.

use crate::host::Host;
use crate::openings::answers::{State, assert_store, held_by};
use crate::openings::stopped::{HELD, stopped_store};
use crate::openings::stores::{opened, put, read_sector};
use sector_dev::{Device, MemDevice};
use std::alloc::Global;
use std::test::Fail;
use store_layout::Half;
use store_open::{OpenError, Store, open};
use test_fault_devices::{FaultDevice, FuseDevice, Tear};
use test_support::{TestHost, assert_same};

/// More calls than it takes to open a store.
const MANY: u64 = 200;

/// What becomes of a write at a stop: no byte of it, one byte or one sector lands, and its other
/// bytes become zero or 0xa7.
const TEARS: [Tear; 6] = [
    Tear { keep: 0, fill: 0 },
    Tear {
        keep: 0,
        fill: 0xa7,
    },
    Tear { keep: 1, fill: 0 },
    Tear {
        keep: 1,
        fill: 0xa7,
    },
    Tear { keep: 512, fill: 0 },
    Tear {
        keep: 512,
        fill: 0xa7,
    },
];

/// A store that a stop left, and what it takes to open it.
#[derive(Clone, Copy)]
struct Left {
    both_are_open: bool,
    // A sync, sector 0, both half gates, and after each that is open a head; the front and the rows
    // of the chosen half; a gate, a header and a payload for each group, and for a seal a gate and
    // a header; the gate at the end; a sync. Where both halves are open, also the older one's gate,
    // and the write that closes it.
    calls: u64,
    state: State,
    // How the first half's gate and its journal's first gate begin then.
    gate: u8,
}

/// The sealed half alone is open, and the tail is in the other's journal.
const SEALED: Left = Left {
    both_are_open: false,
    calls: 17,
    state: State {
        epoch: 7,
        version: 2,
        is_sealed: true,
        is_broken: false,
    },
    gate: 0xa7,
};

/// Both halves are open.
const BOTH: Left = Left {
    both_are_open: true,
    calls: 15,
    state: State {
        epoch: 8,
        version: 2,
        is_sealed: false,
        is_broken: false,
    },
    gate: 0,
};

/// Opens both gates of the first half again: nothing else is written while such a store is opened.
fn open_gates(device: &mut MemDevice) -> Result<(), Fail> {
    for gate in &[3, 4] {
        put(device, *gate, &[0xa7])?;
    }
    device.sync()?;
    Ok(())
}

/// The device with both gates open.
fn left_again(mut device: MemDevice) -> Result<MemDevice, Fail> {
    open_gates(&mut device)?;
    Ok(device)
}

/// Opens a device that stops after this number of calls: whether that succeeds, and what is there
/// then.
fn stopped(
    rt: &impl TestHost,
    alloc: Global,
    device: MemDevice,
    calls: u64,
    tear: Tear,
) -> (bool, MemDevice) {
    match open(alloc, FuseDevice::new(device, calls, tear)) {
        Ok(store) => {
            assert_same(rt, &held_by(&store), &HELD, &calls);
            (true, store.into_device().into_mem())
        }
        Err((device, error)) => {
            assert_same(rt, &error, &OpenError::Device, &calls);
            (false, device.into_mem())
        }
    }
}

/// Sees that a store is the one that is expected.
fn assert_left(rt: &impl TestHost, store: &Store<MemDevice>, left: Left) {
    assert_store(rt, store, HELD, left.state);
    let tail = (store.tail_half(), store.tail_gate());
    assert_same(rt, &tail, &(Half::Second, 2), &"its tail");
}

/// Sees how both gates of the first half begin.
fn assert_gates(rt: &impl TestHost, device: &mut MemDevice, wanted: u8) {
    for at in &[3, 4] {
        let gate = read_sector(device, *at).map(|sector| sector[0]);
        assert_same(rt, &gate, &Some(wanted), at);
    }
}

/// Sees that a device opens to what is expected.
fn assert_opens(
    rt: &impl TestHost,
    alloc: Global,
    device: MemDevice,
    left: Left,
) -> Result<MemDevice, Fail> {
    let store = opened(alloc, device)?;
    assert_left(rt, &store, left);
    let mut device = store.into_device();
    assert_gates(rt, &mut device, left.gate);
    Ok(device)
}

/// Stops an opening after this number of calls, and sees what the device opens to then: whether the
/// opening succeeds, and the device.
fn opened_after(
    rt: &impl TestHost,
    alloc: Global,
    device: MemDevice,
    left: Left,
    (calls, tear): (u64, Tear),
) -> Result<(bool, MemDevice), Fail> {
    let (done, torn) = stopped(rt, alloc, device, calls, tear);
    let device = assert_opens(rt, alloc, torn, left)?;
    Ok((done, device))
}

/// A device as it is left again, and then by an opening that stops after this number of calls.
fn torn_again(
    rt: &impl TestHost,
    alloc: Global,
    device: MemDevice,
    (calls, tear): (u64, Tear),
) -> Result<MemDevice, Fail> {
    let device = left_again(device)?;
    let (_, torn) = stopped(rt, alloc, device, calls, tear);
    Ok(torn)
}

/// Stops the first opening after this number of calls, and the second one at every call; the third
/// one is not stopped.
fn assert_opens_after_two(
    rt: &impl TestHost,
    alloc: Global,
    mut device: MemDevice,
    left: Left,
    (calls, tear): (u64, Tear),
) -> Result<MemDevice, Fail> {
    for again in 0..MANY {
        let torn = torn_again(rt, alloc, device, (calls, tear))?;
        let done;
        (done, device) = opened_after(rt, alloc, torn, left, (again, tear))?;
        if done {
            break;
        }
    }
    Ok(device)
}

/// Stops one opening after this number of calls, and then two: whether the first succeeds, so that
/// there are no two, and the device.
fn recovered(
    rt: &impl TestHost,
    alloc: Global,
    device: MemDevice,
    left: Left,
    (calls, tear): (u64, Tear),
) -> Result<(bool, MemDevice), Fail> {
    let device = left_again(device)?;
    let (done, device) = opened_after(rt, alloc, device, left, (calls, tear))?;
    if done {
        return Ok((true, device));
    }
    let device = assert_opens_after_two(rt, alloc, device, left, (calls, tear))?;
    Ok((false, device))
}

/// Stops an opening at every call in one way: the device.
fn recovered_often(
    rt: &impl TestHost,
    alloc: Global,
    mut device: MemDevice,
    left: Left,
    tear: Tear,
) -> Result<MemDevice, Fail> {
    let mut stops = 0u64;
    for calls in 0..MANY {
        let done;
        (done, device) = recovered(rt, alloc, device, left, (calls, tear))?;
        if done {
            break;
        }
        stops = stops.saturating_add(1);
    }
    assert_same(rt, &stops, &left.calls, &"stops");
    Ok(device)
}

/// Stops an opening at every call.
fn assert_recovers(rt: &impl TestHost, alloc: Global, left: Left) -> Result<(), Fail> {
    let mut device = stopped_store(alloc, left.both_are_open)?;
    for tear in &TEARS {
        device = recovered_often(rt, alloc, device, left, *tear)?;
    }
    Ok(())
}

#[test]
fn stops_where_the_sealed_half_is_open(rt: HostRuntime) -> Result<(), Fail> {
    let host = Host(&rt);
    assert_recovers(&host, rt.alloc(), SEALED)
}

#[test]
fn stops_where_both_halves_are_open(rt: HostRuntime) -> Result<(), Fail> {
    let host = Host(&rt);
    assert_recovers(&host, rt.alloc(), BOTH)
}

/// Opens a device of which this call fails, and sees that the error says so: the device.
fn failed(rt: &impl TestHost, alloc: Global, device: MemDevice, number: u64) -> MemDevice {
    match open(alloc, FaultDevice::new(device, number)) {
        Ok(store) => {
            assert_same(rt, &"opened", &"a fault", &number);
            store.into_device().into_mem()
        }
        Err((failed, error)) => {
            assert_same(rt, &error, &OpenError::Device, &number);
            failed.into_mem()
        }
    }
}

/// Fails this call of an opening, and sees what the device opens to then: the device.
fn opened_after_fault(
    rt: &impl TestHost,
    alloc: Global,
    device: MemDevice,
    left: Left,
    number: u64,
) -> Result<MemDevice, Fail> {
    let device = left_again(device)?;
    assert_opens(rt, alloc, failed(rt, alloc, device, number), left)
}

/// Opens a device of which a later call would fail.
fn assert_later_fault(
    rt: &impl TestHost,
    alloc: Global,
    device: MemDevice,
    number: u64,
) -> Result<(), Fail> {
    match open(alloc, FaultDevice::new(left_again(device)?, number)) {
        Ok(store) => {
            assert_same(rt, &held_by(&store), &HELD, &"a later fault");
            let _device = store.into_device();
            Ok(())
        }
        Err((_failed, error)) => Err(error)?,
    }
}

/// Fails each call of an opening, and then the one after these.
fn assert_faults(rt: &impl TestHost, alloc: Global, left: Left) -> Result<(), Fail> {
    let mut device = stopped_store(alloc, left.both_are_open)?;
    for number in 0..left.calls {
        device = opened_after_fault(rt, alloc, device, left, number)?;
    }
    assert_later_fault(rt, alloc, device, left.calls)
}

#[test]
fn a_fault_at_any_call_is_told(rt: HostRuntime) -> Result<(), Fail> {
    let host = Host(&rt);
    assert_faults(&host, rt.alloc(), SEALED)?;
    assert_faults(&host, rt.alloc(), BOTH)
}
