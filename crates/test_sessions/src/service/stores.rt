//! Stores on devices in memory, and their core AS.

use crate::checks::{assert_same, assert_true};
use isd_as::IsdAs;
use sector_dev::{Device, MemDevice, SECTOR};
use seg_lookup::Roster;
use std::alloc::Global;
use std::process::Abort;
use store_layout::{LEAST_CHECKPOINT, LEAST_JOURNAL};
use store_open::{Geometry, OpenError, Store, format, open};
use test_fault_devices::FaultDevice;

/// The least sizes that are allowed. There is room for ten rows of the segments here, which take 93
/// bytes each.
const LEAST: Geometry = Geometry {
    checkpoint: LEAST_CHECKPOINT,
    journal: LEAST_JOURNAL,
};

/// Where in the first sector of a checkpoint area the last byte of its version is.
const VERSION: usize = 7;

/// How many calls of a device are tried.
const MANY: u64 = 1000;

/// The one core AS, 1-ff00:0:110. Where memory is refused, it is asked for once more.
pub(crate) fn cores(rt: &impl Abort, alloc: Global) -> Roster {
    let core = IsdAs::from_u64(0x0001_ff00_0000_0110);
    let mut cores = Vec::new(alloc);
    if cores.push(core).is_err() {
        cores.push(core).expect(rt, "no memory");
    }
    Roster::new(cores)
}

/// A new store's device. Where memory is refused, it is asked for once more.
pub(crate) fn formatted(rt: &impl Abort, alloc: Global) -> MemDevice {
    formatted_as(rt, alloc, LEAST)
}

/// A device with a new store of these sizes. Where memory is refused, it is asked for once more.
fn formatted_as(rt: &impl Abort, alloc: Global, sizes: Geometry) -> MemDevice {
    let sectors = sizes.sectors();
    assert_true(rt, sectors <= 4096, "the device is small");
    let made = match MemDevice::new(alloc, sectors) {
        Err(_) => MemDevice::new(alloc, sectors),
        made => made,
    };
    let mut device = made.expect(rt, "the device has memory");
    assert_same(rt, &format(&mut device, sizes), &Ok(()), &"format");
    device
}

/// Opens a device. Where memory is refused, it is tried once more.
pub(crate) fn opened<D: Device>(rt: &impl Abort, alloc: Global, device: D) -> Store<D> {
    let again = match open(alloc, device) {
        Err((device, OpenError::NoMemory)) => open(alloc, device),
        answer => answer,
    };
    match again {
        Ok(store) => store,
        Err((_device, e)) => panic!(rt; "{e:?}"),
    }
}

/// A new store.
pub(crate) fn new_store(rt: &impl Abort, alloc: Global) -> Store<MemDevice> {
    opened(rt, alloc, formatted(rt, alloc))
}

/// A new store, whose checkpoint areas have this number of sectors.
pub(crate) fn new_store_of(rt: &impl Abort, alloc: Global, checkpoint: u32) -> Store<MemDevice> {
    let sizes = Geometry {
        checkpoint,
        ..LEAST
    };
    opened(rt, alloc, formatted_as(rt, alloc, sizes))
}

/// A new store of version 1.
pub(crate) fn old_store(rt: &impl Abort, alloc: Global) -> Store<MemDevice> {
    let mut device = formatted(rt, alloc);
    let mut area = [0; SECTOR];
    assert_true(rt, 1 < device.sectors(), "the device has the area");
    assert_true(rt, device.read(1, &mut area).is_ok(), "it is read");
    area[VERSION] = 1;
    assert_true(rt, device.write(1, &area).is_ok(), "it is written");
    assert_true(rt, device.sync().is_ok(), "it is synced");
    let store = opened(rt, alloc, device);
    assert_same(rt, &store.version(), &1, &"version");
    store
}

/// How many calls of the device it takes to open a new store.
fn calls_to_open(rt: &impl Abort, alloc: Global) -> u64 {
    let mut device = formatted(rt, alloc);
    for number in 0..MANY {
        match open(alloc, FaultDevice::new(device, number)) {
            Ok(store) => {
                let _device = store.into_device();
                return number;
            }
            Err((failing, _e)) => device = failing.into_mem(),
        }
    }
    panic!(rt; "opening makes no end")
}

/// A new store on a device that fails in the sync of the second group's gate: each group takes a
/// write and a sync, and these of its gate.
pub(crate) fn failing_store(rt: &impl Abort, alloc: Global) -> Store<FaultDevice> {
    let number = calls_to_open(rt, alloc).saturating_add(7);
    opened(rt, alloc, FaultDevice::new(formatted(rt, alloc), number))
}

/// Sees how many rows a device opens to, and at which place.
pub(crate) fn assert_opens_to<D: Device + Drop>(
    rt: &impl Abort,
    alloc: Global,
    device: D,
    rows: usize,
    place: u64,
) {
    let store = opened(rt, alloc, device);
    assert_same(rt, &store.db().rows().count(), &rows, &"rows");
    assert_same(rt, &store.place(), &place, &"place");
    let _device = store.into_device();
}
