//! Stores on devices in memory.

use crate::server::checks::{assert_same, assert_true};
use path_db::{Command, PathDb, Registration};
use sector_dev::{Device, MemDevice};
use seg_core::{SegType, read_segment};
use std::alloc::Global;
use std::process::Abort;
use store_layout::{LEAST_CHECKPOINT, LEAST_JOURNAL};
use store_open::{CopyError, Geometry, OpenError, Store, format, format_with, open};
use test_fault_devices::FaultDevice;
use test_support::leaving_by;

/// The least sizes that are allowed: there is room for ten rows of the segments here, which take 93
/// bytes each.
pub(crate) const LEAST: Geometry = Geometry {
    checkpoint: LEAST_CHECKPOINT,
    journal: LEAST_JOURNAL,
};

/// More calls of a device than its opening makes.
const MANY: u64 = 1000;

/// A new store of these sizes. Where memory is refused, it is asked for once more.
pub(crate) fn formatted(rt: &impl Abort, alloc: Global, geometry: Geometry) -> MemDevice {
    let sectors = geometry.sectors();
    assert_true(rt, sectors <= 4096, "the device is small");
    let made = match MemDevice::new(alloc, sectors) {
        Err(_) => MemDevice::new(alloc, sectors),
        made => made,
    };
    let mut device = made.expect(rt, "the device has memory");
    assert_same(rt, &format(&mut device, geometry), &Ok(()), &"format");
    device
}

/// The place of a store with rows that have expired.
pub(crate) const EXPIRED_PLACE: u64 = 5;

/// This number of rows, which all expired at the same time in November 2023: the worked segment, as
/// if it left its first AS by the interfaces 1, 2 and so on. The result is `None` where memory is
/// refused.
fn expired_rows(alloc: Global, count: u8) -> Option<PathDb> {
    let mut rows = Vec::new(alloc);
    for egress in 1..=count {
        let segment = read_segment(alloc, &leaving_by(egress)).ok()?;
        rows.push((SegType::Down, segment)).ok()?;
    }
    let mut db = PathDb::new(alloc);
    let _outcome = db.apply(&Command::Register(Registration::new(rows))).ok()?;
    Some(db)
}

/// A store of these rows at that place. Where memory is refused, it is asked for once more.
pub(crate) fn of_expired_rows(rt: &impl Abort, alloc: Global, count: u8) -> MemDevice {
    let rows = match expired_rows(alloc, count) {
        None => expired_rows(alloc, count),
        rows => rows,
    };
    let rows = rows.expect(rt, "the rows have memory");
    let mut device = formatted(rt, alloc, LEAST);
    let made = match format_with(alloc, &mut device, LEAST, &rows, EXPIRED_PLACE) {
        Err(CopyError::NoMemory) => format_with(alloc, &mut device, LEAST, &rows, EXPIRED_PLACE),
        made => made,
    };
    assert_same(rt, &made, &Ok(()), &"copy");
    device
}

/// Opens a device. Where memory is refused, it is tried once more.
fn open_again<D: Device>(alloc: Global, device: D) -> Result<Store<D>, (D, OpenError)> {
    match open(alloc, device) {
        Err((device, OpenError::NoMemory)) => open(alloc, device),
        answer => answer,
    }
}

/// Opens a device that opens. Where memory is refused, it is tried once more.
pub(crate) fn opened<D: Device>(rt: &impl Abort, alloc: Global, device: D) -> Store<D> {
    match open_again(alloc, device) {
        Ok(store) => store,
        Err((_device, e)) => panic!(rt; "{e:?}"),
    }
}

/// How many bytes a row has.
const ROW: u64 = 93;

/// Sees that a device opens to this number of rows, at this place.
pub(crate) fn assert_opens_to<D: Device>(
    rt: &impl Abort,
    alloc: Global,
    device: D,
    rows: usize,
    place: u64,
) -> D {
    let store = opened(rt, alloc, device);
    let database = store.db();
    assert_same(rt, &database.rows().count(), &rows, &"rows");
    let bytes = ROW.saturating_mul(rows as u64);
    assert_same(rt, &database.encoded_len(), &bytes, &"bytes");
    assert_same(rt, &store.place(), &place, &"place");
    store.into_device()
}

/// Whether a new store opens on a device that fails in the call of this number.
fn opens(rt: &impl Abort, alloc: Global, number: u64) -> bool {
    let device = formatted(rt, alloc, LEAST);
    match open(alloc, FaultDevice::new(device, number)) {
        Ok(store) => {
            let _device = store.into_device();
            true
        }
        Err((_device, _e)) => false,
    }
}

/// How many calls of the device it takes to open a new store.
fn calls_to_open(rt: &impl Abort, alloc: Global) -> u64 {
    for number in 0..MANY {
        if opens(rt, alloc, number) {
            return number;
        }
    }
    panic!(rt; "opening makes no end")
}

/// A new store on a device that fails, once the store was opened, in the sync of the second group's
/// gate: each group takes a write and a sync, and these of its gate.
pub(crate) fn failing(rt: &impl Abort, alloc: Global) -> FaultDevice {
    let number = calls_to_open(rt, alloc).saturating_add(7);
    FaultDevice::new(formatted(rt, alloc, LEAST), number)
}
