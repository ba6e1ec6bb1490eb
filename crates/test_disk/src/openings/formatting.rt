//! New stores, to the byte.
use crate::checks::done;
use crate::host::Host;
use crate::openings::stores::LEAST;
use sector_dev::{Device, MemDevice, SECTOR};
use std::alloc::Global;
use std::fmt::Debug;
use std::test::Fail;
use store_open::FormatError::{self, BadGeometry, TooSmall};
use store_open::{Geometry, format, read_geometry};
use test_fault_devices::FaultDevice;
use test_support::{TestHost, assert_same, assert_true};

// How many calls of the device it takes to make a store.
const CALLS: u64 = 7;

// How the sectors of a new store that are not zero begin; all after these bytes is zero.
const BEGINNINGS: [(u64, &[u8]); 3] = [
    (
        0,
        b"SCPATHDB\x00\x00\x00\x01\x00\x00\x00\x02\x00\x00\x02\x04",
    ),
    (1, b"PCKP\x00\x00\x00\x02\x00\x00\x00\x00\x00\x00\x00\x01"),
    (3, b"\xa7"),
];

/// Sizes, how many sectors a device has, and the refusal.
#[derive(Clone, Copy)]
struct Refused {
    name: &'static str,
    sizes: Geometry,
    sectors: u32,
    error: FormatError,
}

#[rattlefmt::skip]
const REFUSALS: [Refused; 8] = [
    Refused { name: "a small checkpoint area",
        sizes: Geometry { checkpoint: 1, journal: 516 }, sectors: 8192, error: BadGeometry },
    Refused { name: "a small journal",
        sizes: Geometry { checkpoint: 2, journal: 515 }, sectors: 8192, error: BadGeometry },
    Refused { name: "a large checkpoint area",
        sizes: Geometry { checkpoint: 1_048_577, journal: 516 }, sectors: 8192,
        error: BadGeometry },
    Refused { name: "a large journal",
        sizes: Geometry { checkpoint: 2, journal: 1_048_577 }, sectors: 8192, error: BadGeometry },
    Refused { name: "no area and no journal, on a device without sectors",
        sizes: Geometry { checkpoint: 0, journal: 0 }, sectors: 0, error: BadGeometry },
    Refused { name: "a sector too few for the least sizes",
        sizes: Geometry { checkpoint: 2, journal: 516 }, sectors: 1038, error: TooSmall },
    Refused { name: "the least sizes on a device without sectors",
        sizes: Geometry { checkpoint: 2, journal: 516 }, sectors: 0, error: TooSmall },
    Refused { name: "the greatest sizes",
        sizes: Geometry { checkpoint: 1_048_576, journal: 1_048_576 }, sectors: 8192,
        error: TooSmall },
];

// Reads a sector that the device has.
fn read_sector<D: Device>(device: &mut D, at: u64) -> Option<[u8; 512]> {
    let mut sector = [0; SECTOR];
    if device.sectors() <= at || device.read(at, &mut sector).is_err() {
        return None;
    }
    Some(sector)
}

// The sector as it is in a new store.
fn new_sector(at: u64) -> [u8; 512] {
    let mut sector = [0; SECTOR];
    for (place, beginning) in BEGINNINGS {
        if place == at {
            for (byte, wanted) in sector.iter_mut().zip(beginning) {
                *byte = *wanted;
            }
        }
    }
    sector
}

// Makes a store, and checks its sizes.
fn assert_formatted<C: Debug>(rt: &impl TestHost, device: &mut MemDevice, case: &C) {
    assert_same(rt, &format(device, LEAST), &Ok(()), case);
    let sizes = read_geometry(device).ok();
    assert_same(rt, &sizes, &Some(Some(LEAST)), case);
}

// Checks that a device has the bytes of a new store.
fn assert_new(rt: &impl TestHost, device: &mut MemDevice) {
    for at in 0..1039 {
        let sector = read_sector(device, at);
        assert_same(rt, &sector, &Some(new_sector(at)), &at);
    }
}

#[test]
fn a_new_store_has_these_bytes(rt: HostRuntime) -> Result<(), Fail> {
    let host = Host(&rt);
    let mut device = MemDevice::new(rt.alloc(), 1039)?;
    assert_formatted(&host, &mut device, &"a new store");
    assert_same(&host, &LEAST.sectors(), &1039, &"sectors");
    assert_new(&host, &mut device);
    Ok(())
}

// Checks that no store of these sizes is made on such a device.
fn assert_refused(rt: &impl TestHost, device: &mut MemDevice, row: &Refused) {
    let made = format(device, row.sizes);
    assert_same(rt, &made, &Err(row.error), &row.name);
    let found = read_geometry(device).ok();
    assert_same(rt, &found, &Some(None), &row.name);
}

#[test]
fn sizes_and_devices_are_refused(rt: HostRuntime) -> Result<(), Fail> {
    let host = Host(&rt);
    for row in &REFUSALS {
        let mut device = MemDevice::new(rt.alloc(), u64::from(row.sectors))?;
        assert_refused(&host, &mut device, row);
    }
    Ok(())
}

// A device of which this call fails.
fn failing_device(alloc: Global, failing: u64) -> Result<FaultDevice, Fail> {
    Ok(FaultDevice::new(MemDevice::new(alloc, 1039)?, failing))
}

// Makes a store on a device of which this call fails, and then on the same one while no call fails.
fn assert_fault(rt: &impl TestHost, alloc: Global, failing: u64) -> Result<(), Fail> {
    let mut device = failing_device(alloc, failing)?;
    let made = format(&mut device, LEAST);
    assert_same(rt, &made, &Err(FormatError::Fault), &failing);
    assert_formatted(rt, &mut device.into_mem(), &failing);
    Ok(())
}

// Makes a store on a device of which the call after that fails.
fn assert_later_fault(rt: &impl TestHost, device: &mut FaultDevice) {
    let made = format(device, LEAST);
    assert_same(rt, &made, &Ok(()), &"no call fails");
    let is_told = read_geometry(device).is_err();
    assert_true(rt, is_told, "the sizes are not read");
}

#[test]
fn a_fault_at_any_call_is_told(rt: HostRuntime) {
    let host = Host(&rt);
    for failing in 0..CALLS {
        done(&rt, assert_fault(&host, rt.alloc(), failing));
    }
    let mut device = done(&rt, failing_device(rt.alloc(), CALLS));
    assert_later_fault(&host, &mut device);
}

#[test]
fn errors_have_numbers_and_texts(rt: HostRuntime) -> Result<(), Fail> {
    let host = Host(&rt);
    let table = [
        (FormatError::BadGeometry, "1 the sizes are not allowed"),
        (FormatError::TooSmall, "2 the device is too small"),
        (FormatError::Fault, "3 the device failed"),
    ];
    for (error, wanted) in table {
        let text = format!(in rt.alloc(); "{} {error}", error as u8)?;
        assert_same(&host, &text.as_str(), &wanted, &error);
    }
    Ok(())
}
