//! The calls that the tests make of a device of four sectors, and the contents of the device after
//! them.
use sector_dev::{DevError, Device, SECTOR};
use std::fmt::Debug;
use test_support::{TestHost, assert_same, assert_true};

/// The number of the calls of `call`.
pub(crate) const CALLS: u64 = 6;

/// One of the calls.
fn call<D: Device>(rt: &impl TestHost, device: &mut D, number: u64) -> Result<(), DevError> {
    assert_true(rt, device.sectors() == 4, "the device has four sectors");
    match number {
        0 => device.write(1, &[0x11; 512]),
        1 => device.sync(),
        2 => device.read(1, &mut [0; 512]),
        3 => device.write(2, &[0x22; 1024]),
        4 => device.write(1, &[0x33; 512]),
        _ => device.sync(),
    }
}

/// Makes one of the calls in a case, and checks whether it succeeds.
pub(crate) fn assert_answer<D: Device, C: Debug>(
    rt: &impl TestHost,
    device: &mut D,
    number: u64,
    is_ok: bool,
    case: &C,
) {
    let answer = call(rt, device, number);
    assert_same(rt, &answer.is_ok(), &is_ok, case);
}

/// Makes one of the calls in a case, checks whether it succeeds, and checks how many faults the
/// device then reports.
pub(crate) fn assert_call<D: Device, C: Debug>(
    rt: &impl TestHost,
    device: &mut D,
    number: u64,
    (is_ok, faults): (bool, u64),
    case: &C,
) {
    assert_answer(rt, device, number, is_ok, case);
    assert_same(rt, &device.faults(), &faults, case);
}

/// Makes all calls in a case, and checks that each succeeds.
pub(crate) fn assert_calls<D: Device, C: Debug>(rt: &impl TestHost, device: &mut D, case: &C) {
    for number in 0..CALLS {
        assert_answer(rt, device, number, true, case);
    }
}

/// Checks in a case that a sector has these two bytes: the first byte, and the byte that all others
/// are.
fn assert_filled<C: Debug>(
    rt: &impl TestHost,
    at: u64,
    bytes: &[u8],
    (first, rest): (u8, u8),
    case: &C,
) {
    for (i, byte) in bytes.iter().enumerate() {
        let wanted = if i == 0 { first } else { rest };
        assert_same(rt, byte, &wanted, &(case, ("sector", at), ("byte", i)));
    }
}

/// Reads a sector, and checks in a case that it has these two bytes.
fn assert_sector<D: Device, C: Debug>(
    rt: &impl TestHost,
    device: &mut D,
    at: u64,
    wanted: (u8, u8),
    case: &C,
) {
    let mut bytes = [0; SECTOR];
    assert_true(rt, at < 4, "the device has the sector");
    assert_true(rt, device.sectors() == 4, "the device has four sectors");
    assert_true(rt, device.read(at, &mut bytes).is_ok(), "it is read");
    assert_filled(rt, at, &bytes, wanted, case);
}

/// Checks in a case that each sector has its two bytes: the first byte, and the byte that all
/// others are.
pub(crate) fn assert_sectors<D: Device, C: Debug>(
    rt: &impl TestHost,
    device: &mut D,
    wanted: [(u8, u8); 4],
    case: &C,
) {
    let [zero, one, two, three] = wanted;
    assert_sector(rt, device, 0, zero, case);
    assert_sector(rt, device, 1, one, case);
    assert_sector(rt, device, 2, two, case);
    assert_sector(rt, device, 3, three, case);
}
