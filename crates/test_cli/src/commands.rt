//! Commands over a device in memory: outputs that are full, devices that fail, and refused memory.

use crate::checks::{assert_same, assert_true};
use crate::writers::{Room, assert_text, with_memory, with_room};
use cli_store::{Fault, format, show, status};
use row_lines::RowForm;
use sector_dev::{Device, MemDevice, SECTOR};
use std::alloc::Global;
use std::process::Abort;
use std::test::Fail;
use store_layout::{LEAST_CHECKPOINT, LEAST_JOURNAL};
use store_open::{Geometry, OpenError};
use test_fault_devices::FaultDevice;

// The least sizes that are allowed: a store of them takes 1,039 sectors.
pub(crate) const LEAST: Geometry = Geometry {
    checkpoint: LEAST_CHECKPOINT,
    journal: LEAST_JOURNAL,
};

pub(crate) const SECTORS: u64 = 1039;

// A new store.
pub(crate) fn formatted(alloc: Global) -> Result<MemDevice, Fail> {
    let mut device = MemDevice::new(alloc, SECTORS)?;
    format(alloc, &mut device, LEAST, &mut with_memory(alloc, 100)?)?;
    Ok(device)
}

// A new store of version 1.
pub(crate) fn formatted_old(alloc: Global) -> Result<MemDevice, Fail> {
    let mut device = formatted(alloc)?;
    let mut area = read_sector(&mut device, 1);
    area[7] = 1;
    if 1 < device.sectors() {
        device.write(1, &area)?;
    }
    Ok(device)
}

// Prints the rows of a store: the answer, and the device.
fn shown<D: Device>(alloc: Global, device: D, output: &mut Room) -> (Result<(), Fault>, D) {
    match show(alloc, device, RowForm::Text, output) {
        Ok(device) => (Ok(()), device),
        Err((device, fault)) => (Err(fault), device),
    }
}

// A sector that the device has; zeros where the read fails.
fn read_sector(device: &mut MemDevice, at: u64) -> [u8; 512] {
    let mut sector = [0; SECTOR];
    if at < device.sectors() && device.read(at, &mut sector).is_err() {
        return [0; SECTOR];
    }
    sector
}

// Sees that an output of this number of bytes has the front of what is printed, by this fault.
fn assert_full(rt: &impl Abort, answer: Result<(), Fault>, output: &Room, front: &[u8]) {
    assert_same(rt, &answer, &Err(Fault::Output), &front.len());
    assert_same(rt, &output.taken.as_slice(), &front, &front.len());
}

// Sees that the rows of a new store are printed as far as the output has room.
fn assert_front(rt: &impl Abort, alloc: Global, front: &[u8]) -> Result<(), Fail> {
    let device = formatted(alloc)?;
    let mut output = with_room(alloc, front.len());
    let (answer, _device) = shown(alloc, device, &mut output);
    assert_full(rt, answer, &output, front);
    Ok(())
}

#[test]
fn full_writers_have_a_front(rt: HostRuntime) -> Result<(), Fail> {
    for room in 0..8 {
        assert_front(&rt, rt.alloc(), b"place 0\n".split_at(room).0)?;
    }
    Ok(())
}

// Prints the rows of a store whose device fails at the call of this number, and then the rows of
// the device below: both answers.
fn shown_twice(
    alloc: Global,
    number: u64,
    output: &mut Room,
) -> Result<(Result<(), Fault>, Result<(), Fault>), Fail> {
    let failing = FaultDevice::new(formatted(alloc)?, number);
    let (first, device) = shown(alloc, failing, output);
    let (second, _device) = shown(alloc, device.into_mem(), output);
    Ok((first, second))
}

// Sees that a device that fails at the call of this number is reported, and that nothing is printed
// then.
fn assert_reported(rt: &impl Abort, alloc: Global, number: u64) -> Result<(), Fail> {
    let mut output = with_room(alloc, 100);
    let (first, second) = shown_twice(alloc, number, &mut output)?;
    assert_same(rt, &first, &Err(Fault::Open(OpenError::Device)), &number);
    assert_same(rt, &second, &Ok(()), &number);
    assert_text(rt, &output, "place 0\n", &number);
    Ok(())
}

#[test]
fn devices_that_fail_are_reported(rt: HostRuntime) -> Result<(), Fail> {
    for number in 0..4 {
        assert_reported(&rt, rt.alloc(), number)?;
    }
    Ok(())
}

// The status of a new store, counted by hand: its areas take 2 * 512 - 32 bytes of rows.
const NEW_STATUS: &str = "\
version 2
epoch 1
place 0
rows 0
bytes 0 of 992
journal 0 of 516
sealed no
";

// Prints the status of a store: the answer.
fn status_of<D: Device>(alloc: Global, device: &mut D, output: &mut Room) -> Result<(), Fault> {
    status(alloc, device, output)
}

// Sees that the status of a new store is printed as far as the output has room.
fn assert_status_front(rt: &impl Abort, alloc: Global, device: &mut MemDevice, front: &[u8]) {
    let mut output = with_room(alloc, front.len());
    let answer = status_of(alloc, device, &mut output);
    assert_full(rt, answer, &output, front);
}

#[test]
fn full_writers_have_a_front_of_a_status(rt: HostRuntime) -> Result<(), Fail> {
    let mut device = formatted(rt.alloc())?;
    for room in 0..NEW_STATUS.len() {
        let front = NEW_STATUS.as_bytes().split_at(room).0;
        assert_status_front(&rt, rt.alloc(), &mut device, front);
    }
    Ok(())
}

// Sees what the status of a device answers, and what is printed of it.
fn assert_status<D: Device>(
    rt: &impl Abort,
    alloc: Global,
    device: &mut D,
    wanted: Result<(), Fault>,
    printed: &str,
) {
    let mut output = with_room(alloc, 200);
    let answer = status_of(alloc, device, &mut output);
    assert_same(rt, &answer, &wanted, &printed);
    assert_text(rt, &output, printed, &"status");
}

// Sees that a device that fails at the call of this number has no status, and that the one below
// has one.
fn assert_status_again(rt: &impl Abort, alloc: Global, number: u64) -> Result<(), Fail> {
    let mut failing = FaultDevice::new(formatted(alloc)?, number);
    let refused = Err(Fault::Open(OpenError::Device));
    assert_status(rt, alloc, &mut failing, refused, "");
    let mut device = failing.into_mem();
    assert_status(rt, alloc, &mut device, Ok(()), NEW_STATUS);
    Ok(())
}

#[test]
fn statuses_of_devices_that_fail(rt: HostRuntime) -> Result<(), Fail> {
    for number in 0..4 {
        assert_status_again(&rt, rt.alloc(), number)?;
    }
    Ok(())
}

// Whether the status of a new store is printed. Nothing is where memory is refused.
fn is_printed(rt: &impl Abort, alloc: Global, device: &mut MemDevice) -> Result<bool, Fail> {
    let mut output = with_memory(alloc, 200)?;
    let answer = status_of(alloc, device, &mut output);
    let has_memory = answer != Err(Fault::Memory);
    let wanted = if has_memory {
        Ok(())
    } else {
        Err(Fault::Memory)
    };
    assert_same(rt, &answer, &wanted, &"status");
    let printed = if has_memory { NEW_STATUS } else { "" };
    assert_text(rt, &output, printed, &"status");
    Ok(has_memory)
}

// The test is run with each of its allocations refused in turn. At most one is, so that of two
// statuses one is printed.
#[test]
fn refused_memory_of_a_status(rt: HostRuntime) -> Result<(), Fail> {
    let alloc = rt.alloc();
    let mut device = formatted(alloc)?;
    let first = is_printed(&rt, alloc, &mut device)?;
    let second = is_printed(&rt, alloc, &mut device)?;
    assert_true(&rt, first || second, "one of two statuses is printed");
    Ok(())
}
