//! Stores that are not made or upgraded: sizes that are refused, and devices that fail.

use crate::checks::{assert_same, assert_true};
use crate::commands::{LEAST, SECTORS, formatted_old};
use crate::writers::{Room, assert_text, with_room};
use cli_store::{Fault, format, upgrade};
use sector_dev::{Device, MemDevice};
use std::alloc::Global;
use std::process::Abort;
use std::test::Fail;
use store_open::{FormatError, Geometry, OpenError, StoreError};
use test_fault_devices::FaultDevice;

// Sizes in sectors of a device and of a store's regions, of which no store is made on it, and why.
#[derive(Clone, Copy, Debug)]
struct NoStore {
    checkpoint: u32,
    journal: u32,
    sectors: u64,
    why: FormatError,
}

const BAD_SIZE: FormatError = FormatError::BadGeometry;

const TOO_SMALL: FormatError = FormatError::TooSmall;

#[rattlefmt::skip]
const NO_STORES: [NoStore; 6] = [
    NoStore { checkpoint: 1, journal: 516, sectors: SECTORS, why: BAD_SIZE },
    NoStore { checkpoint: 2, journal: 515, sectors: SECTORS, why: BAD_SIZE },
    NoStore { checkpoint: 1_048_577, journal: 516, sectors: SECTORS, why: BAD_SIZE },
    NoStore { checkpoint: 2, journal: 1_048_577, sectors: SECTORS, why: BAD_SIZE },
    NoStore { checkpoint: 2, journal: 516, sectors: SECTORS - 1, why: TOO_SMALL },
    NoStore { checkpoint: 3, journal: 516, sectors: SECTORS, why: TOO_SMALL },
];

// Makes a store: the answer.
fn format_answer<D: Device>(
    alloc: Global,
    device: &mut D,
    geometry: Geometry,
    output: &mut Room,
) -> Result<(), Fault> {
    format(alloc, device, geometry, output)
}

// Sees in a case why no store is made on a device, and that nothing is printed.
fn assert_not_formatted(rt: &impl Abort, alloc: Global, device: &mut MemDevice, case: NoStore) {
    let mut output = with_room(alloc, 100);
    let geometry = Geometry {
        checkpoint: case.checkpoint,
        journal: case.journal,
    };
    let answer = format_answer(alloc, device, geometry, &mut output);
    assert_same(rt, &answer, &Err(Fault::Format(case.why)), &case);
    assert_text(rt, &output, "", &case);
}

#[test]
fn sizes_that_are_not_allowed(rt: HostRuntime) -> Result<(), Fail> {
    for case in NO_STORES {
        let mut device = MemDevice::new(rt.alloc(), case.sectors)?;
        assert_not_formatted(&rt, rt.alloc(), &mut device, case);
    }
    Ok(())
}

// Above the number of calls that a command makes to a device here.
const MANY: u64 = 100;

// Makes a store on a device of which the call of this number may fail: whether none fails. Sees
// what is printed.
fn formats(rt: &impl Abort, alloc: Global, device: &mut FaultDevice, number: u64) -> bool {
    let mut output = with_room(alloc, 100);
    let answer = format_answer(alloc, device, LEAST, &mut output);
    let is_formatted = answer.is_ok();
    let failed = Err(Fault::Format(FormatError::Fault));
    let wanted = if is_formatted { Ok(()) } else { failed };
    assert_same(rt, &answer, &wanted, &number);
    let printed = if is_formatted {
        "formatted 1039 sectors\n"
    } else {
        ""
    };
    assert_text(rt, &output, printed, &number);
    is_formatted
}

// Makes a store on a device of which the call of this number fails: whether none does. The device
// is formatted again after a fault.
fn is_formatted(rt: &impl Abort, alloc: Global, number: u64) -> Result<bool, Fail> {
    let mut device = FaultDevice::new(MemDevice::new(alloc, SECTORS)?, number);
    let is_formatted = formats(rt, alloc, &mut device, number);
    if !is_formatted {
        let again = formats(rt, alloc, &mut device, number);
        assert_same(rt, &again, &true, &number);
    }
    Ok(is_formatted)
}

#[test]
fn failing_devices_are_formatted_again(rt: HostRuntime) -> Result<(), Fail> {
    let mut failed = 0u64;
    for number in 0..MANY {
        if is_formatted(&rt, rt.alloc(), number)? {
            break;
        }
        failed = number + 1;
    }
    assert_true(&rt, 0 < failed && failed < MANY, "some calls fail");
    Ok(())
}

// Has a store in the version that is written: the answer, and the device.
fn upgrade_answer<D: Device>(
    alloc: Global,
    device: D,
    output: &mut Room,
) -> (Result<(), Fault>, D) {
    match upgrade(alloc, device, output) {
        Ok(device) => (Ok(()), device),
        Err((device, fault)) => (Err(fault), device),
    }
}

// The same. Sees what is printed.
fn upgraded_once<D: Device>(
    rt: &impl Abort,
    alloc: Global,
    device: D,
    number: u64,
) -> (Result<(), Fault>, D) {
    let mut output = with_room(alloc, 100);
    let (answer, device) = upgrade_answer(alloc, device, &mut output);
    let printed = if answer.is_ok() { "version 2\n" } else { "" };
    assert_text(rt, &output, printed, &number);
    (answer, device)
}

// Has a store of version 1 upgraded whose device fails at the call of this number: what it
// answered. It is upgraded again after that.
fn upgraded(rt: &impl Abort, alloc: Global, number: u64) -> Result<Result<(), Fault>, Fail> {
    let failing = FaultDevice::new(formatted_old(alloc)?, number);
    let (answer, device) = upgraded_once(rt, alloc, failing, number);
    let (again, _device) = upgraded_once(rt, alloc, device.into_mem(), number);
    assert_same(rt, &again, &Ok(()), &number);
    Ok(answer)
}

// Faults of the opening come first, and then those of the checkpoint.
#[test]
fn failing_devices_are_upgraded_again(rt: HostRuntime) -> Result<(), Fail> {
    let opening = Err(Fault::Open(OpenError::Device));
    let checkpoint = Err(Fault::Checkpoint(StoreError::Fault));
    let mut last = opening;
    for number in 0..MANY {
        let answer = upgraded(&rt, rt.alloc(), number)?;
        let is_next = answer == last || (last, answer) == (opening, checkpoint);
        if answer.is_ok() {
            break;
        }
        assert_same(&rt, &is_next, &true, &number);
        last = answer;
    }
    assert_same(&rt, &last, &checkpoint, &"last");
    Ok(())
}
