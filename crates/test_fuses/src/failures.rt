//! Scripts run on a device that fails at each of its calls in turn, and openings of what is left
//! that fail again.

use crate::left::{Ending, Left};
use crate::scripts::{Script, fronted, seen};
use sector_dev::{Device, MemDevice, SECTOR};
use std::alloc::Global;
use store_open::{OpenError, Store, open};
use test_fault_devices::{FuseDevice, Tear};
use test_group_scripts::acts::{Act, Line};
use test_group_scripts::noted::{Calls, Noted};
use test_group_scripts::runs::{begun, done, ended};
use test_group_scripts::stores::{bytes_of, opened};
use test_group_scripts::values::calls_device;
use test_support::{TestHost, assert_same, assert_true};

/// More calls of the device than any of these runs makes.
const MANY: u64 = 4000;

/// How a device is made to fail.
pub trait FailingDevices {
    /// Such a device.
    type On: Device;

    /// One over this memory that fails at the call of this number, the first one being number 0.
    fn over(&self, memory: MemDevice, number: u64) -> Self::On;

    /// How many calls were made of it after the first that failed.
    fn late(&self, device: &Self::On) -> u64;

    /// What is there now.
    fn memory(&self, device: Self::On) -> MemDevice;
}

impl FailingDevices for Tear {
    type On = FuseDevice;

    fn over(&self, memory: MemDevice, number: u64) -> FuseDevice {
        FuseDevice::new(memory, number, *self)
    }

    fn late(&self, device: &FuseDevice) -> u64 {
        device.faults().saturating_sub(1)
    }

    fn memory(&self, device: FuseDevice) -> MemDevice {
        device.into_mem()
    }
}

/// The device with this image.
fn restored(rt: &impl TestHost, device: MemDevice, image: &[u8]) -> MemDevice {
    let mut device = device;
    assert_true(rt, image.len() % SECTOR == 0, "whole sectors are written");
    let count = (image.len() / SECTOR) as u64;
    assert_true(rt, count <= device.sectors(), "the device has them");
    assert_true(rt, device.write(0, image).is_ok(), "they are written");
    assert_true(rt, device.sync().is_ok(), "they are synced");
    device
}

/// What is there after a failure, after which no call of the device was made.
fn memory_of<F: FailingDevices>(rt: &impl TestHost, failure: &F, device: F::On) -> MemDevice {
    assert_same(rt, &failure.late(&device), &0, &"calls after a failure");
    failure.memory(device)
}

/// What is there where a store was not opened, and what that may have left.
fn unopened<F: FailingDevices>(
    rt: &impl TestHost,
    script: &Script,
    failure: &F,
    device: F::On,
    e: OpenError,
) -> (Left, MemDevice) {
    assert_same(rt, &e, &OpenError::Device, &"an opening");
    let left = script.none_left().unopened();
    (left, memory_of(rt, failure, device))
}

/// Does the events of a script: what that may leave, and the device.
fn whole_run<D: Device>(
    rt: &impl TestHost,
    alloc: Global,
    script: &Script,
    store: Store<D>,
) -> (Left, D) {
    let held = begun(rt, alloc, store);
    let (held, replies) = done(rt, alloc, held, &script.events);
    assert_same(rt, &replies.len(), &script.events.len(), &"replies");
    let left = seen(rt, script, &replies);
    (left, ended(rt, held))
}

/// Runs a script on a device that fails: what that may leave, and what it left.
fn failing_run<F: FailingDevices>(
    rt: &impl TestHost,
    alloc: Global,
    script: &Script,
    failure: &F,
    device: F::On,
) -> (Left, MemDevice) {
    match open(alloc, device) {
        Ok(store) => {
            let (left, device) = whole_run(rt, alloc, script, store);
            (left, memory_of(rt, failure, device))
        }
        Err((device, e)) => unopened(rt, script, failure, device, e),
    }
}

/// Whether a device has this image.
fn has_image(rt: &impl TestHost, alloc: Global, device: &mut MemDevice, image: &[u8]) -> bool {
    bytes_of(rt, alloc, device, image.len() / SECTOR).as_slice() == image
}

/// Sees that a device opens to this place, unless it has the image that does.
fn opened_alike(
    rt: &impl TestHost,
    alloc: Global,
    script: &Script,
    device: MemDevice,
    (image, place): (&[u8], u64),
) -> MemDevice {
    let mut device = device;
    if has_image(rt, alloc, &mut device, image) {
        return device;
    }
    let store = opened(rt, alloc, device);
    let (_place, device) = fronted(rt, alloc, script, store, (place, place));
    device
}

/// The calls of an opening of a device with this image.
fn calls_of_opening(
    rt: &impl TestHost,
    alloc: Global,
    device: MemDevice,
    image: &[u8],
) -> (Calls, MemDevice) {
    let noted = Noted::over(rt, alloc, restored(rt, device, image));
    opened(rt, alloc, noted).into_device().into_parts()
}

/// The calls of a script's run, its opening among them.
fn calls_of_run(
    rt: &impl TestHost,
    alloc: Global,
    script: &Script,
    device: MemDevice,
) -> (Calls, MemDevice) {
    let noted = Noted::over(rt, alloc, restored(rt, device, &script.image));
    let held = begun(rt, alloc, opened(rt, alloc, noted));
    let (held, _replies) = done(rt, alloc, held, &script.events);
    ended(rt, held).into_parts()
}

/// Has the opening of a device with this image, which opens to this place, fail at the call of this
/// number, and sees that it opens to the same: whether it failed.
fn failing_opening<F: FailingDevices>(
    rt: &impl TestHost,
    alloc: Global,
    script: &Script,
    failure: &F,
    device: MemDevice,
    (image, place): (&[u8], u64),
    number: u64,
) -> (bool, MemDevice) {
    match open(alloc, failure.over(restored(rt, device, image), number)) {
        Ok(store) => {
            let (_place, failing) = fronted(rt, alloc, script, store, (place, place));
            (false, failure.memory(failing))
        }
        Err((failing, e)) => {
            assert_same(rt, &e, &OpenError::Device, &"an opening");
            let rest = memory_of(rt, failure, failing);
            (true, opened_alike(rt, alloc, script, rest, (image, place)))
        }
    }
}

/// Has it fail at those of these calls that the script has tried, one after the other: how many
/// times it failed.
fn tried_openings<F: FailingDevices>(
    rt: &impl TestHost,
    alloc: Global,
    script: &Script,
    failure: &F,
    calls: &Calls,
    device: MemDevice,
    image: (&[u8], u64),
) -> (u64, MemDevice) {
    let mut device = device;
    let mut failures = 0u64;
    for number in 0..MANY {
        if calls.is_tried(number, script.apart) {
            let has_failed;
            (has_failed, device) = failing_opening(
                rt, alloc, script, failure, device, image, number,
            );
            if !has_failed {
                return (failures, device);
            }
            failures = failures.saturating_add(1);
        }
    }
    rt.fail("opening makes no end")
}

/// Has it fail at each of its calls that the script has tried: how many times it failed.
fn failing_openings<F: FailingDevices>(
    rt: &impl TestHost,
    alloc: Global,
    script: &Script,
    failure: &F,
    device: MemDevice,
    image: (&[u8], u64),
) -> (u64, MemDevice) {
    let (calls, device) = calls_of_opening(rt, alloc, device, image.0);
    tried_openings(rt, alloc, script, failure, &calls, device, image)
}

/// Sees that no event from one number up to another makes a call of the device.
fn assert_none_calls(rt: &impl TestHost, lines: &[Line], from: usize, to: usize) {
    for (number, line) in lines.iter().enumerate() {
        if from <= number && number < to {
            assert_same(rt, &calls_device(*line), &false, &number);
        }
    }
}

/// Sees that a failure is in the next event that calls the device, where the ones before it were
/// before this event: the event after it. Beginning a checkpoint makes several calls, and each
/// other step one.
fn next_event(rt: &impl TestHost, lines: &[Line], next: usize, ending: Ending) -> usize {
    match ending {
        Ending::Unopened => {
            assert_same(rt, &next, &0, &"an opening is first");
            0
        }
        Ending::Whole => {
            assert_none_calls(rt, lines, next, lines.len());
            lines.len()
        }
        Ending::Failed(number) => {
            assert_next(rt, lines, next, number);
            assert_none_calls(rt, lines, next, number);
            number.saturating_add(1)
        }
    }
}

/// Sees that the event of this number is not before the next one; it may be that of beginning a
/// checkpoint again.
fn assert_next(rt: &impl TestHost, lines: &[Line], next: usize, number: usize) {
    let behind = number.saturating_add(1);
    let is_begin = matches!(lines.get(number), Some((Act::Begin, _)));
    let is_next = next < behind || (next == behind && is_begin);
    assert_same(rt, &is_next, &true, &(next, number));
}

/// What a run left on a device.
#[derive(Drop)]
struct Image {
    /// The bytes of the script's sectors.
    bytes: Vec<u8>,
    /// The place to which the device opened.
    place: u64,
    /// The device, as opening it left it.
    device: MemDevice,
}

/// What a run left on a device, which opens to a place in these bounds.
fn opened_image(
    rt: &impl TestHost,
    alloc: Global,
    script: &Script,
    device: MemDevice,
    bounds: (u64, u64),
) -> Image {
    let mut device = device;
    let bytes = bytes_of(rt, alloc, &mut device, script.sectors());
    let store = opened(rt, alloc, device);
    let (place, device) = fronted(rt, alloc, script, store, bounds);
    Image {
        bytes,
        place,
        device,
    }
}

/// Has a script's run fail at the call of this number: what that may leave, and what it left.
fn left_by<F: FailingDevices>(
    rt: &impl TestHost,
    alloc: Global,
    script: &Script,
    failure: &F,
    device: MemDevice,
    number: u64,
) -> (Left, Image) {
    let failing = failure.over(restored(rt, device, &script.image), number);
    let (left, rest) = failing_run(rt, alloc, script, failure, failing);
    (left, opened_image(rt, alloc, script, rest, left.bounds()))
}

/// Has the openings of an image fail, unless the one before it has the same bytes: how many times
/// they failed.
fn opened_again<F: FailingDevices>(
    rt: &impl TestHost,
    alloc: Global,
    script: &Script,
    failure: &F,
    before: &[u8],
    image: Image,
) -> (u64, Image) {
    let Image {
        bytes,
        place,
        device,
    } = image;
    let (failures, device) = if bytes.as_slice() == before {
        (0, device)
    } else {
        failing_openings(rt, alloc, script, failure, device, (&bytes, place))
    };
    let image = Image {
        bytes,
        place,
        device,
    };
    (failures, image)
}

/// How many runs and openings failed.
#[derive(Clone, Copy)]
struct Failures {
    runs: u64,
    openings: u64,
    /// The number of the event after the one in which the device failed last.
    next: usize,
    /// No run is to fail any more.
    is_whole: bool,
}

/// None failed.
const NONE_FAILED: Failures = Failures {
    runs: 0,
    openings: 0,
    next: 0,
    is_whole: false,
};

/// Has a script's run fail at the call of this number, and the openings of the image that it
/// leaves.
fn failing_at<F: FailingDevices>(
    rt: &impl TestHost,
    alloc: Global,
    script: &Script,
    failure: &F,
    before: Image,
    failures: Failures,
    number: u64,
) -> (Image, Failures) {
    let Image { bytes, device, .. } = before;
    let (left, image) = left_by(rt, alloc, script, failure, device, number);
    let next = next_event(rt, &script.lines, failures.next, left.ending);
    if left.ending == Ending::Whole {
        let failures = Failures {
            is_whole: true,
            ..failures
        };
        return (image, failures);
    }
    let (openings, image) = opened_again(rt, alloc, script, failure, &bytes, image);
    let failures = Failures {
        runs: failures.runs.saturating_add(1),
        openings: failures.openings.saturating_add(openings),
        next,
        ..failures
    };
    (image, failures)
}

/// Has it fail at those of these calls that the script has tried, one after the other. An image
/// that is left twice in a row is opened with failures once.
fn tried_runs<F: FailingDevices>(
    rt: &impl TestHost,
    alloc: Global,
    script: &Script,
    failure: &F,
    calls: &Calls,
    before: Image,
) -> Failures {
    let mut image = before;
    let mut failures = NONE_FAILED;
    for number in 0..MANY {
        if calls.is_tried(number, script.apart) {
            (image, failures) = failing_at(rt, alloc, script, failure, image, failures, number);
            if failures.is_whole {
                return failures;
            }
        }
    }
    rt.fail("the run makes no end")
}

/// Has a script's run fail at each of its calls of the device that the script has tried, and the
/// openings of each image that it leaves. There are some of both.
pub fn assert_fronts<F: FailingDevices>(
    rt: &impl TestHost,
    alloc: Global,
    script: &Script,
    failure: &F,
) {
    let (calls, device) = calls_of_run(rt, alloc, script, script.device(rt, alloc));
    let before = Image {
        bytes: Vec::new(alloc),
        place: 0,
        device,
    };
    let failures = tried_runs(rt, alloc, script, failure, &calls, before);
    assert_true(rt, failures.runs > 0, "a run failed");
    assert_true(rt, failures.openings > 0, "an opening failed");
}
