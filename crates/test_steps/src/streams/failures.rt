//! Calls of the device that fail while a checkpoint of several pieces is begun and written, each of
//! them in turn.

use crate::host::Host;
use crate::streams::large_rows::{LARGE_CONTENTS, large_half};
use group_core::{BeginError, Prepared};
use sector_dev::MemDevice;
use std::alloc::Global;
use std::process::Abort;
use std::test::Fail;
use store_open::{OpenError, open};
use test_fault_devices::FaultDevice;
use test_group_scripts::stores::assert_opens_to;
use test_group_scripts::work::{Round, Told, Work, assert_stopped, assert_told, work_of};
use test_support::{TestHost, assert_same};

/// More calls than an opening and the writing of a checkpoint make.
const MANY: u64 = 200;

/// More chunks than the checkpoint has.
const CHUNKS: usize = 8;

/// In which call the device failed.
#[derive(Clone, Copy)]
enum Failed {
    Opening,
    Prepare,
    Begin,
    Chunk,
    None,
}

/// Begins a checkpoint of a device of which the call of this number fails, after all pieces of it
/// or none are prepared, and writes it up to its last sector: where the device failed. A state of
/// which it did has stopped.
fn failed_at(
    rt: &Host<impl Abort>,
    alloc: Global,
    device: MemDevice,
    number: u64,
    is_prepared: bool,
) -> (Failed, MemDevice) {
    match open(alloc, FaultDevice::new(device, number)) {
        Ok(store) => made(rt, work_of(rt, alloc, store), is_prepared),
        Err((device, e)) => {
            assert_same(rt, &e, &OpenError::Device, &number);
            (Failed::Opening, device.into_mem())
        }
    }
}

/// Begins a checkpoint, after all pieces of it or none are prepared, and writes it up to its last
/// sector.
fn made(rt: &Host<impl Abort>, work: Work<FaultDevice>, is_prepared: bool) -> (Failed, MemDevice) {
    if is_prepared {
        return prepared(rt, work);
    }
    begun(rt, work)
}

/// Prepares all pieces of a checkpoint, begins it, and writes it up to its last sector.
fn prepared(rt: &Host<impl Abort>, work: Work<FaultDevice>) -> (Failed, MemDevice) {
    let mut work = work;
    for _piece in 0..MANY {
        match work.state.prepare() {
            Ok(Prepared::Part) => {}
            Ok(Prepared::Whole) => return begun(rt, work),
            Err(refusal) => {
                assert_same(rt, &refusal, &BeginError::Fault, &"a piece");
                return (Failed::Prepare, assert_stopped(rt, work).into_mem());
            }
        }
    }
    rt.fail("the pieces make no end")
}

/// Begins a checkpoint and writes it up to its last sector.
fn begun(rt: &Host<impl Abort>, work: Work<FaultDevice>) -> (Failed, MemDevice) {
    let (work, told) = work.check(rt);
    if told == Told::Done {
        return written(rt, work);
    }
    assert_told(rt, told, Told::Begin(BeginError::Fault));
    (Failed::Begin, assert_stopped(rt, work).into_mem())
}

/// Whether all sectors of the checkpoint are written.
fn is_whole(work: &Work<FaultDevice>) -> bool {
    match &work.round {
        Round::Plan(plan) => plan.is_done(),
        _ => false,
    }
}

/// Writes a checkpoint up to its last sector.
fn written(rt: &Host<impl Abort>, work: Work<FaultDevice>) -> (Failed, MemDevice) {
    let mut work = work;
    for _chunk in 0..CHUNKS {
        if is_whole(&work) {
            break;
        }
        let told;
        (work, told) = work.check(rt);
        if told != Told::Done {
            assert_told(rt, told, Told::Fault);
            return (Failed::Chunk, assert_stopped(rt, work).into_mem());
        }
    }
    (Failed::None, work.ends(rt, LARGE_CONTENTS).into_mem())
}

/// How many calls of a state fail, each of them in a run of its own.
#[derive(Clone, Copy, Debug, PartialEq, Eq)]
struct Calls {
    /// How many calls of `prepare` fail.
    prepares: u64,
    /// How many calls of `begin` fail.
    begins: u64,
    /// How many calls of `write_chunk` fail.
    chunks: u64,
}

/// None fails.
const NONE: Calls = Calls {
    prepares: 0,
    begins: 0,
    chunks: 0,
};

impl Calls {
    /// These calls, with one more that failed.
    fn with(self, failed: Failed) -> Calls {
        match failed {
            Failed::Prepare => Calls {
                prepares: self.prepares.saturating_add(1),
                ..self
            },
            Failed::Begin => Calls {
                begins: self.begins.saturating_add(1),
                ..self
            },
            Failed::Chunk => Calls {
                chunks: self.chunks.saturating_add(1),
                ..self
            },
            Failed::Opening | Failed::None => self,
        }
    }
}

/// Has the call of this number fail: where it did, and the device, which opens to the same.
fn failed_alike(
    rt: &Host<impl Abort>,
    alloc: Global,
    device: MemDevice,
    number: u64,
    is_prepared: bool,
) -> (Failed, MemDevice) {
    let (failed, device) = failed_at(rt, alloc, device, number, is_prepared);
    (failed, assert_opens_to(rt, alloc, device, LARGE_CONTENTS))
}

/// How many calls fail in turn.
fn failures(rt: &Host<impl Abort>, alloc: Global, device: MemDevice, is_prepared: bool) -> Calls {
    let mut device = device;
    let mut calls = NONE;
    for number in 0..MANY {
        let failed;
        (failed, device) = failed_alike(rt, alloc, device, number, is_prepared);
        calls = calls.with(failed);
        if matches!(failed, Failed::None) {
            return calls;
        }
    }
    rt.fail("the calls make no end")
}

/// Of `begin`: the front, a group's gate, its first sector and its payload, the gate and the sector
/// of the seal, the 641 sectors of the old area in eleven pieces, and then two pieces of it again
/// for the first 256 sectors: rows that are kept together, four and then one. Of two chunks: two
/// writes, and between them two pieces of the old area, with two rows each.
const FAILED: Calls = Calls {
    prepares: 0,
    begins: 19,
    chunks: 4,
};

/// Where all pieces are prepared, `begin` makes only the last two of these calls.
const FAILED_PREPARED: Calls = Calls {
    prepares: 17,
    begins: 2,
    chunks: 4,
};

#[test]
fn each_failed_read_stops(rt: HostRuntime) -> Result<(), Fail> {
    let host = Host(&rt);
    for (is_prepared, wanted) in [(false, FAILED), (true, FAILED_PREPARED)] {
        let device = large_half(&host, rt.alloc());
        let failed = failures(&host, rt.alloc(), device, is_prepared);
        assert_same(&host, &failed, &wanted, &is_prepared);
    }
    Ok(())
}
