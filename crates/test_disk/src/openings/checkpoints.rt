//! Checkpoints at rest: the bytes, each refusal, and a stop or a fault at every call.

use crate::checks::done;
use crate::host::Host;
use crate::openings::answers::{Held, State, assert_store, held_by, state_of, usable};
use crate::openings::stores::{
    PLAIN, SECTORS, Worked, new_store, opened, read_sector, worked_store,
};
use sector_dev::{MemDevice, SECTOR};
use std::alloc::Global;
use std::test::Fail;
use store_layout::Half;
use store_open::{Store, StoreError, open};
use test_fault_devices::{FaultDevice, FuseDevice, Tear};
use test_support::{TestHost, assert_same};

/// How many calls of the device a checkpoint makes: three writes, and a sync after each.
const CALLS: u64 = 6;

/// More calls than it takes to open a store and to make a checkpoint.
const MANY: u64 = 200;

/// What the worked store represents: three rows, at place 259.
const HELD: Held = Held {
    rows: 3,
    bytes: 279,
    place: 259,
};

/// Its state where a call of the device failed.
const BROKEN: State = State {
    epoch: 7,
    version: 2,
    is_sealed: false,
    is_broken: true,
};

/// How the sectors of a new store that are not zero begin after its first checkpoint.
const BEGINNINGS: [(u64, &[u8]); 4] = [
    (
        0,
        b"SCPATHDB\x00\x00\x00\x01\x00\x00\x00\x02\x00\x00\x02\x04",
    ),
    (1, b"PCKP\x00\x00\x00\x02\x00\x00\x00\x00\x00\x00\x00\x01"),
    (520, b"PCKP\x00\x00\x00\x02\x00\x00\x00\x00\x00\x00\x00\x02"),
    (522, b"\xa7"),
];

/// The sector as it is then.
fn sector_of(at: u64) -> [u8; 512] {
    let mut sector = [0; SECTOR];
    for (place, beginning) in BEGINNINGS {
        if place == at {
            for (byte, wanted) in sector.iter_mut().zip(beginning) {
                *byte = *wanted;
            }
        }
    }
    sector
}

/// A new store of which a checkpoint was made.
fn new_checkpoint(rt: &impl TestHost, alloc: Global) -> Result<MemDevice, Fail> {
    let mut store = opened(alloc, new_store(alloc)?)?;
    assert_same(rt, &store.checkpoint(), &Ok(()), &"checkpoint");
    Ok(store.into_device())
}

/// Sees that all sectors are as they are then.
fn assert_sectors(rt: &impl TestHost, device: &mut MemDevice) {
    for at in 0..SECTORS {
        let sector = read_sector(device, at);
        assert_same(rt, &sector, &Some(sector_of(at)), &at);
    }
}

#[test]
fn a_new_store_has_these_bytes_then(rt: HostRuntime) {
    let host = Host(&rt);
    let mut device = done(&rt, new_checkpoint(&host, rt.alloc()));
    assert_sectors(&host, &mut device);
}

/// Makes a checkpoint of a store of this epoch whose tail is in this half, and sees what changes.
fn assert_checkpointed(rt: &impl TestHost, store: &mut Store<MemDevice>, epoch: u64, half: Half) {
    assert_store(rt, store, HELD, usable(epoch, 2));
    assert_same(rt, &store.tail_half(), &half, &"the tail's half");
    assert_same(rt, &store.checkpoint(), &Ok(()), &"checkpoint");
    assert_store(rt, store, HELD, usable(epoch.saturating_add(1), 2));
    let tail = (store.tail_half(), store.tail_gate());
    assert_same(rt, &tail, &(half.other(), 0), &"the new tail");
    assert_same(rt, &store.sealed_len(), &279, &"sealed bytes");
}

/// Opens a device, and makes such a checkpoint: the device.
fn checkpointed(
    rt: &impl TestHost,
    alloc: Global,
    device: MemDevice,
    epoch: u64,
    half: Half,
) -> Result<MemDevice, Fail> {
    let mut store = opened(alloc, device)?;
    assert_checkpointed(rt, &mut store, epoch, half);
    Ok(store.into_device())
}

/// Makes five checkpoints, one after another: the device.
fn checkpointed_often(
    rt: &impl TestHost,
    alloc: Global,
    device: MemDevice,
) -> Result<MemDevice, Fail> {
    let mut device = device;
    let mut half = Half::First;
    for epoch in 7..12 {
        device = checkpointed(rt, alloc, device, epoch, half)?;
        half = half.other();
    }
    Ok(device)
}

/// Sees what a device opens to in the end.
fn assert_held(rt: &impl TestHost, alloc: Global, device: MemDevice) -> Result<(), Fail> {
    let store = opened(alloc, device)?;
    assert_same(rt, &held_by(&store), &HELD, &"what the last one holds");
    let _device = store.into_device();
    Ok(())
}

#[test]
fn rows_are_kept_by_one_after_another(rt: HostRuntime) {
    let host = Host(&rt);
    let device = done(&rt, worked_store(rt.alloc(), PLAIN));
    let device = done(&rt, checkpointed_often(&host, rt.alloc(), device));
    done(&rt, assert_held(&host, rt.alloc(), device));
}

/// Sees that a checkpoint of a store of version 1 makes it a store of version 2.
fn assert_made_new(rt: &impl TestHost, store: &mut Store<MemDevice>) {
    assert_same(rt, &state_of(store), &usable(7, 1), &"the old state");
    assert_same(rt, &store.checkpoint(), &Ok(()), &"checkpoint");
    assert_same(rt, &state_of(store), &usable(8, 2), &"the new state");
    assert_same(rt, &held_by(store), &HELD, &"what it holds");
}

/// Opens a device of version 1, and makes it new: the device.
fn made_new(rt: &impl TestHost, alloc: Global, device: MemDevice) -> Result<MemDevice, Fail> {
    let mut store = opened(alloc, device)?;
    assert_made_new(rt, &mut store);
    Ok(store.into_device())
}

/// Sees that a device opens to the rows in version 2.
fn assert_new(rt: &impl TestHost, alloc: Global, device: MemDevice) -> Result<(), Fail> {
    let store = opened(alloc, device)?;
    assert_same(rt, &state_of(&store), &usable(8, 2), &"the state then");
    assert_same(rt, &held_by(&store), &HELD, &"what that holds");
    let _device = store.into_device();
    Ok(())
}

/// A store of version 1.
const OLD: Worked = Worked {
    version: 1,
    ..PLAIN
};

#[test]
fn an_old_version_is_made_new(rt: HostRuntime) {
    let host = Host(&rt);
    let device = done(&rt, worked_store(rt.alloc(), OLD));
    let device = done(&rt, made_new(&host, rt.alloc(), device));
    done(&rt, assert_new(&host, rt.alloc(), device));
}

/// A store of this number of rows, and why no checkpoint of it is made.
#[derive(Clone, Copy)]
struct Refused {
    name: &'static str,
    worked: Worked,
    rows: usize,
    error: StoreError,
}

/// A store in the last epoch.
const LAST: Worked = Worked {
    epoch: [0xff; 8],
    ..PLAIN
};

#[rattlefmt::skip]
const REFUSED: [Refused; 3] = [
    Refused { name: "sealed in the last epoch", worked: Worked { sealed: true, ..LAST }, rows: 3,
        error: StoreError::Sealed },
    Refused { name: "too many rows in the last epoch", worked: Worked { twelve: true, ..LAST },
        rows: 15, error: StoreError::Exhausted },
    Refused { name: "too many rows", worked: Worked { twelve: true, ..PLAIN }, rows: 15,
        error: StoreError::Unfit },
];

/// Sees that a checkpoint is refused twice, and that the store stays as it is.
fn assert_refused(rt: &impl TestHost, store: &mut Store<MemDevice>, row: &Refused) {
    let (held, state) = (held_by(store), state_of(store));
    assert_same(rt, &held.rows, &row.rows, &row.name);
    for _again in 0..2 {
        assert_same(rt, &store.checkpoint(), &Err(row.error), &row.name);
        assert_store(rt, store, held, state);
    }
}

/// Opens such a store, and sees that a checkpoint of it is refused.
fn assert_row_refused(rt: &impl TestHost, alloc: Global, row: &Refused) -> Result<(), Fail> {
    let mut store = opened(alloc, worked_store(alloc, row.worked)?)?;
    assert_refused(rt, &mut store, row);
    let _device = store.into_device();
    Ok(())
}

#[test]
fn stores_are_refused_in_order(rt: HostRuntime) -> Result<(), Fail> {
    let host = Host(&rt);
    for row in &REFUSED {
        assert_row_refused(&host, rt.alloc(), row)?;
    }
    Ok(())
}

/// Makes a checkpoint of a store, and sees that the store is broken where a call fails: whether one
/// fails.
fn is_broken(rt: &impl TestHost, store: &mut Store<FaultDevice>, number: u64) -> bool {
    let answer = store.checkpoint();
    if answer == Ok(()) {
        return false;
    }
    assert_same(rt, &answer, &Err(StoreError::Fault), &number);
    assert_store(rt, store, HELD, BROKEN);
    assert_same(rt, &store.checkpoint(), &Err(StoreError::Broken), &number);
    true
}

/// Sees that a store of which a call fails is broken, and that its device opens to the same, of
/// which a checkpoint is made: whether a call of the checkpoint fails.
fn assert_breaks(
    rt: &impl TestHost,
    alloc: Global,
    store: Store<FaultDevice>,
    number: u64,
) -> Result<bool, Fail> {
    let mut store = store;
    let fails = is_broken(rt, &mut store, number);
    let memory = store.into_device().into_mem();
    if fails {
        assert_checkpoint(rt, alloc, memory)?;
    }
    Ok(fails)
}

/// Sees what a store holds, and that a checkpoint of it is made.
fn assert_checkpoint_made(rt: &impl TestHost, store: &mut Store<MemDevice>) {
    assert_same(rt, &held_by(store), &HELD, &"before the checkpoint");
    assert_same(rt, &store.checkpoint(), &Ok(()), &"checkpoint");
    assert_same(rt, &held_by(store), &HELD, &"after the checkpoint");
}

/// Sees what a device opens to, and that a checkpoint of it is made.
fn assert_checkpoint(rt: &impl TestHost, alloc: Global, device: MemDevice) -> Result<(), Fail> {
    let mut store = opened(alloc, device)?;
    assert_checkpoint_made(rt, &mut store);
    let _device = store.into_device();
    Ok(())
}

/// What becomes of a device of which a call fails or stops.
enum Tried<T> {
    /// The device is not opened.
    Unopened,
    /// It is opened, and this is what a checkpoint answers.
    Answered(T),
}

/// Opens a device of which this call fails, and makes a checkpoint: whether a call of that fails.
fn fails_at(rt: &impl TestHost, alloc: Global, number: u64) -> Result<Tried<bool>, Fail> {
    let device = FaultDevice::new(worked_store(alloc, PLAIN)?, number);
    match open(alloc, device) {
        Ok(store) => Ok(Tried::Answered(assert_breaks(rt, alloc, store, number)?)),
        Err(_) => Ok(Tried::Unopened),
    }
}

#[test]
fn a_fault_at_any_call_breaks_the_store(rt: HostRuntime) {
    let host = Host(&rt);
    let mut faults = 0u64;
    for number in 0..MANY {
        match done(&rt, fails_at(&host, rt.alloc(), number)) {
            Tried::Unopened => {}
            Tried::Answered(false) => break,
            Tried::Answered(true) => faults = faults.saturating_add(1),
        }
    }
    assert_same(&host, &faults, &CALLS, &"faults");
}

/// Makes a checkpoint of a store on a device that may stop: what the checkpoint answers, and the
/// device then.
fn stopped(mut store: Store<FuseDevice>) -> (Result<(), StoreError>, MemDevice) {
    let answer = store.checkpoint();
    (answer, store.into_device().into_mem())
}

/// Opens a device that stops after this number of calls, and makes a checkpoint: what that answers.
/// The device opens to the rows after the stop.
fn stops_at(
    rt: &impl TestHost,
    alloc: Global,
    calls: u64,
    tear: Tear,
) -> Result<Tried<Result<(), StoreError>>, Fail> {
    let device = FuseDevice::new(worked_store(alloc, PLAIN)?, calls, tear);
    match open(alloc, device) {
        Ok(store) => {
            let (answer, memory) = stopped(store);
            assert_checkpoint(rt, alloc, memory)?;
            Ok(Tried::Answered(answer))
        }
        Err(_) => Ok(Tried::Unopened),
    }
}

/// Stops a checkpoint at every call: how many calls that are.
fn count_stops(rt: &impl TestHost, alloc: Global, tear: Tear) -> Result<u64, Fail> {
    let mut stops = 0u64;
    for calls in 0..MANY {
        match stops_at(rt, alloc, calls, tear)? {
            Tried::Unopened => {}
            Tried::Answered(Ok(())) => break,
            Tried::Answered(answer) => {
                let case = (calls, tear.keep, tear.fill);
                assert_same(rt, &answer, &Err(StoreError::Fault), &case);
                stops = stops.saturating_add(1);
            }
        }
    }
    Ok(stops)
}

#[test]
fn a_stop_at_any_call_keeps_rows_and_place(rt: HostRuntime) {
    let host = Host(&rt);
    for (keep, fill) in &[(0, 0), (0, 0xa7), (1, 0), (1, 0xa7), (512, 0), (512, 0xa7)] {
        let tear = Tear {
            keep: *keep,
            fill: *fill,
        };
        let stops = done(&rt, count_stops(&host, rt.alloc(), tear));
        assert_same(&host, &stops, &CALLS, &(*keep, *fill));
    }
}

/// Makes a checkpoint of a store. Where memory is refused, nothing has changed, and the checkpoint
/// is tried again.
fn checkpoint_again(rt: &impl TestHost, store: &mut Store<MemDevice>) -> Result<(), StoreError> {
    match store.checkpoint() {
        Err(StoreError::NoMemory) => {
            assert_store(rt, store, HELD, usable(7, 2));
            store.checkpoint()
        }
        answer => answer,
    }
}

// It is run with each allocation refused in turn. Where that is one of the opening or of the
// checkpoint, nothing has changed, and both succeed when they are tried again.
#[test]
fn refused_calls_may_be_tried_again(rt: HostRuntime) -> Result<(), Fail> {
    let host = Host(&rt);
    let mut store = opened(rt.alloc(), worked_store(rt.alloc(), PLAIN)?)?;
    assert_same(
        &host,
        &checkpoint_again(&host, &mut store),
        &Ok(()),
        &"checkpoint",
    );
    assert_store(&host, &store, HELD, usable(8, 2));
    let _device = store.into_device();
    Ok(())
}

#[test]
fn store_errors_have_numbers_and_texts(rt: HostRuntime) -> Result<(), Fail> {
    let host = Host(&rt);
    let table = [
        (StoreError::Fault, "1 the device failed"),
        (StoreError::Sealed, "2 the journal is sealed"),
        (StoreError::NoMemory, "3 out of memory"),
        (StoreError::Exhausted, "4 no epoch is left"),
        (
            StoreError::Unfit,
            "5 the rows do not fit the checkpoint area",
        ),
        (StoreError::Broken, "6 an earlier checkpoint failed"),
    ];
    for (error, wanted) in table {
        let text = format!(in rt.alloc(); "{} {error}", error as u8)?;
        assert_same(&host, &text.as_str(), &wanted, &error);
    }
    Ok(())
}
