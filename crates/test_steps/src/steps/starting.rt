//! States of stores of each kind.

use crate::host::Host;
use group_core::{StageError, SubmitError};
use path_db::Command;
use sector_dev::MemDevice;
use seg_core::SegType;
use std::alloc::Global;
use std::process::Abort;
use std::test::Fail;
use store_open::{Store, StoreError, open};
use test_fault_devices::FaultDevice;
use test_group_scripts::stores::{
    Contents, REGISTERED, SEAL, assert_opens_to, change, new_store, old_store, opened, register,
    segment,
};
use test_group_scripts::work::{Told, Work, assert_stopped, work_of};
use test_support::assert_same;

/// More calls than it takes to open a store and to make a checkpoint.
const MANY: u64 = 200;

/// Submits a removal to a store of this version, which is answered so, and makes a checkpoint: the
/// store then.
fn upgraded(
    rt: &Host<impl Abort>,
    alloc: Global,
    store: Store<MemDevice>,
    version: u32,
    wanted: Result<u64, SubmitError>,
) -> Store<MemDevice> {
    assert_same(rt, &store.version(), &version, &"version");
    let mut work = work_of(rt, alloc, store);
    work.submits(rt, Command::Remove(SegType::Down, [0; 32]), wanted);
    let (mut work, _ended) = work.flush_group(rt);
    let _paid = work.redeem_all(rt);
    let store = opened(rt, alloc, work.device(rt));
    let place = u64::from(version.saturating_sub(1));
    assert_same(rt, &store.place(), &place, &"place");
    checkpointed(rt, store)
}

/// A store after a checkpoint.
fn checkpointed(rt: &Host<impl Abort>, store: Store<MemDevice>) -> Store<MemDevice> {
    let mut store = store;
    assert_same(rt, &store.checkpoint(), &Ok(()), &"a checkpoint");
    store
}

#[test]
fn removals_are_accepted_behind_an_upgrade(rt: HostRuntime) -> Result<(), Fail> {
    let host = Host(&rt);
    let store = opened(&host, rt.alloc(), old_store(&host, rt.alloc()));
    let store = upgraded(&host, rt.alloc(), store, 1, Err(SubmitError::OldStore));
    let store = upgraded(&host, rt.alloc(), store, 2, Ok(0));
    let _device = store.into_device();
    Ok(())
}

/// Sees that no place is left for a command.
fn exhausts(rt: &Host<impl Abort>, work: &mut Work<MemDevice>) {
    for _again in 0..2 {
        work.submits(rt, Command::Purge(0), Err(SubmitError::Exhausted));
    }
}

#[test]
fn place_at_maximum(rt: HostRuntime) -> Result<(), Fail> {
    let host = Host(&rt);
    let mut device = new_store(&host, rt.alloc());
    change(&mut device, 1, 16, &[0xff; 8]);
    let store = opened(&host, rt.alloc(), device);
    assert_same(&host, &store.place(), &u64::MAX, &"place");
    let mut work = work_of(&host, rt.alloc(), store);
    exhausts(&host, &mut work);
    let work = work.flushes(&host, Told::Stage(StageError::Empty));
    let _device = assert_opens_to(
        &host,
        rt.alloc(),
        work.device(&host),
        Contents::empty_at(u64::MAX),
    );
    Ok(())
}

/// Commits ten rows to a new store, and makes a checkpoint: the device.
fn ten_rows(rt: &Host<impl Abort>, alloc: Global) -> MemDevice {
    let mut work = work_of(rt, alloc, opened(rt, alloc, new_store(rt, alloc)));
    for egress in 1..11 {
        work.submits(
            rt,
            register(rt, alloc, egress, 1),
            Ok(u64::from(egress) - 1),
        );
    }
    let mut work = work.flushes_group(rt);
    work.redeems_all(rt, 10);
    checkpointed(rt, opened(rt, alloc, work.device(rt))).into_device()
}

/// A store whose second half has ten rows at place 0 in its checkpoint, and an eleventh one in its
/// journal.
fn overfull_store(rt: &Host<impl Abort>, alloc: Global) -> MemDevice {
    let mut device = ten_rows(rt, alloc);
    change(&mut device, 520, 16, &[0; 8]);
    change(&mut device, 524, 0, &REGISTERED);
    change(&mut device, 524, REGISTERED.len(), &segment(11));
    change(&mut device, 523, 0, &[0xa7]);
    device
}

/// A group at place 1 that purges all rows.
const PURGE: [u8; 29] = [
    1, 1, 0, 0, 0, 0, 0, 13, 0, 0, 0, 0, 0, 0, 0, 1, 0, 0, 0, 9, 2, 0xff, 0xff, 0xff, 0xff, 0xff,
    0xff, 0xff, 0xff,
];

/// Sees that a device opens to this, and that a state of its store has stopped.
fn assert_larger(
    rt: &Host<impl Abort>,
    alloc: Global,
    device: MemDevice,
    wanted: Contents,
) -> MemDevice {
    let device = assert_opens_to(rt, alloc, device, wanted);
    assert_stopped(rt, work_of(rt, alloc, opened(rt, alloc, device)))
}

/// Purges all rows after a seal.
fn purge_behind_a_seal(device: &mut MemDevice) {
    change(device, 526, 0, &SEAL);
    change(device, 525, 0, &[0xa7]);
    change(device, 5, 0, &PURGE);
    change(device, 5, PURGE.len(), &[0; 483]);
    change(device, 6, 0, &[0]);
    change(device, 4, 0, &[0xa7]);
}

/// Sees that the rows up to the seal have this many bytes.
fn assert_sealed(rt: &Host<impl Abort>, store: &Store<MemDevice>, len: u64) {
    let sealed = (store.is_sealed(), store.sealed_len());
    assert_same(rt, &sealed, &(true, len), &"the rows up to a seal");
}

#[test]
fn fold_larger_than_area(rt: HostRuntime) -> Result<(), Fail> {
    let host = Host(&rt);
    let device = overfull_store(&host, rt.alloc());
    let eleven = Contents {
        rows: 11,
        bytes: 1023,
        place: 1,
    };
    let mut device = assert_larger(&host, rt.alloc(), device, eleven);
    // After a seal all rows are purged, but those up to the seal have no room.
    purge_behind_a_seal(&mut device);
    let store = opened(&host, rt.alloc(), device);
    assert_sealed(&host, &store, 1023);
    let _device = assert_larger(
        &host,
        rt.alloc(),
        store.into_device(),
        Contents::empty_at(2),
    );
    Ok(())
}

/// Sees that a state of a store whose checkpoint failed has stopped, and that nothing is there.
fn assert_broken(rt: &Host<impl Abort>, alloc: Global, store: Store<FaultDevice>) {
    let device = assert_stopped(rt, work_of(rt, alloc, store));
    let _device = assert_opens_to(rt, alloc, device.into_mem(), Contents::empty_at(0));
}

/// Makes a checkpoint of a store, and sees that a state of the store has stopped where that failed:
/// whether it did.
fn breaks(rt: &Host<impl Abort>, alloc: Global, store: Store<FaultDevice>) -> bool {
    let mut store = store;
    let answer = store.checkpoint();
    if answer == Ok(()) {
        let _device = store.into_device();
        return false;
    }
    assert_same(rt, &answer, &Err(StoreError::Fault), &"a checkpoint");
    assert_broken(rt, alloc, store);
    true
}

/// Does so for a new store of which the call of this number fails; none where opening failed
/// already.
fn breaks_at(rt: &Host<impl Abort>, alloc: Global, number: u64) -> Option<bool> {
    match open(alloc, FaultDevice::new(new_store(rt, alloc), number)) {
        Ok(store) => Some(breaks(rt, alloc, store)),
        Err(_refused) => None,
    }
}

#[test]
fn states_of_broken_stores_have_stopped(rt: HostRuntime) -> Result<(), Fail> {
    let host = Host(&rt);
    let mut broken = 0u64;
    for number in 0..MANY {
        match breaks_at(&host, rt.alloc(), number) {
            None => {}
            Some(true) => broken = broken.saturating_add(1),
            Some(false) => break,
        }
    }
    assert_same(&host, &broken, &6, &"failed checkpoints");
    Ok(())
}
