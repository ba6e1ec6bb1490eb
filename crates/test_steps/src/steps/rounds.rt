//! The checkpointer's steps between those of the flusher, and what they do for removals.

use crate::host::Host;
use group_core::SubmitError;
use path_db::{Command, Outcome};
use sector_dev::MemDevice;
use seg_core::SegType;
use std::alloc::Global;
use std::process::Abort;
use std::test::Fail;
use store_open::Store;
use test_group_scripts::stores::{
    Contents, assert_half, assert_opens_to, opened, register, sealed_store,
};
use test_group_scripts::work::{Paid, Told, Work, work_of};
use test_support::{ID, assert_same};

/// Makes a whole round before this step of the flusher, or after the last one.
fn with_round(rt: &Host<impl Abort>, work: Work<MemDevice>, before: u64) -> Work<MemDevice> {
    let mut work = work;
    for step in 0..7 {
        if step == before {
            work = work.checks_all(rt);
        }
        if step < 6 {
            work = work.flushes(rt, if step == 5 { Told::Ended } else { Told::Done });
        }
    }
    work
}

/// Commits a segment to the sealed store with a round before this step, and sees what is there
/// then.
fn assert_round(rt: &Host<impl Abort>, alloc: Global, before: u64) {
    let store = opened(rt, alloc, sealed_store(rt, alloc, 2));
    assert_half(rt, &store, (1, true));
    let mut work = work_of(rt, alloc, store);
    work.submits(rt, register(rt, alloc, 2, 1), Ok(1));
    let mut work = with_round(rt, work, before);
    work.redeems_all(rt, 1);
    let store = opened(rt, alloc, work.device(rt));
    assert_half(rt, &store, (2, false));
    let wanted = Contents {
        rows: 2,
        bytes: 186,
        place: 2,
    };
    let _device = assert_opens_to(rt, alloc, store.into_device(), wanted);
}

#[test]
fn a_whole_round_between_two_steps(rt: HostRuntime) -> Result<(), Fail> {
    let host = Host(&rt);
    // Before each step of the flusher, and after the last one.
    for before in 0..7 {
        assert_round(&host, rt.alloc(), before);
    }
    Ok(())
}

/// Sees of which version a store is, and whether its journal is sealed.
fn assert_version(rt: &Host<impl Abort>, store: &Store<MemDevice>, wanted: (u32, bool)) {
    let found = (store.version(), store.is_sealed());
    assert_same(rt, &found, &wanted, &"a version and a seal");
}

/// Submits the removal of the sealed store's segment, which is answered so.
fn removes(rt: &Host<impl Abort>, work: &mut Work<MemDevice>, wanted: Result<u64, SubmitError>) {
    work.submits(rt, Command::Remove(SegType::Down, ID), wanted);
}

/// Makes the checkpointer's steps before which no removal is accepted: begin, write_chunk,
/// sync_chunks, open_half, sync_half.
fn check_without(rt: &Host<impl Abort>, work: Work<MemDevice>) -> Work<MemDevice> {
    let mut work = work;
    for _step in 0..5 {
        removes(rt, &mut work, Err(SubmitError::OldStore));
        work = work.checks(rt, Told::Done);
    }
    work
}

/// What a removal does.
const PURGED: Outcome = Outcome {
    inserted: 0,
    updated: 0,
    kept: 0,
    purged: 1,
};

#[test]
fn removals_are_accepted_once_the_new_half_counts(rt: HostRuntime) -> Result<(), Fail> {
    let host = Host(&rt);
    let store = opened(&host, rt.alloc(), sealed_store(&host, rt.alloc(), 1));
    assert_version(&host, &store, (1, true));
    let mut work = check_without(&host, work_of(&host, rt.alloc(), store));
    removes(&host, &mut work, Ok(1));
    let mut work = work.flushes_group(&host).checks_all(&host);
    work.redeems(&host, 0, Paid::Committed(1, PURGED));
    let store = opened(&host, rt.alloc(), work.device(&host));
    assert_version(&host, &store, (2, false));
    let _device = assert_opens_to(
        &host,
        rt.alloc(),
        store.into_device(),
        Contents::empty_at(2),
    );
    Ok(())
}
