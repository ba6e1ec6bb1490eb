//! Journals that are filled to their ends.

use crate::host::Host;
use group_core::StageError;
use sector_dev::{Device, MemDevice};
use std::alloc::Global;
use std::process::Abort;
use std::test::Fail;
use test_group_scripts::stores::{
    Contents, GROUPS, assert_opens_to, new_store, opened, read_sector,
};
use test_group_scripts::work::{Paid, Told, Work, work_of};
use test_support::assert_same;

/// The seal of the first half, after these groups.
const SEAL: [u8; 16] = [2, 0, 0, 0, 0, 0, 0, 0, 0, 0, 0, 0, 0, 0, 1, 1];

/// The checkpoint that is laid from it: epoch 2, place 257, no rows.
const AREA: [u8; 32] = [
    0x50, 0x43, 0x4b, 0x50, 0, 0, 0, 2, 0, 0, 0, 0, 0, 0, 0, 2, 0, 0, 0, 0, 0, 0, 1, 1, 0, 0, 0, 0,
    0, 0, 0, 0,
];

/// The first group after the seal: one purge at place 257.
const BEHIND: [u8; 29] = [
    1, 1, 0, 0, 0, 0, 0, 13, 0, 0, 0, 0, 0, 0, 1, 1, 0, 0, 0, 9, 2, 0, 0, 0, 0, 0, 0, 0, 0,
];

/// Commits purges one at a time, up to a place.
fn commit_to<D: Device>(rt: &Host<impl Abort>, work: Work<D>, from: u64, to: u64) -> Work<D> {
    let mut work = work;
    for place in from..to {
        work.purge(rt, 1);
        work = work.flushes_group(rt);
        work.redeems_at(rt, place);
    }
    work
}

/// Sees how a sector begins, and that zeros are after that.
fn assert_sector(rt: &Host<impl Abort>, device: &mut MemDevice, at: u64, bytes: &[u8]) {
    let sector = read_sector(device, at);
    let is_so = sector.starts_with(bytes) && sector.iter().skip(bytes.len()).all(|byte| *byte == 0);
    assert_same(rt, &is_so, &true, &at);
}

/// Sees how some sectors of a device begin.
fn assert_begin(rt: &Host<impl Abort>, device: MemDevice, sectors: &[(u64, &[u8])]) -> MemDevice {
    let mut device = device;
    for (at, bytes) in sectors {
        assert_sector(rt, &mut device, *at, bytes);
    }
    device
}

/// What is on the device where the first journal is sealed and the second one is full, with a
/// checkpoint between them.
const FULL: [(u64, &[u8]); 8] = [
    (3, &[]),
    (4, &[]),
    (518, &[0xa7]),
    (519, &SEAL),
    (520, &AREA),
    (522, &[0xa7]),
    (523, &[0xa7]),
    (524, &BEHIND),
];

/// What is there once the second journal is sealed too.
const SEALED: [(u64, &[u8]); 4] = [
    (3, &[]),
    (4, &[0xa7]),
    (1037, &[0xa7]),
    (1038, &[2, 0, 0, 0, 0, 0, 0, 0, 0, 0, 0, 0, 0, 0, 2, 2]),
];

/// Fills the first journal, which is sealed then, and the second one.
fn filled(rt: &Host<impl Abort>, work: Work<MemDevice>) -> Work<MemDevice> {
    let mut work = commit_to(rt, work, 0, GROUPS);
    work.purge(rt, 1);
    let mut work = work.flushes_group(rt);
    // That was a seal.
    work.redeems(rt, 0, Paid::Waiting(GROUPS));
    let mut work = work.flushes_group(rt);
    work.redeems_at(rt, GROUPS);
    commit_to(rt, work, GROUPS + 1, 2 * GROUPS)
}

/// What is answered where a journal has no room.
const NO_ROOM: Told = Told::Stage(StageError::NoRoom);

/// Makes a checkpoint while a purge is pending for which the journal has no room.
fn without_room(rt: &Host<impl Abort>, work: Work<MemDevice>) -> Work<MemDevice> {
    let mut work = work;
    work.purge(rt, 1);
    for _again in 0..2 {
        work = work.flushes(rt, NO_ROOM);
    }
    // Neither has the journal room while its checkpoint is being written.
    for _step in 0..6 {
        work = work.checks(rt, Told::Done).flushes(rt, NO_ROOM);
    }
    work.checks(rt, Told::Ended)
}

/// Seals the second half's journal, and has the first half take a purge: the device.
fn sealed_again(rt: &Host<impl Abort>, alloc: Global, device: MemDevice) -> MemDevice {
    let mut work = work_of(rt, alloc, opened(rt, alloc, device));
    work.purge(rt, 1);
    let mut work = work.flushes_group(rt).flushes_group(rt);
    work.redeems_at(rt, 514);
    work.device(rt)
}

#[test]
fn journal_fills_then_seal_then_no_room(rt: HostRuntime) -> Result<(), Fail> {
    let host = Host(&rt);
    let store = opened(&host, rt.alloc(), new_store(&host, rt.alloc()));
    let work = filled(&host, work_of(&host, rt.alloc(), store));
    let full = Contents::empty_at(2 * GROUPS);
    let device = without_room(&host, work).ends(&host, full);
    let device = assert_begin(&host, device, &FULL);
    let device = assert_opens_to(&host, rt.alloc(), device, full);
    let device = sealed_again(&host, rt.alloc(), device);
    let purged = Contents::empty_at(2 * GROUPS + 1);
    let device = assert_opens_to(&host, rt.alloc(), device, purged);
    let _device = assert_begin(&host, device, &SEALED);
    Ok(())
}
