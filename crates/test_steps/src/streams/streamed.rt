//! The bytes of checkpoints that are made while they are written.

use crate::host::Host;
use crate::streams::commands::{add, fold, mixed, registrations, removal_of, room};
use crate::streams::large_rows::{LARGE_CONTENTS, large_commands, large_olds};
use crate::streams::rounds::{assert_area, assert_opens, whole_round};
use crate::streams::sealed::sealed_half;
use path_db::{Command, PathDb};
use sector_dev::MemDevice;
use std::alloc::Global;
use std::process::Abort;
use std::test::Fail;
use test_group_scripts::stores::{Contents, opened};
use test_group_scripts::work::work_of;
use test_support::assert_same;

/// Makes a round over a sealed half: the device.
fn round_over(rt: &Host<impl Abort>, alloc: Global, device: MemDevice) -> MemDevice {
    let work = work_of(rt, alloc, opened(rt, alloc, device));
    whole_round(rt, work).device(rt)
}

/// How many rows a database has, and their bytes.
fn sizes(db: &PathDb) -> (usize, u64) {
    (db.rows().count(), db.encoded_len())
}

/// Sees that the checkpoint of rows with a sealed journal of these commands is that of the rows
/// after the commands, whose number and whose bytes are given.
fn assert_streamed(
    rt: &Host<impl Abort>,
    alloc: Global,
    olds: &[Command],
    commands: &[Command],
    wanted: (usize, u64),
) {
    let mut db = PathDb::new(alloc);
    fold(rt, &mut db, olds);
    let device = sealed_half(rt, alloc, &db, commands);
    fold(rt, &mut db, commands);
    assert_same(rt, &sizes(&db), &wanted, &"rows");
    let mut device = round_over(rt, alloc, device);
    let place = commands.len() as u64;
    assert_area(rt, alloc, &mut device, &db, place);
    let _device = assert_opens(rt, alloc, device, &db, place);
}

/// What is left of 2,000 rows and 3,000 registrations: of these 2,084 are of new keys, 351 replace
/// older rows, and 565 are older than what was there; 21 rows are removed, and five purges drop
/// 690. A row has 93 bytes.
const LEFT: (usize, u64) = (3373, 3373 * 93);

#[test]
fn three_thousand_over_two_thousand(rt: HostRuntime) -> Result<(), Fail> {
    let host = Host(&rt);
    let olds = registrations(&host, rt.alloc(), 1000, 2000);
    let commands = mixed(&host, rt.alloc(), 2000, 3000);
    assert_streamed(&host, rt.alloc(), &olds, &commands, LEFT);
    Ok(())
}

#[test]
fn large_over_large(rt: HostRuntime) -> Result<(), Fail> {
    let host = Host(&rt);
    let olds = large_olds(&host, rt.alloc());
    let commands = large_commands(&host, rt.alloc());
    let Contents { rows, bytes, .. } = LARGE_CONTENTS;
    assert_streamed(&host, rt.alloc(), &olds, &commands, (rows, bytes));
    Ok(())
}

/// The removals of the first segments that commands register.
fn removals_of(rt: &Host<impl Abort>, alloc: Global, olds: &[Command]) -> Vec<Command> {
    let mut commands = room(rt, alloc, olds.len());
    for old in olds {
        add(rt, &mut commands, removal_of(rt, old));
    }
    commands
}

/// Sees that a purge of all rows leaves none of these.
fn assert_purged(rt: &Host<impl Abort>, alloc: Global, olds: &[Command]) {
    let purge = [Command::Purge(u64::MAX)];
    assert_streamed(rt, alloc, olds, &purge, (0, 0));
}

/// Sees that the removals of all of them leave none.
fn assert_removed(rt: &Host<impl Abort>, alloc: Global, olds: &[Command]) {
    let removals = removals_of(rt, alloc, olds);
    assert_streamed(rt, alloc, olds, &removals, (0, 0));
}

#[test]
fn none_over_few(rt: HostRuntime) -> Result<(), Fail> {
    let host = Host(&rt);
    assert_purged(
        &host,
        rt.alloc(),
        &registrations(&host, rt.alloc(), 1000, 20),
    );
    assert_removed(
        &host,
        rt.alloc(),
        &registrations(&host, rt.alloc(), 1000, 1),
    );
    assert_purged(&host, rt.alloc(), &[]);
    Ok(())
}

#[test]
fn few_over_none(rt: HostRuntime) -> Result<(), Fail> {
    let host = Host(&rt);
    let commands = registrations(&host, rt.alloc(), 1000, 40);
    assert_streamed(&host, rt.alloc(), &[], &commands, (40, 40 * 93));
    Ok(())
}
