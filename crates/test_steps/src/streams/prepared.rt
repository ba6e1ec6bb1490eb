//! Checkpoints of which none, some or all pieces are prepared before they are begun.

use crate::host::Host;
use crate::streams::large_rows::large_half;
use crate::streams::rounds::whole_round;
use crate::streams::sealed::{SECTORS, sectors_from};
use group_core::Prepared;
use sector_dev::{Device, MemDevice};
use std::alloc::Global;
use std::process::Abort;
use std::test::Fail;
use test_group_scripts::stores::opened;
use test_group_scripts::work::{Told, Work, work_of};
use test_support::{TestHost, assert_same, assert_true};

/// More pieces than the half of large rows has.
const MANY: usize = 20;

/// Prepares a piece of a checkpoint: whether all of it is prepared then.
fn is_prepared<D: Device>(rt: &impl TestHost, work: &mut Work<D>) -> bool {
    match work.state.prepare() {
        Ok(Prepared::Part) => false,
        Ok(Prepared::Whole) => true,
        Err(refusal) => rt.fail(format_args!("{refusal:?}")),
    }
}

/// Prepares at most this number of pieces: how many make up the whole, where they do.
pub fn prepare_all<D: Device>(
    rt: &impl TestHost,
    work: &mut Work<D>,
    most: usize,
) -> Option<usize> {
    for number in 0..most {
        if is_prepared(rt, work) {
            return Some(number.saturating_add(1));
        }
    }
    None
}

/// How many pieces the half of large rows has. One piece more changes nothing.
fn pieces(rt: &Host<impl Abort>, alloc: Global) -> usize {
    let mut work = work_of(rt, alloc, opened(rt, alloc, large_half(rt, alloc)));
    let Some(count) = prepare_all(rt, &mut work, MANY) else {
        rt.fail("the pieces make no end");
    };
    assert_true(rt, is_prepared(rt, &mut work), "nothing is left to be read");
    let _device = work.device(rt);
    count
}

/// Makes a round over the half of large rows after this number of pieces are prepared: the bytes
/// that are there then.
fn round_after(rt: &Host<impl Abort>, alloc: Global, count: usize) -> Vec<u8> {
    let mut work = work_of(rt, alloc, opened(rt, alloc, large_half(rt, alloc)));
    let _whole = prepare_all(rt, &mut work, count);
    let mut memory = whole_round(rt, work).device(rt);
    sectors_from(rt, alloc, &mut memory, 0, SECTORS as usize)
}

/// Sees that these bytes are there then.
fn assert_after(rt: &Host<impl Abort>, alloc: Global, count: usize, wanted: &[u8]) {
    let made = round_after(rt, alloc, count);
    assert_same(rt, &(made.as_slice() == wanted), &true, &count);
}

#[test]
fn any_pieces_make_the_same(rt: HostRuntime) -> Result<(), Fail> {
    let host = Host(&rt);
    let alloc = rt.alloc();
    let wanted = round_after(&host, alloc, 0);
    for count in 1..=pieces(&host, alloc) {
        assert_after(&host, alloc, count, &wanted);
    }
    Ok(())
}

/// Steps of the flusher that submit and commit a purge, after each of which a piece is prepared
/// while there are more to prepare than `count`.
fn commit_between(rt: &Host<impl Abort>, work: Work<MemDevice>, count: usize) -> Work<MemDevice> {
    let mut work = work;
    work.purge(rt, 1);
    for step in 0..6 {
        if step < count {
            let _whole = is_prepared(rt, &mut work);
        }
        work = work.flushes(rt, if step < 5 { Told::Done } else { Told::Ended });
    }
    work.redeems_all(rt, 1);
    work
}

/// Makes a round over the half of large rows, while a purge is committed in the other half between
/// the first pieces, this number of them: the bytes that are there then.
fn round_between(rt: &Host<impl Abort>, alloc: Global, count: usize) -> Vec<u8> {
    let work = work_of(rt, alloc, opened(rt, alloc, large_half(rt, alloc)));
    let work = commit_between(rt, work, count);
    let mut memory = whole_round(rt, work).device(rt);
    sectors_from(rt, alloc, &mut memory, 0, SECTORS as usize)
}

/// Sees that these bytes are there then.
fn assert_between(rt: &Host<impl Abort>, alloc: Global, count: usize, wanted: &[u8]) {
    let made = round_between(rt, alloc, count);
    assert_same(rt, &(made.as_slice() == wanted), &true, &count);
}

#[test]
fn a_group_is_committed_between_pieces(rt: HostRuntime) -> Result<(), Fail> {
    let host = Host(&rt);
    let alloc = rt.alloc();
    let wanted = round_between(&host, alloc, 0);
    for count in 1..=6 {
        assert_between(&host, alloc, count, &wanted);
    }
    Ok(())
}
