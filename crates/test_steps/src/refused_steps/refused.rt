//! Want of memory. The test is run with each of its allocations refused in turn: a call that is
//! refused changes nothing, and succeeds when it is tried again.

use crate::host::Host;
use group_core::{BeginError, StageError, SubmitError};
use sector_dev::MemDevice;
use std::alloc::Global;
use std::process::Abort;
use std::test::Fail;
use test_group_scripts::acts::INSERTED;
use test_group_scripts::stores::{
    Contents, assert_half, assert_opens_to, opened, register, sealed_store,
};
use test_group_scripts::work::{Paid, Told, Work, work_of};
use test_support::{TestHost, assert_same, assert_true};

/// Submits a segment, and once more where memory was refused.
fn submit_again(
    rt: &Host<impl Abort>,
    alloc: Global,
    work: &mut Work<MemDevice>,
    egress: u8,
) -> u64 {
    let first = work.submit(rt, register(rt, alloc, egress, 1));
    let answer = match first {
        Err(SubmitError::NoMemory) => work.submit(rt, register(rt, alloc, egress, 1)),
        answer => answer,
    };
    match answer {
        Ok(place) => place,
        Err(e) => rt.fail(format_args!("{e:?}")),
    }
}

/// Sees that the first command is not committed yet.
fn assert_waiting(rt: &Host<impl Abort>, work: &mut Work<MemDevice>) {
    let is_waiting = matches!(work.redeem(rt, 0), Paid::Waiting(_));
    assert_true(rt, is_waiting, "the first command is not committed");
}

/// The flusher's next step, and once more where memory was refused, which is so where a group is
/// staged or published.
fn flush_again(
    rt: &Host<impl Abort>,
    work: Work<MemDevice>,
    number: u64,
) -> (Work<MemDevice>, Told) {
    let (mut work, first) = work.flush(rt);
    match first {
        Told::Stage(StageError::NoMemory) => assert_same(rt, &number, &0, &"staging"),
        Told::NoMemory => {
            assert_same(rt, &number, &5, &"publishing");
            assert_waiting(rt, &mut work);
        }
        _ => return (work, first),
    }
    work.flush(rt)
}

/// The checkpointer's next step, and once more where memory was refused, which is so where a
/// checkpoint is begun.
fn check_again(rt: &Host<impl Abort>, work: Work<MemDevice>) -> (Work<MemDevice>, Told) {
    let (work, first) = work.check(rt);
    if first != Told::Begin(BeginError::NoMemory) {
        return (work, first);
    }
    work.check(rt)
}

/// Submits three segments.
fn submit_three(rt: &Host<impl Abort>, alloc: Global, work: &mut Work<MemDevice>) {
    for egress in 2..5 {
        let place = submit_again(rt, alloc, work, egress);
        assert_same(rt, &place, &(u64::from(egress) - 1), &egress);
    }
}

/// Redeems the tickets of these, each of which is committed.
fn redeem_three(rt: &Host<impl Abort>, work: &mut Work<MemDevice>) {
    for place in 1..4 {
        work.redeems(rt, 0, Paid::Committed(place, INSERTED));
    }
}

/// The flusher's steps until a group is published.
fn flush_all_again(rt: &Host<impl Abort>, work: Work<MemDevice>) -> Work<MemDevice> {
    let mut work = work;
    for number in 0..6 {
        let step;
        (work, step) = flush_again(rt, work, number);
        let wanted = if number == 5 { Told::Ended } else { Told::Done };
        assert_same(rt, &step, &wanted, &number);
    }
    work
}

/// The checkpointer's steps until a checkpoint has ended.
fn check_all_again(rt: &Host<impl Abort>, work: Work<MemDevice>) -> Work<MemDevice> {
    let mut work = work;
    for number in 0..7 {
        let step;
        (work, step) = check_again(rt, work);
        let wanted = if number == 6 { Told::Ended } else { Told::Done };
        assert_same(rt, &step, &wanted, &number);
    }
    work
}

#[test]
fn refused_calls_may_be_tried_again(rt: HostRuntime) -> Result<(), Fail> {
    let host = Host(&rt);
    let store = opened(&host, rt.alloc(), sealed_store(&host, rt.alloc(), 2));
    let mut work = work_of(&host, rt.alloc(), store);
    submit_three(&host, rt.alloc(), &mut work);
    let mut work = check_all_again(&host, flush_all_again(&host, work));
    redeem_three(&host, &mut work);
    let store = opened(&host, rt.alloc(), work.device(&host));
    assert_half(&host, &store, (2, false));
    let wanted = Contents {
        rows: 4,
        bytes: 372,
        place: 4,
    };
    let _device = assert_opens_to(&host, rt.alloc(), store.into_device(), wanted);
    Ok(())
}
