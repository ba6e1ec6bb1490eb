//! Want of memory in runs. The tests are run with each of their allocations refused in turn: an
//! event that is refused changes nothing, and is answered as it was to be when it is tried again.

use crate::host::Host;
use crate::runs::runs::{rested, sealed_run};
use group_core::{BeginError, StageError, SubmitError};
use group_recovery::{PublishRefusal, Reply, Run, run};
use sector_dev::MemDevice;
use std::alloc::Global;
use std::process::Abort;
use std::test::Fail;
use test_group_scripts::acts::{Act, GONE, INSERTED, Line, Said, event_of, events_of, heard};
use test_group_scripts::runs::{done, ended};
use test_group_scripts::stores::{Contents, assert_contents, assert_opens_to, contents_at};
use test_support::{TestHost, assert_same};

/// The events and answers of a state whose store was sealed at place 1, after the segment left by
/// interface 1: a group, a round, and a further group that is written.
const STEPS: [Line; 27] = [
    (Act::Lookup, Said::Shows(0b10)),
    (Act::Put(2), Said::Accepted(1)),
    (Act::Put(3), Said::Accepted(2)),
    (Act::Remove(1), Said::Accepted(3)),
    (Act::Stage, Said::Done),
    (Act::WriteGroup, Said::Done),
    (Act::SyncGroup, Said::Done),
    (Act::OpenGate, Said::Done),
    (Act::SyncGate, Said::Done),
    (Act::Publish, Said::Done),
    (Act::Lookup, Said::Shows(0b1100)),
    (Act::Redeem(0), Said::Committed(1, INSERTED)),
    (Act::Redeem(1), Said::Committed(2, INSERTED)),
    (Act::Redeem(2), Said::Committed(3, GONE)),
    (Act::Prepare, Said::Done),
    (Act::Begin, Said::Done),
    (Act::WriteChunk, Said::Done),
    (Act::SyncChunks, Said::Done),
    (Act::OpenHalf, Said::Done),
    (Act::SyncHalf, Said::Done),
    (Act::CloseHalf, Said::Done),
    (Act::SyncClose, Said::Done),
    (Act::Put(1), Said::Accepted(4)),
    (Act::Purge(0), Said::Accepted(5)),
    (Act::Stage, Said::Done),
    (Act::WriteGroup, Said::Done),
    (Act::Redeem(3), Said::Waiting(4)),
];

/// After this number of them the first group is durable, and is not published yet.
const DURABLE: usize = 9;

/// What the reply to one event says.
fn said(rt: &Host<impl Abort>, replies: &[Reply]) -> Said {
    match replies.first() {
        Some(reply) => heard(reply),
        None => rt.fail("no reply"),
    }
}

/// What one event is answered.
fn answered(
    rt: &Host<impl Abort>,
    alloc: Global,
    held: Run<MemDevice>,
    act: Act,
) -> (Run<MemDevice>, Said) {
    let events = [event_of(rt, alloc, act)];
    match run(alloc, held, &events) {
        Err((held, _refused)) => (held, Said::NotRun),
        Ok((held, replies)) => (held, said(rt, &replies)),
    }
}

/// Whether memory was refused.
fn is_refusal(said: Said) -> bool {
    matches!(
        said,
        Said::NotRun
            | Said::Refused(SubmitError::NoMemory)
            | Said::Stage(StageError::NoMemory)
            | Said::Begin(BeginError::NoMemory)
            | Said::Publish(PublishRefusal::NoMemory)
            | Said::NoAnswer
    )
}

/// The interfaces by which the segments of committed rows are left: a bit for each.
fn rows_of(rt: &Host<impl Abort>, alloc: Global, held: Run<MemDevice>) -> (Run<MemDevice>, Said) {
    let (held, first) = answered(rt, alloc, held, Act::Lookup);
    if is_refusal(first) {
        return answered(rt, alloc, held, Act::Lookup);
    }
    (held, first)
}

/// Does one event, and once more where memory was refused: it is answered as wanted.
fn told_event(
    rt: &Host<impl Abort>,
    alloc: Global,
    held: Run<MemDevice>,
    line: Line,
) -> Run<MemDevice> {
    let (act, wanted) = line;
    let (held, before) = rows_of(rt, alloc, held);
    let (mut held, mut got) = answered(rt, alloc, held, act);
    if is_refusal(got) {
        let after;
        (held, after) = rows_of(rt, alloc, held);
        assert_same(rt, &after, &before, &act);
        (held, got) = answered(rt, alloc, held, act);
    }
    assert_same(rt, &got, &wanted, &act);
    held
}

/// Does this number of events, one by one.
fn told_events(rt: &Host<impl Abort>, alloc: Global, count: usize) -> Run<MemDevice> {
    let mut held = sealed_run(rt, alloc);
    for line in STEPS.iter().take(count) {
        held = told_event(rt, alloc, held, *line);
    }
    held
}

/// What the store has once all events are done.
const COMMITTED: Contents = Contents {
    rows: 2,
    bytes: 186,
    place: 4,
};

#[test]
fn refused_events_may_be_tried_again(rt: HostRuntime) -> Result<(), Fail> {
    let host = Host(&rt);
    let held = told_events(&host, rt.alloc(), usize::MAX);
    let (place, db) = rested(&host, rt.alloc(), held);
    assert_contents(&host, contents_at(&db, place), COMMITTED);
    Ok(())
}

/// The device of a run that has ended. Where its end is refused, the group is not published yet,
/// and the end is tried again.
fn ended_again(rt: &Host<impl Abort>, alloc: Global, held: Run<MemDevice>) -> MemDevice {
    let held = match held.wind_up() {
        Ok(device) => return device,
        Err(held) => held,
    };
    let (held, rows) = rows_of(rt, alloc, held);
    assert_same(rt, &rows, &Said::Shows(0b10), &DURABLE);
    ended(rt, held)
}

#[test]
fn refused_ends_may_be_tried_again(rt: HostRuntime) -> Result<(), Fail> {
    let host = Host(&rt);
    let held = told_events(&host, rt.alloc(), DURABLE);
    let device = ended_again(&host, rt.alloc(), held);
    let _device = assert_opens_to(&host, rt.alloc(), device, COMMITTED);
    Ok(())
}

/// Sees that replies are as wanted up to the first where memory was refused.
fn assert_front(rt: &Host<impl Abort>, replies: &[Reply]) {
    assert_same(rt, &replies.len(), &STEPS.len(), &"replies");
    for (reply, (act, wanted)) in replies.iter().zip(&STEPS) {
        let got = heard(reply);
        if is_refusal(got) {
            break;
        }
        assert_same(rt, &got, wanted, act);
    }
}

#[test]
fn a_run_without_room_for_replies_comes_back(rt: HostRuntime) -> Result<(), Fail> {
    let host = Host(&rt);
    let events = events_of(&host, rt.alloc(), &STEPS);
    let held = sealed_run(&host, rt.alloc());
    let (held, replies) = done(&host, rt.alloc(), held, &events);
    assert_front(&host, &replies);
    let _device = ended(&host, held);
    Ok(())
}
