//! Commands that are refused, each by the first reason, and that a refusal leaves all as it was.

use crate::host::Host;
use group_core::SubmitError;
use path_db::{Command, Outcome};
use sector_dev::MemDevice;
use seg_core::SegType;
use std::alloc::Global;
use std::process::Abort;
use std::test::Fail;
use test_group_scripts::stores::{
    Contents, assert_opens_to, change, new_store, old_store, opened, register,
};
use test_group_scripts::work::{Paid, Work, work_of};
use test_support::assert_same;

/// Where in a checkpoint's first sector the place is.
const PLACE: usize = 16;

/// A new store at work; of version 1 or 2, at this place.
fn worked(rt: &Host<impl Abort>, alloc: Global, version: u8, place: u64) -> Work<MemDevice> {
    let mut device = if version == 1 {
        old_store(rt, alloc)
    } else {
        new_store(rt, alloc)
    };
    change(&mut device, 1, PLACE, &place.to_be_bytes());
    let store = opened(rt, alloc, device);
    assert_same(rt, &store.place(), &place, &"place");
    work_of(rt, alloc, store)
}

/// Submits a segment left by this interface, which is answered so.
fn registers(
    rt: &Host<impl Abort>,
    alloc: Global,
    work: &mut Work<MemDevice>,
    egress: u8,
    wanted: Result<u64, SubmitError>,
) {
    work.submits(rt, register(rt, alloc, egress, 1), wanted);
}

/// Submits what there is room for, and more.
fn fill(rt: &Host<impl Abort>, alloc: Global, work: &mut Work<MemDevice>) {
    for egress in 1..11 {
        registers(rt, alloc, work, egress, Ok(u64::from(egress) - 1));
    }
    for _again in 0..2 {
        registers(rt, alloc, work, 11, Err(SubmitError::Full));
    }
    work.purge(rt, 246);
    for _again in 0..2 {
        work.submits(rt, Command::Purge(0), Err(SubmitError::Busy));
        registers(rt, alloc, work, 11, Err(SubmitError::Busy));
    }
}

/// What the command at a place does: one of ten new segments, a purge of nothing, and one of them
/// again.
fn outcome_at(place: u64) -> Outcome {
    Outcome {
        inserted: u32::from(place < 10),
        updated: 0,
        kept: u32::from(place == 256),
        purged: 0,
    }
}

/// Commits what is pending, in eight groups.
fn eight_groups(rt: &Host<impl Abort>, work: Work<MemDevice>) -> Work<MemDevice> {
    let mut work = work;
    for _group in 0..8 {
        work = work.flushes_group(rt);
    }
    work
}

/// Redeems the tickets of what is committed.
fn redeem_all(rt: &Host<impl Abort>, work: &mut Work<MemDevice>) {
    for place in 0..257 {
        work.redeems(rt, 0, Paid::Committed(place, outcome_at(place)));
    }
}

#[test]
fn busy_and_full(rt: HostRuntime) -> Result<(), Fail> {
    let host = Host(&rt);
    let mut work = worked(&host, rt.alloc(), 2, 0);
    fill(&host, rt.alloc(), &mut work);
    let mut work = work.flushes_group(&host);
    registers(&host, rt.alloc(), &mut work, 11, Err(SubmitError::Full));
    // What is there already takes no more room.
    registers(&host, rt.alloc(), &mut work, 10, Ok(256));
    let mut work = eight_groups(&host, work);
    redeem_all(&host, &mut work);
    let full = Contents {
        rows: 10,
        bytes: 930,
        place: 257,
    };
    let device = work.ends(&host, full);
    let _device = assert_opens_to(&host, rt.alloc(), device, full);
    Ok(())
}

/// What is submitted: a purge, a removal, and a segment once or seventeen times.
#[derive(Clone, Copy, Debug)]
enum Kind {
    Purge,
    Removal,
    Segment,
    TooLarge,
}

/// The command of a kind.
fn command_of(rt: &Host<impl Abort>, alloc: Global, kind: Kind) -> Command {
    match kind {
        Kind::Purge => Command::Purge(0),
        Kind::Removal => Command::Remove(SegType::Down, [0; 32]),
        Kind::Segment => register(rt, alloc, 11, 1),
        Kind::TooLarge => register(rt, alloc, 1, 17),
    }
}

/// A command that is submitted to a store, and its answer.
#[derive(Clone, Copy, Debug)]
struct Case {
    version: u8,
    place: u64,
    /// How many purges are pending.
    pending: usize,
    /// Whether the state has stopped.
    halted: bool,
    kind: Kind,
    answer: Result<u64, SubmitError>,
}

/// The last place.
const LAST: u64 = u64::MAX;

/// One with room for 256 commands after it, and one before that.
const NEAR: u64 = LAST - 256;

const NEARER: u64 = LAST - 257;

const PURGE: Kind = Kind::Purge;

const REMOVAL: Kind = Kind::Removal;

const SEGMENT: Kind = Kind::Segment;

const LARGE: Kind = Kind::TooLarge;

const STOPPED: Result<u64, SubmitError> = Err(SubmitError::Stopped);

const TOO_LARGE: Result<u64, SubmitError> = Err(SubmitError::TooLarge);

const OLD_STORE: Result<u64, SubmitError> = Err(SubmitError::OldStore);

const EXHAUSTED: Result<u64, SubmitError> = Err(SubmitError::Exhausted);

const BUSY: Result<u64, SubmitError> = Err(SubmitError::Busy);

#[rattlefmt::skip]
const CASES: [Case; 20] = [
    Case { version: 1, place: LAST, pending: 0, halted: true, kind: LARGE, answer: STOPPED },
    Case { version: 1, place: LAST, pending: 0, halted: true, kind: REMOVAL, answer: STOPPED },
    Case { version: 2, place: NEAR, pending: 256, halted: true, kind: PURGE, answer: STOPPED },
    Case { version: 2, place: 0, pending: 256, halted: true, kind: SEGMENT, answer: STOPPED },
    Case { version: 2, place: 0, pending: 0, halted: true, kind: SEGMENT, answer: STOPPED },
    Case { version: 1, place: LAST, pending: 0, halted: false, kind: LARGE, answer: TOO_LARGE },
    Case { version: 2, place: NEAR, pending: 256, halted: false, kind: LARGE, answer: TOO_LARGE },
    Case { version: 2, place: 0, pending: 0, halted: false, kind: LARGE, answer: TOO_LARGE },
    Case { version: 1, place: LAST, pending: 0, halted: false, kind: REMOVAL, answer: OLD_STORE },
    Case { version: 1, place: NEAR, pending: 256, halted: false, kind: REMOVAL, answer: OLD_STORE },
    Case { version: 1, place: 0, pending: 256, halted: false, kind: REMOVAL, answer: OLD_STORE },
    Case { version: 1, place: LAST, pending: 0, halted: false, kind: PURGE, answer: EXHAUSTED },
    Case { version: 2, place: LAST, pending: 0, halted: false, kind: REMOVAL, answer: EXHAUSTED },
    Case { version: 2, place: LAST, pending: 0, halted: false, kind: SEGMENT, answer: EXHAUSTED },
    Case { version: 2, place: NEAR, pending: 256, halted: false, kind: PURGE, answer: EXHAUSTED },
    Case { version: 2, place: NEARER, pending: 256, halted: false, kind: PURGE, answer: BUSY },
    Case { version: 2, place: NEAR, pending: 255, halted: false, kind: PURGE,
        answer: Ok(LAST - 1) },
    Case { version: 2, place: 0, pending: 256, halted: false, kind: REMOVAL, answer: BUSY },
    Case { version: 2, place: 7, pending: 0, halted: false, kind: REMOVAL, answer: Ok(7) },
    Case { version: 1, place: 7, pending: 3, halted: false, kind: SEGMENT, answer: Ok(10) },
];

/// Sees how a case is answered, and that nothing is shown of it.
fn assert_answer(rt: &Host<impl Abort>, alloc: Global, case: &Case) {
    let mut work = worked(rt, alloc, case.version, case.place);
    work.purge(rt, case.pending);
    if case.halted {
        work.state.halt();
    }
    let answer = work.submit(rt, command_of(rt, alloc, case.kind));
    assert_same(rt, &answer, &case.answer, case);
    let _device = work.ends(rt, Contents::empty_at(case.place));
}

#[test]
fn the_first_refusal_is_answered(rt: HostRuntime) -> Result<(), Fail> {
    let host = Host(&rt);
    for case in &CASES {
        assert_answer(&host, rt.alloc(), case);
    }
    Ok(())
}
