//! What journals read as.

use crate::checks::done;
use crate::halves::worked::Part::{Closed, Open, Purges, Removal, Seal};
use crate::halves::worked::{Outline, Part, Seen, bytes_of, drawn, payload_of, purges, seen};
use crate::host::Host;
use gate_journal::JournalError;
use std::alloc::Global;
use std::test::Fail;
use test_support::{TestHost, assert_same};

/// What a journal of these parts reads as, from a place on and under a version.
#[derive(Clone, Copy)]
struct Case {
    name: &'static str,
    parts: &'static [Part],
    from: u64,
    version: u32,
    seen: Seen,
}

const BAD_HEADER: Seen = Err(JournalError::BadHeader);

const GAP: Seen = Err(JournalError::Gap(1));

const PAST_END: Seen = Err(JournalError::PastEnd);

/// What journals read as, closed, sealed, and broken off.
#[rattlefmt::skip]
const READ: [Case; 13] = [
    Case { name: "no group", parts: &[Closed], from: 7, version: 1,
        seen: Ok(Outline { commands: 0, tail: 0, is_sealed: false, place: 7 }) },
    Case { name: "open gates after a closed one", parts: &[Closed, Open, Open], from: 7, version: 2,
        seen: Ok(Outline { commands: 0, tail: 0, is_sealed: false, place: 7 }) },
    Case { name: "one group", parts: &[Open, Purges(1, 0), Closed, Closed], from: 0, version: 1,
        seen: Ok(Outline { commands: 1, tail: 2, is_sealed: false, place: 1 }) },
    Case { name: "one group, and an open gate later",
        parts: &[Open, Purges(1, 0), Closed, Open], from: 0, version: 1,
        seen: Ok(Outline { commands: 1, tail: 2, is_sealed: false, place: 1 }) },
    Case { name: "two groups",
        parts: &[Open, Purges(1, 0), Open, Purges(2, 1), Closed, Closed], from: 0, version: 1,
        seen: Ok(Outline { commands: 3, tail: 4, is_sealed: false, place: 3 }) },
    Case { name: "a group and a seal",
        parts: &[Open, Purges(1, 0), Open, Seal(1), Open], from: 0, version: 1,
        seen: Ok(Outline { commands: 1, tail: 2, is_sealed: true, place: 1 }) },
    Case { name: "a seal", parts: &[Open, Seal(257)], from: 257, version: 1,
        seen: Ok(Outline { commands: 0, tail: 0, is_sealed: true, place: 257 }) },
    Case { name: "no payload", parts: &[Open], from: 0, version: 1, seen: PAST_END },
    Case { name: "an empty payload", parts: &[Open, Closed], from: 0, version: 1,
        seen: BAD_HEADER },
    Case { name: "a group at an earlier place", parts: &[Open, Purges(1, 0)], from: 1, version: 1,
        seen: GAP },
    Case { name: "a seal at a later place",
        parts: &[Open, Purges(1, 0), Open, Seal(2)], from: 0, version: 1,
        seen: GAP },
    Case { name: "a group without a gate after it",
        parts: &[Open, Purges(1, 0), Closed], from: 0, version: 1,
        seen: PAST_END },
    Case { name: "an empty payload after a group",
        parts: &[Open, Purges(1, 0), Open, Closed], from: 0, version: 1,
        seen: BAD_HEADER },
];

/// Checks what a journal reads as.
fn assert_read(rt: &impl TestHost, alloc: Global, case: &Case) -> Result<(), Fail> {
    let bytes = bytes_of(alloc, case.parts)?;
    let found = seen(rt, alloc, &bytes, case.from, case.version)?;
    assert_same(rt, &found, &case.seen, &(case.name, case.version));
    Ok(())
}

#[test]
fn journals_are_read(rt: HostRuntime) -> Result<(), Fail> {
    let host = Host(&rt);
    for case in &READ {
        assert_read(&host, rt.alloc(), case)?;
    }
    Ok(())
}

/// Groups of eight, nine, thirty-two and thirty-three, and a removal, under each version.
#[rattlefmt::skip]
const LIMITS: [Case; 10] = [
    Case { name: "eight purges", parts: &[Open, Purges(8, 0), Closed, Closed], from: 0, version: 1,
        seen: Ok(Outline { commands: 8, tail: 2, is_sealed: false, place: 8 }) },
    Case { name: "eight purges", parts: &[Open, Purges(8, 0), Closed, Closed], from: 0, version: 2,
        seen: Ok(Outline { commands: 8, tail: 2, is_sealed: false, place: 8 }) },
    Case { name: "nine purges", parts: &[Open, Purges(9, 0), Closed, Closed], from: 0, version: 1,
        seen: BAD_HEADER },
    Case { name: "nine purges", parts: &[Open, Purges(9, 0), Closed, Closed], from: 0, version: 2,
        seen: Ok(Outline { commands: 9, tail: 2, is_sealed: false, place: 9 }) },
    Case { name: "thirty-two purges",
        parts: &[Open, Purges(32, 0), Closed, Closed], from: 0, version: 1,
        seen: BAD_HEADER },
    Case { name: "thirty-two purges",
        parts: &[Open, Purges(32, 0), Closed, Closed], from: 0, version: 2,
        seen: Ok(Outline { commands: 32, tail: 2, is_sealed: false, place: 32 }) },
    Case { name: "thirty-three purges",
        parts: &[Open, Purges(33, 0), Closed, Closed], from: 0, version: 1,
        seen: BAD_HEADER },
    Case { name: "thirty-three purges",
        parts: &[Open, Purges(33, 0), Closed, Closed], from: 0, version: 2,
        seen: BAD_HEADER },
    Case { name: "a removal", parts: &[Open, Removal, Closed, Closed], from: 0, version: 1,
        seen: Err(JournalError::BadRecord) },
    Case { name: "a removal", parts: &[Open, Removal, Closed, Closed], from: 0, version: 2,
        seen: Ok(Outline { commands: 1, tail: 2, is_sealed: false, place: 1 }) },
];

#[test]
fn versions_have_limits(rt: HostRuntime) -> Result<(), Fail> {
    let host = Host(&rt);
    for case in &LIMITS {
        assert_read(&host, rt.alloc(), case)?;
    }
    Ok(())
}

/// The payload of a group of this number of purges.
fn payload_of_purges(rt: &impl TestHost, alloc: Global, count: u8) -> Result<Vec<u8>, Fail> {
    let commands = purges(alloc, u64::from(count))?;
    payload_of(rt, alloc, &commands, 300)
}

/// Checks that the payload of this number of purges is as it is drawn.
fn assert_drawn(rt: &impl TestHost, alloc: Global, count: u8) -> Result<(), Fail> {
    let payload = payload_of_purges(rt, alloc, count)?;
    let wanted = drawn(alloc, count, 300)?;
    assert_same(rt, &payload.as_slice(), &wanted.as_slice(), &count);
    Ok(())
}

#[test]
fn groups_are_written_as_they_are_drawn(rt: HostRuntime) {
    let host = Host(&rt);
    for count in &[1, 8, 9, 32] {
        done(&rt, assert_drawn(&host, rt.alloc(), *count));
    }
}
