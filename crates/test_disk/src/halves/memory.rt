//! Want of memory: a group is written whole or not at all, and a journal is read whole or not at
//! all.

use crate::halves::worked::Part::{Closed, Open, Purges, Seal};
use crate::halves::worked::{
    Outline, Part, Seen, add_parts, bytes_of, many, payload_again, read_as, seen,
};
use crate::host::Host;
use gate_journal::JournalError;
use path_db::Command;
use std::alloc::Global;
use std::test::Fail;
use test_support::{TestHost, assert_same};

/// The payload of a purge and of the registration of 16 segments. Where memory is refused, it is
/// written again.
fn payload(rt: &impl TestHost, alloc: Global) -> Result<Vec<u8>, Fail> {
    // 16 bytes, 13, and 6 with 16 rows of 93
    let commands = [Command::Purge(5), many(alloc, 16)?];
    let payload = payload_again(rt, alloc, &commands)?;
    assert_same(rt, &payload.len(), &1536, &"bytes");
    Ok(payload)
}

/// Adds a gate and this payload, and after them a seal.
fn add_sealed(bytes: &mut Vec<u8>, payload: &[u8]) -> Result<(), Fail> {
    add_parts(bytes, &[Open])?;
    bytes.extend_from_slice(payload)?;
    add_parts(bytes, &[Open, Seal(2)])
}

/// A journal of that payload, which is sealed.
fn sealed_journal(rt: &impl TestHost, alloc: Global) -> Result<Vec<u8>, Fail> {
    let payload = payload(rt, alloc)?;
    let mut bytes = Vec::new(alloc);
    add_sealed(&mut bytes, &payload)?;
    Ok(bytes)
}

/// Sees what that journal reads as, which is read again where memory is refused.
fn assert_sealed(rt: &impl TestHost, alloc: Global, bytes: &[u8]) {
    let answer = match read_as(rt, alloc, bytes, 0, 2) {
        Err(JournalError::NoMemory) => read_as(rt, alloc, bytes, 0, 2),
        answer => answer,
    };
    let whole = Outline {
        commands: 2,
        tail: 4,
        is_sealed: true,
        place: 2,
    };
    assert_same(rt, &answer, &Ok(whole), &"the journal");
}

// It is run with each allocation refused in turn. Where that is one of the writing or of the
// reading, both succeed when they are tried again.
#[test]
fn refused_calls_may_be_tried_again(rt: HostRuntime) -> Result<(), Fail> {
    let host = Host(&rt);
    let bytes = sealed_journal(&host, rt.alloc())?;
    assert_sealed(&host, rt.alloc(), &bytes);
    Ok(())
}

/// The parts of a journal, and what it reads as without memory.
const CASES: [(&[Part], Seen); 3] = [
    (
        &[Open, Seal(0)],
        Ok(Outline {
            commands: 0,
            tail: 0,
            is_sealed: true,
            place: 0,
        }),
    ),
    (
        &[Open, Purges(9, 0), Closed, Closed],
        Err(JournalError::BadHeader),
    ),
    (&[Open, Purges(1, 0), Closed], Err(JournalError::PastEnd)),
];

/// Sees what a journal of these parts reads as without memory.
fn assert_seen(
    rt: &impl TestHost,
    alloc: Global,
    parts: &[Part],
    wanted: &Seen,
) -> Result<(), Fail> {
    let bytes = bytes_of(alloc, parts)?;
    let found = seen(rt, alloc, &bytes, 0, 1)?;
    assert_same(rt, &found, wanted, &parts);
    Ok(())
}

// A seal, a closed gate and a header that is none take no memory: they are answered where there is
// none.
#[test]
fn refusals_take_no_memory(rt: HostRuntime) -> Result<(), Fail> {
    let host = Host(&rt);
    for (parts, wanted) in &CASES {
        assert_seen(&host, rt.alloc(), parts, wanted)?;
    }
    Ok(())
}
