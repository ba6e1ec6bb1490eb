//! Want of memory in sessions. The test is run with each of its allocations refused in turn: the
//! session ends for want of memory, or because its output has no room, after a front of its
//! replies, or one reply is the code of want of memory. Then that message changed nothing, or its
//! command was taken, and the later replies go on from there.

use crate::checks::{assert_same, assert_true};
use crate::once::worked::{FOUND, LOOKUP, NONE_FOUND, REGISTER, session};
use cli_once::cores_of;
use seg_lookup::Roster;
use session_core::FrameError;
use std::alloc::Global;
use std::process::Abort;
use std::test::Fail;

/// The refusal for want of memory.
const NO_MEMORY: &str = "00000002ff01";

/// Drops nothing.
const PURGE: &str = "00000009030000000000000000";

const MESSAGES: [&str; 5] = [PURGE, REGISTER, PURGE, LOOKUP, PURGE];

fn push(alloc: Global, bytes: &mut Vec<u8>, text: &str) -> Result<(), Fail> {
    let more = hex::decode(alloc, text)?;
    bytes.extend_from_slice(more.as_slice())?;
    Ok(())
}

fn push_ack(
    alloc: Global,
    output: &mut Vec<u8>,
    head: &str,
    place: u64,
    counts: &str,
) -> Result<(), Fail> {
    push(alloc, output, head)?;
    output.extend_from_slice(&place.to_be_bytes())?;
    push(alloc, output, counts)
}

/// Appends the reply to the message of this number, at a place, where the segment is registered or
/// not.
fn push_reply(
    alloc: Global,
    output: &mut Vec<u8>,
    number: usize,
    place: u64,
    registered: bool,
) -> Result<(), Fail> {
    let one = "00000001000000000000000000000000";
    let none = "00000000000000000000000000000000";
    match number {
        1 => push_ack(alloc, output, "0000001981", place, one),
        3 if registered => push(alloc, output, FOUND),
        3 => push(alloc, output, NONE_FOUND),
        _ => push_ack(alloc, output, "0000001983", place, none),
    }
}

/// Appends the replies where the message of this number is refused memory, and its command is taken
/// or not.
fn push_replies(
    alloc: Global,
    output: &mut Vec<u8>,
    refused: usize,
    taken: bool,
) -> Result<(), Fail> {
    let mut place: u64 = 0;
    let mut registered = false;
    for number in 0..MESSAGES.len() {
        if number == refused {
            push(alloc, output, NO_MEMORY)?;
        } else {
            push_reply(alloc, output, number, place, registered)?;
        }
        if number != 3 && (number != refused || taken) {
            place = place.saturating_add(1);
            registered = registered || number == 1;
        }
    }
    Ok(())
}

/// The replies where the message of this number is refused memory, and its command is taken or not.
fn replies_but(alloc: Global, refused: usize, taken: bool) -> Result<Vec<u8>, Fail> {
    let mut output = Vec::new(alloc);
    push_replies(alloc, &mut output, refused, taken)?;
    Ok(output)
}

/// Whether these are the replies where the message of this number is refused memory, and its
/// command is taken or not.
fn are_replies_but(
    alloc: Global,
    refused: usize,
    taken: bool,
    output: &[u8],
) -> Result<bool, Fail> {
    Ok(replies_but(alloc, refused, taken)?.as_slice() == output)
}

/// Whether a session that ended well may have written this.
fn may_be_written(alloc: Global, output: &[u8]) -> Result<bool, Fail> {
    for refused in 0..=MESSAGES.len() {
        for taken in [false, true] {
            if are_replies_but(alloc, refused, taken, output)? {
                return Ok(true);
            }
        }
    }
    Ok(false)
}

/// Whether this is a front of the replies where no memory is refused.
fn is_front(alloc: Global, output: &[u8]) -> Result<bool, Fail> {
    let whole = replies_but(alloc, MESSAGES.len(), true)?;
    Ok(whole.as_slice().starts_with(output))
}

/// Whether a session that ended so and wrote this was replied as where no memory is refused. It is
/// replied otherwise only for a refusal.
fn is_whole(
    rt: &impl Abort,
    alloc: Global,
    outcome: Result<u64, FrameError>,
    output: &[u8],
) -> Result<bool, Fail> {
    if outcome == Err(FrameError::NoMemory) || outcome == Err(FrameError::Write) {
        let is_front = is_front(alloc, output)?;
        assert_true(rt, is_front, "a front of the replies is written");
        return Ok(false);
    }
    assert_same(rt, &outcome, &Ok(5), &"replies");
    let may_be = may_be_written(alloc, output)?;
    assert_true(rt, may_be, "one message at most is refused");
    are_replies_but(alloc, MESSAGES.len(), true, output)
}

/// Appends the messages.
fn push_messages(alloc: Global, input: &mut Vec<u8>) -> Result<(), Fail> {
    for message in MESSAGES {
        push(alloc, input, message)?;
    }
    Ok(())
}

/// The messages.
fn messages(alloc: Global) -> Result<Vec<u8>, Fail> {
    let mut input = Vec::new(alloc);
    push_messages(alloc, &mut input)?;
    Ok(input)
}

/// Whether a session of the messages is replied as where no memory is refused.
fn is_served_whole(rt: &impl Abort, alloc: Global, input: &[u8]) -> Result<bool, Fail> {
    let cores = Roster::new(cores_of(alloc, "1-ff00:0:110")?);
    let mut reader = input;
    let mut output = Vec::new(alloc);
    let outcome = session(alloc, &mut reader, &mut output, &cores, 1_000);
    is_whole(rt, alloc, outcome, output.as_slice())
}

// At most one allocation is refused, so that of two sessions one is whole.
#[test]
fn refused_memory_of_sessions(rt: HostRuntime) -> Result<(), Fail> {
    let input = messages(rt.alloc())?;
    let first = is_served_whole(&rt, rt.alloc(), input.as_slice())?;
    let second = is_served_whole(&rt, rt.alloc(), input.as_slice())?;
    assert_true(&rt, first || second, "one of two sessions is whole");
    Ok(())
}
